//! What changed between two tables.
use scale_info_table_diff::change::Change;
use scale_info_table_diff::declarations::first_declared_change;
use scale_info_table_diff::first::first_difference;
use scale_info_table_diff::named::NamedTable;
use scale_info_table_diff::tables::{changes, without_docs};
use scale_info_table_prune::indexed::IndexedTable;
use scale_info_table_prune::prune::PruneError;
use std::alloc::Global;
use std::test::Fail;
use test_common::rows::{numbers, parted};
use test_memory_common::answers::shown;
use test_memory_common::inputs::bytes_of;
use test_memory_common::marked;
use test_memory_common::outcomes::Outcome;

/// What changed between two tables, where docs count.
fn changes_with_docs(alloc: Global, old: &[u8], new: &[u8]) -> Result<Vec<Change>, PruneError> {
    let mut old = NamedTable::of(alloc, old)?;
    let mut new = NamedTable::of(alloc, new)?;
    changes(alloc, &mut old, &mut new)
}

/// What changed between two tables without their docs.
fn plain_changes(alloc: Global, old: &[u8], new: &[u8]) -> Result<Vec<Change>, PruneError> {
    let old = without_docs(alloc, old)?;
    let new = without_docs(alloc, new)?;
    changes_with_docs(alloc, &old, &new)
}

/// Lists what changed between two tables, with a semicolon between them; also by docs, where the
/// call is named so.
fn list(rt: &HostRuntime, name: &str, row: &str) -> Result<Outcome, Fail> {
    let (old, new) = parted(row, ';')?;
    let (old, new) = (bytes_of(rt.alloc(), old)?, bytes_of(rt.alloc(), new)?);
    let returned = match name {
        "changes" => marked!(rt; plain_changes(rt.alloc(), &old, &new)),
        _ => marked!(rt; changes_with_docs(rt.alloc(), &old, &new)),
    };
    Outcome::of(shown(rt.alloc(), returned))
}

/// Ids of types, and the bytes of the table that has them.
#[derive(Drop)]
struct Chosen {
    ids: Vec<u32>,
    table: Vec<u8>,
}

/// The two parts of a row, each of which has ids and a table.
fn both_chosen(alloc: Global, row: &str) -> Result<(Chosen, Chosen), Fail> {
    let (ids, row) = parted(row, ';')?;
    let (table, row) = parted(row, ';')?;
    let (others, other) = parted(row, ';')?;
    let old = Chosen {
        ids: numbers(alloc, ids)?,
        table: bytes_of(alloc, table)?,
    };
    let new = Chosen {
        ids: numbers(alloc, others)?,
        table: bytes_of(alloc, other)?,
    };
    Ok((old, new))
}

/// The tables of both parts of a row, read. What is wrong with the ids of the old one comes before
/// what is wrong with the bytes of the new one.
fn read_both<'a>(
    alloc: Global,
    old: &'a Chosen,
    new: &'a Chosen,
) -> Result<(IndexedTable<'a>, IndexedTable<'a>), PruneError> {
    let mut read = IndexedTable::of(alloc, &old.table)?;
    match IndexedTable::of(alloc, &new.table) {
        Ok(other) => Ok((read, other)),
        Err(error) => {
            let mut kept = Vec::new(alloc);
            read.append_pruned(alloc, &old.ids, &mut kept)?;
            Err(error)
        }
    }
}

/// Where types of two tables differ first.
fn difference(alloc: Global, old: &Chosen, new: &Chosen) -> Result<Option<(u32, u32)>, PruneError> {
    let (mut read, mut other) = read_both(alloc, old, new)?;
    first_difference(alloc, &mut read, &old.ids, &mut other, &new.ids)
}

/// The tables of both parts of a row, read, with their types by their paths. What is wrong comes in
/// the order in which [`read_both`] has it.
fn named_both<'a>(
    alloc: Global,
    old: &'a Chosen,
    new: &'a Chosen,
) -> Result<(NamedTable<'a>, NamedTable<'a>), PruneError> {
    read_both(alloc, old, new)?;
    let read = NamedTable::of(alloc, &old.table)?;
    let other = NamedTable::of(alloc, &new.table)?;
    Ok((read, other))
}

/// Where types of two tables differ first, in words.
fn in_words(alloc: Global, old: &Chosen, new: &Chosen) -> Result<Option<String>, PruneError> {
    let (mut read, mut other) = named_both(alloc, old, new)?;
    first_declared_change(alloc, &mut read, &old.ids, &mut other, &new.ids)
}

/// Where types of two tables differ first; also in words, where the call is named so.
fn find(rt: &HostRuntime, name: &str, row: &str) -> Result<Outcome, Fail> {
    let alloc = rt.alloc();
    let (old, new) = both_chosen(alloc, row)?;
    if name == "first_difference" {
        let returned = marked!(rt; difference(alloc, &old, &new));
        return Outcome::of(shown(alloc, returned));
    }
    let returned = marked!(rt; in_words(alloc, &old, &new));
    Outcome::of(shown(alloc, returned))
}

/// Where types of two tables differ first in words, of tables that were read and asked before: each
/// is numbered reusing the buffers of the call before.
fn find_again(rt: &HostRuntime, row: &str) -> Result<Outcome, Fail> {
    let alloc = rt.alloc();
    let (old, new) = both_chosen(alloc, row)?;
    let (mut read, mut other) = named_both(alloc, &old, &new)?;
    first_declared_change(alloc, &mut read, &old.ids, &mut other, &new.ids)?;
    let returned =
        marked!(rt; first_declared_change(alloc, &mut read, &old.ids, &mut other, &new.ids));
    Outcome::of(shown(alloc, returned))
}

/// Makes the call of this name on two tables.
pub fn call(rt: &HostRuntime, name: &str, row: &str) -> Result<Outcome, Fail> {
    match name {
        "changes" | "changes_with_docs" => list(rt, name, row),
        "declared_change_of" => find_again(rt, row),
        "first_difference" | "first_declared_change" => find(rt, name, row),
        _ => Err(Fail::new("no call has this name")),
    }
}
