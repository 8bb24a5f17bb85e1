//! What is kept of tables, and the same types in two of them.
use scale_info::{PortableRegistry, append_pruned, prune, same_types};
use std::alloc::Global;
use std::test::Fail;
use test_common::held::Held;
use test_common::rows::{numbers, parted};
use test_memory_common::answers::{digits, shown};
use test_memory_common::inputs::{bytes_of, is_malformed, table_of};
use test_memory_common::outcomes::Outcome;
use test_memory_common::{appended, marked};

/// Calls of `prune` that are refused: a row is a name, a colon, the ids, a semicolon and the name
/// of the bytes.
const REFUSED: &str = "\
a byte after the table: 0; a table and a byte
no such type: 0 7 9; Vec<u32>
a dangling id: 1; reference outside the table
";

/// The name of bytes, and the ids that they are pruned to: those before a colon, those of the row
/// of this name, or 0 for bytes that begin with no table, or else every second index of the table
/// of this name.
pub fn given<'a>(alloc: Global, row: &'a str) -> Result<(&'a str, Vec<u32>), Fail> {
    if let Some((ids, name)) = row.split_once(':') {
        return Ok((name.trim(), numbers(alloc, ids)?));
    }
    if is_malformed(row) {
        return Ok((row, numbers(alloc, "0")?));
    }
    for line in REFUSED.lines() {
        let (name, rest) = parted(line, ':')?;
        if name == row {
            let (ids, bytes) = parted(rest, ';')?;
            return Ok((bytes.trim(), numbers(alloc, ids)?));
        }
    }
    Ok((row, chosen(alloc, &table_of(alloc, row)?)?))
}

/// Every second index of a table.
fn chosen(alloc: Global, table: &PortableRegistry) -> Result<Vec<u32>, Fail> {
    let mut ids = Vec::new(alloc);
    for (id, _) in table.entries() {
        if id % 2 == 0 {
            ids.push(id)?;
        }
    }
    Ok(ids)
}

/// Keeps what the given ids reach, which are those that the filter chooses. It notes each id that
/// it is asked, for which there is room.
fn retain(rt: &HostRuntime, row: &str) -> Result<Outcome, Fail> {
    let (name, ids) = given(rt.alloc(), row)?;
    let mut table = Held(table_of(rt.alloc(), name)?);
    let before = digits(rt.alloc(), &table.0);
    let mut asked = Vec::with_capacity(rt.alloc(), table.0.len())?;
    let noted = &mut asked;
    let returned = marked!(rt; table.0.retain(rt.alloc(), move |id| {
        let _ = noted.push(id);
        ids.contains(&id)
    }));
    let after = digits(rt.alloc(), &table.0);
    let outcome = Outcome::lending(before, after, shown(rt.alloc(), returned));
    Outcome::asking(outcome, asked)
}

/// The bytes of a row, and the ids that they are pruned to.
fn pruned(alloc: Global, row: &str) -> Result<(Vec<u8>, Vec<u32>), Fail> {
    let (name, ids) = given(alloc, row)?;
    Ok((bytes_of(alloc, name)?, ids))
}

/// Appends the table of what the given ids reach, with the new ids.
fn prune_bytes(rt: &HostRuntime, row: &str) -> Result<Outcome, Fail> {
    let (bytes, ids) = pruned(rt.alloc(), row)?;
    appended!(rt; out => prune(rt.alloc(), &bytes, &ids, &mut out))
}

/// Appends the table of what the given ids reach.
fn append_pruned_bytes(rt: &HostRuntime, row: &str) -> Result<Outcome, Fail> {
    let (bytes, ids) = pruned(rt.alloc(), row)?;
    appended!(rt; out => append_pruned(rt.alloc(), &bytes, &ids, &mut out))
}

/// Whether types of two tables are the same. A row has ids and a table, and others.
fn compare(rt: &HostRuntime, row: &str) -> Result<Outcome, Fail> {
    let (ids, row) = parted(row, ';')?;
    let (table, row) = parted(row, ';')?;
    let (others, other) = parted(row, ';')?;
    let (ids, others) = (numbers(rt.alloc(), ids)?, numbers(rt.alloc(), others)?);
    let (table, other) = (bytes_of(rt.alloc(), table)?, bytes_of(rt.alloc(), other)?);
    let returned = marked!(rt; same_types(rt.alloc(), &table, &ids, &other, &others));
    Outcome::of(shown(rt.alloc(), returned))
}

/// Makes the call of this name, which prunes or compares tables.
pub fn call(rt: &HostRuntime, name: &str, input: &str) -> Result<Outcome, Fail> {
    match name {
        "retain" => retain(rt, input),
        "prune" => prune_bytes(rt, input),
        "append_pruned" => append_pruned_bytes(rt, input),
        "same_types" => compare(rt, input),
        _ => Err(Fail::new("no call has this name")),
    }
}
