//! Marks of the paths whose types can't be the same in two tables, all found in one pass over both.
//!
//! Types that have one path are taken in pairs, one of each table, and so are those that they refer
//! to at the same places. Two types are not the same where their contents differ, or where a pair
//! that they refer to is not the same. What is found so has changed; of what is not, nothing is
//! said, since a type of one table may stand for two of the other.
ghost use Rattle.std.specs.Prelude.{◌≡◌, ◌≢◌, [], All, List, IfOk, IsTrue, OnOk, ℕ, Some};
ghost use Rattle.std.specs.Prelude.{length, map, slice_get};
ghost use Rattle.scale_info_table_diff.specs.Differing.{AreDiffering, AreMarks};
ghost use Rattle.scale_info_table_diff.specs.Differing.{AreNeverPaired, Grows, HasReferences};
ghost use Rattle.scale_info_table_diff.specs.Differing.{HaveNoMatch, IsDiffering, IsEdge};
ghost use Rattle.scale_info_table_diff.specs.TypesByPath.{AreIdsByPath};
ghost use Rattle.scale_info_types.specs.declared.ty.PortableType.{PortableType};

use crate::edges::spread;
use crate::entries::EntryReader;
use crate::named::NamedTable;
use crate::pairs::Pairs;
use scale_info_collections::text::Text;
use scale_info_table_prune::indexed::IndexedTable;
use std::alloc::{AllocError, Global};

/// Pairs of types, with a mark at each that is known to be of types that are never paired.
#[derive(Drop)]
struct Differing {
    pairs: Pairs,
    marks: Vec<bool>,
}

/// For each of these paths of the old table, whose ids are given, whether it is known to have
/// changed: where it has no mark, it may have too.
///
/// Errors: `AllocError`, if an allocation failed.
pub(crate) fn changed_paths(
    alloc: Global,
    old: &IndexedTable<'_>,
    new: &NamedTable<'_>,
    paths: &[Text],
    ids: &[Vec<u32>],
) -> Result<Vec<bool>, AllocError>
    requires { length ids.now ≡ length paths.now }
    ensures long { IfOk result (λ marks. length marks.items ≡ length paths.now) }
    ensures marks { IfOk result
        (λ marks. AreIdsByPath old.now paths.now (map (λ row. row.items) ids.now)
        → AreMarks old.now new.now paths.now marks.items) }
{
    let entries = EntryReader::of(alloc, old)?;
    let others = EntryReader::of(alloc, &new.table)?;
    let mut pairs = Pairs::new(alloc, entries.zeros.len())?;
    pair_types(new, paths, ids, &mut pairs)?;
    let found = find_differing(alloc, &entries, &others, pairs)?;
    marks_of(alloc, &found, new, paths, ids)
}

/// Adds a pair for each of the types with one of these paths, in order.
///
/// Errors: `AllocError`, if an allocation failed.
fn pair_types(
    new: &NamedTable<'_>,
    paths: &[Text],
    ids: &[Vec<u32>],
    pairs: &mut Pairs,
) -> Result<(), AllocError>
    requires { length ids.now ≡ length paths.now }
{
    for index in 0..paths.len() {
        pair_ids(&ids[index], new.ids_of(&paths[index]), pairs)?;
    }
    Ok(())
}

/// Adds a pair of each two ids at the same place.
///
/// Errors: `AllocError`, if an allocation failed.
fn pair_ids(ids: &[u32], others: &[u32], pairs: &mut Pairs) -> Result<(), AllocError> {
    for place in 0..ids.len().min(others.len()) {
        let _ = pairs.number_of(ids[place], others[place])?;
    }
    Ok(())
}

/// Adds the pairs that pairs refer to, and theirs, and marks those of types that are never paired.
/// It goes no further than twice as many pairs as both tables have types.
///
/// Errors: `AllocError`, if an allocation failed.
fn find_differing(
    alloc: Global,
    old: &EntryReader<'_, '_>,
    new: &EntryReader<'_, '_>,
    pairs: Pairs,
) -> Result<Differing, AllocError>
    ensures { IfOk result (λ found. AreDiffering old.now.table.now new.now.table.now
        found.pairs.items.items found.marks.items) }
{
    let mut pairs = pairs;
    let mut marks = Vec::new(alloc);
    let mut edges = Vec::new(alloc);
    let most = old
        .zeros
        .len()
        .saturating_add(new.zeros.len())
        .saturating_mul(2);
    for _ in 0..most {
        if marks.len() >= pairs.items.len() {
            break;
        }
        let number = marks.len();
        let mark = visit(alloc, old, new, number, &mut pairs, &mut edges)?;
        marks.push(mark)?;
    }
    spread(alloc, &edges, &mut marks)?;
    Ok(Differing { pairs, marks })
}

/// Whether the types of the pair with this number differ in contents; if not, adds the pairs that
/// it refers to, and an edge to each.
///
/// Errors: `AllocError`, if an allocation failed.
fn visit(
    alloc: Global,
    old: &EntryReader<'_, '_>,
    new: &EntryReader<'_, '_>,
    number: usize,
    pairs: &mut Pairs,
    edges: &mut Vec<(usize, usize)>,
) -> Result<bool, AllocError>
    ensures grows { Grows pairs.old.items.items pairs.new.items.items }
    ensures mark { IfOk result (λ mark. IsTrue mark
        → IsDiffering old.now.table.now new.now.table.now pairs.new.items.items number) }
    ensures edges { OnOk result
        (All (IsEdge old.now.table.now new.now.table.now pairs.old.items.items) edges.old.items
        → All (IsEdge old.now.table.now new.now.table.now pairs.new.items.items)
        edges.new.items) }
{
    let Some(pair) = pairs.items.get(number) else {
        return Ok(false);
    };
    let (id, other) = *pair;
    let Some(parts) = old.parts_of(alloc, id)? else {
        return Ok(false);
    };
    let Some(other_parts) = new.parts_of(alloc, other)? else {
        return Ok(false);
    };
    if parts.contents != other_parts.contents {
        return Ok(true);
    }
    add_edges(
        number,
        &parts.references,
        &other_parts.references,
        pairs,
        edges,
    )?;
    Ok(false)
}

/// Adds a pair of each two references at the same place, and an edge to it from the pair with this
/// number, which is of the types that have these references.
///
/// Errors: `AllocError`, if an allocation failed.
fn add_edges(
    number: usize,
    references: &[u32],
    others: &[u32],
    pairs: &mut Pairs,
    edges: &mut Vec<(usize, usize)>,
) -> Result<(), AllocError>
    ensures grows { Grows pairs.old.items.items pairs.new.items.items }
    ensures edges { OnOk result ((types other_types : List PortableType) (pair : ℕ × ℕ)
        → slice_get pairs.old.items.items number ≡ Some pair
        → HasReferences types pair.0 references.now
        → HasReferences other_types pair.1 others.now
        → All (IsEdge types other_types pairs.old.items.items) edges.old.items
        → All (IsEdge types other_types pairs.new.items.items) edges.new.items) }
{
    for place in 0..references.len().min(others.len()) {
        let child = pairs.number_of(references[place], others[place])?;
        if let Some(child) = child {
            edges.push((number, child))?;
        }
    }
    Ok(())
}

/// Whether the pair of these ids has a mark.
fn differ(found: &Differing, id: u32, other: u32) -> bool
    ensures { IsTrue result → (types others : List PortableType)
        → AreDiffering types others found.now.pairs.items.items found.now.marks.items
        → AreNeverPaired types others id other }
{
    let Some(number) = found.pairs.find(id, other) else {
        return false;
    };
    match found.marks.get(number) {
        Some(mark) => *mark,
        None => false,
    }
}

/// Whether these ids, the second of which are in the new table, are known to have no match.
fn have_no_match(found: &Differing, ids: &[u32], others: &[u32]) -> bool
    ensures { IsTrue result → (types other_types : List PortableType)
        → AreDiffering types other_types found.now.pairs.items.items found.now.marks.items
        → HaveNoMatch types other_types ids.now others.now }
{
    if ids.len() != others.len() {
        return true;
    }
    for place in 0..ids.len() {
        if differ(found, ids[place], others[place]) {
            return true;
        }
    }
    false
}

/// Whether there are ids in the new table, and these ids and those are known to have no match.
fn have_changed(found: &Differing, ids: &[u32], others: &[u32]) -> bool
    ensures { IsTrue result → (types other_types : List PortableType)
        → AreDiffering types other_types found.now.pairs.items.items found.now.marks.items
        → (others.now ≢ []) × HaveNoMatch types other_types ids.now others.now }
{
    if others.is_empty() {
        return false;
    }
    have_no_match(found, ids, others)
}

/// For each path, whether it is known to have changed.
///
/// Errors: `AllocError`, if an allocation failed.
fn marks_of(
    alloc: Global,
    found: &Differing,
    new: &NamedTable<'_>,
    paths: &[Text],
    ids: &[Vec<u32>],
) -> Result<Vec<bool>, AllocError>
    requires { length ids.now ≡ length paths.now }
    ensures long { IfOk result (λ marks. length marks.items ≡ length paths.now) }
    ensures marks { IfOk result (λ marks. (types : List PortableType)
        → AreDiffering types new.now found.now.pairs.items.items found.now.marks.items
        → AreIdsByPath types paths.now (map (λ row. row.items) ids.now)
        → AreMarks types new.now paths.now marks.items) }
{
    let mut marks = Vec::new(alloc);
    for index in 0..paths.len() {
        let mark = have_changed(found, &ids[index], new.ids_of(&paths[index]));
        marks.push(mark)?;
    }
    Ok(marks)
}
