//! Where two tables differ first, from given types on.
ghost use Rattle.std.specs.Prelude.{◌≡◌, List, Some, ℕ, IfOk, IfErr, IfSome, IfNone};
ghost use Rattle.std.specs.BTreeMap.{get};
ghost use Rattle.std.specs.Ordering.{nat_cmp};
ghost use Rattle.scale_info_table_diff.specs.Differences.{AgreeThroughout, IsDifferenceError};
ghost use Rattle.scale_info_table_diff.specs.Differences.{IsFirstPlace, IsPrunedTo};
ghost use Rattle.scale_info_table_diff.specs.Differences.{TellsDifference};
ghost use Rattle.scale_info_table_prune.specs.Prunes.{HasNewIds, IsTypesPruneError};

use crate::named::table_of;
use scale_info_table::portable::PortableRegistry;
use scale_info_table_prune::indexed::IndexedTable;
use scale_info_table_prune::prune::PruneError;
use scale_info_types::laws::equal_portable;
use scale_info_types::ty::PortableType;
use std::alloc::Global;
use std::collections::BTreeMap;

/// The types in which two tables differ first, from given ids on: the id of a type of the old table
/// and the id of that of the new one; None, where no two types differ.
///
/// So it tells why a path has changed: the ids are those of the types with the path, and the result
/// is the first difference among all that they reach. Both tables are pruned to their ids, which
/// count in ascending order, each once; then what is kept is gone over in both at once, in
/// depth-first order of discovery, up to the end of the shorter of the two. Two types differ where
/// they are not the same in contents and references, where a reference is the place of a type in
/// that order; ids themselves don't count. Docs count: write both tables without docs first where
/// they should not.
///
/// Errors, of the old table before the new one: `NoSuchType`, for the first id that is no index;
/// `Dangling`, for the first id that is reached and is no index; `Memory`, where an allocation
/// failed.
///
/// ```text
/// // `a::T { x: u8, y: b::U }` in both, with ids 0 and 3; `b::U` has one field more in new
/// first_difference(alloc, &mut old, &[0], &mut new, &[3])?   // Some((2, 5)), the ids of b::U
/// ```
pub fn first_difference(
    alloc: Global,
    old: &mut IndexedTable<'_>,
    old_ids: &[u32],
    new: &mut IndexedTable<'_>,
    new_ids: &[u32],
) -> Result<Option<(u32, u32)>, PruneError>
    ensures ok { IfOk result (TellsDifference old.old old_ids.now new.old new_ids.now) }
    ensures cause { IfErr result
        (IsDifferenceError old.old old_ids.now new.old new_ids.now) }
    ensures old { old.new ≡ old.old }
    ensures new { new.new ≡ new.old }
{
    let (table, places) = pruned(alloc, old, old_ids)?;
    let (other_table, other_places) = pruned(alloc, new, new_ids)?;
    let Some(place) = first_place(table.types(), other_table.types()) else {
        return Ok(None);
    };
    Ok(Some((id_at(&places, place), id_at(&other_places, place))))
}

/// The table that a table is, pruned to these ids, and the place of each old id that is kept.
///
/// Errors: as those of [`first_difference`], for one table.
fn pruned(
    alloc: Global,
    table: &mut IndexedTable<'_>,
    ids: &[u32],
) -> Result<(PortableRegistry, BTreeMap<u32, u32>), PruneError>
    ensures ok { IfOk result (λ found. (order : List ℕ) × HasNewIds order found.1
        × IsPrunedTo table.old ids.now order found.0.types) }
    ensures cause { IfErr result (IsTypesPruneError table.old ids.now) }
    ensures table { table.new ≡ table.old }
{
    let mut bytes = Vec::new(alloc);
    let places = table.prune(alloc, ids, &mut bytes)?;
    let kept = table_of(alloc, &bytes)?;
    Ok((kept, places))
}

/// The first place at which both lists have entries that differ; None, where there is none.
fn first_place(entries: &[PortableType], others: &[PortableType]) -> Option<usize>
    ensures some { IfSome result (IsFirstPlace entries.now others.now) }
    ensures none { IfNone result (AgreeThroughout entries.now others.now) }
{
    equal_portable();
    for place in 0..entries.len().min(others.len()) {
        if entries[place] != others[place] {
            return Some(place);
        }
    }
    None
}

/// The old id that has this place.
fn id_at(places: &BTreeMap<u32, u32>, place: usize) -> u32
    requires { (id : ℕ) × (get nat_cmp places.now id ≡ Some place) }
    ensures { get nat_cmp places.now result ≡ Some place }
{
    for (id, at) in places {
        if *at as usize == place {
            return *id;
        }
    }
    unreachable!()
}
