//! Whether types of two tables are the same.
ghost use Rattle.std.specs.Prelude.{List, IfErr, IfOk, OnOk};
ghost use Rattle.scale_info_grammar.specs.Ty.{EncodesTypes};
ghost use Rattle.scale_info_table_prune.specs.SameTypes.{IsRenumbered, IsRenumberingError};
ghost use Rattle.scale_info_table_prune.specs.SameTypes.{IsSameTypesError, ReachesIndices};
ghost use Rattle.scale_info_table_prune.specs.SameTypes.{TellsMatch};
ghost use Rattle.scale_info_types.specs.declared.ty.PortableType.{PortableType};

use crate::indexed::IndexedTable;
use crate::new_ids::are_equal;
use crate::prune::PruneError;
use scale_info_types::laws::shape_and_references;
use std::alloc::Global;

/// The table of what the ids reach in the table that the input is, numbered from them in their
/// order, and their new ids.
///
/// Errors: as those of [`same_types`], for one table.
fn renumbered_from(
    alloc: Global,
    input: &[u8],
    ids: &[u32],
) -> Result<(Vec<u8>, Vec<u32>), PruneError>
    ensures ok { IfOk result (λ found. (types : List PortableType) × EncodesTypes types input.now
        × IsRenumbered types ids.now found.0.items found.1.items) }
    ensures cause { IfErr result (IsRenumberingError input.now ids.now) }
{
    let mut table = IndexedTable::of(alloc, input)?;
    table.renumbered(alloc, ids)
}

/// Whether types of two tables are the same: whether what the ids reach in the table that is the
/// first input, and what the others reach in the second, match one to one in order, in contents and
/// references. Ids themselves don't count, nor what is not reached.
///
/// So a wallet asks whether the types of what it signs are in a new runtime what they were. Docs
/// count: write both tables without docs first where they should not.
///
/// Both tables are numbered from their ids in their order, and written; they are the same exactly
/// where the bytes and the new ids are. Takes memory for both tables' indices and for what is
/// reached. Who compares types of two tables more than once takes an [`IndexedTable`] of each.
///
/// Errors, of the first input before the second: `Malformed`, where no prefix of it is a table;
/// `Trailing`, where bytes come after the table; `NoSuchType`, for the first id that is no index;
/// `Dangling`, for the first id that is reached and is none; `Memory`, where an allocation failed.
///
/// ```text
/// // Vec<u32> at index 0 of one table, and at index 1 of another
/// same_types(alloc, &one, &[0], &other, &[1])?   // true
/// ```
pub fn same_types(
    alloc: Global,
    first: &[u8],
    ids: &[u32],
    second: &[u8],
    others: &[u32],
) -> Result<bool, PruneError>
    ensures ok { IfOk result (TellsMatch first.now ids.now second.now others.now) }
    ensures inside { OnOk result (ReachesIndices first.now ids.now) }
    ensures others_inside { OnOk result (ReachesIndices second.now others.now) }
    ensures cause { IfErr result (IsSameTypesError first.now ids.now second.now others.now) }
{
    shape_and_references();
    let (bytes, new_ids) = renumbered_from(alloc, first, ids)?;
    let (other_bytes, other_ids) = renumbered_from(alloc, second, others)?;
    Ok(are_equal(&bytes, &other_bytes, &new_ids, &other_ids))
}
