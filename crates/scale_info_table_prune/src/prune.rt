//! Pruning of a table from bytes to bytes.
ghost use Rattle.std.specs.Prelude.{◌≡◌, List, ℕ, IfOk, IfErr, OnOk, OnErr};
ghost use Rattle.scale_info_table_prune.specs.Prunes.{HasNewIds, IsPruneError, IsPrunedEncoding};
ghost use Rattle.scale_info_table_prune.specs.declared.prune.PruneError.TheVariants as prune_error;

use crate::indexed::IndexedTable;
use scale_info_collections::failure::AllocationFailure;
use std::alloc::Global;
use std::collections::BTreeMap;
use thiserror::Error;

/// Why bytes could not be pruned.
#[derive(Debug, Drop, PartialEq, Eq, Error)]
pub enum PruneError {
    /// No prefix of the input is a table.
    #[error("the bytes are no table")]
    Malformed,
    /// Bytes come after the table.
    #[error("there are bytes after the table")]
    Trailing,
    /// This given id, the first such, is no index of the table.
    #[error("no such type {0}")]
    NoSuchType(u32),
    /// This id, the first such that is reached from the given ones, is no index of the table.
    #[error("dangling id {0}")]
    Dangling(u32),
    /// An allocation failed.
    #[error("out of memory")]
    Memory,
}

impl<F: AllocationFailure> From<F> for PruneError {
    ghost from_gives = { λ _ e. e ≡ prune_error.Memory };

    fn from(_failure: F) -> PruneError {
        PruneError::Memory
    }
}

/// Prunes a table from bytes to bytes: appends the table of what the given ids reach, and returns
/// the new id of each old one that is kept. No description is made.
///
/// The ids are taken in ascending order, each once; no ids give the empty table. Entries come in
/// depth-first order of discovery, as `retain` of a table has them.
///
/// ```text
/// prune(alloc, &[4, 0, 0, 0, 5, 0, 0], &[0], &mut out)?  // {0: 0}, and out grew by these bytes
/// ```
///
/// Errors, in the order of the checks: `Malformed`, where no prefix of the input is a table;
/// `Trailing`, where bytes come after it; `NoSuchType`, for the first given id that is no index;
/// `Dangling`, for the first id that is reached and is no index; `Memory`, where an allocation
/// failed. On an Err the output is as before.
pub fn prune(
    alloc: Global,
    input: &[u8],
    ids: &[u32],
    out: &mut Vec<u8>,
) -> Result<BTreeMap<u32, u32>, PruneError>
    ensures ok { IfOk result (λ new_ids. (order : List ℕ) × HasNewIds order new_ids
        × IsPrunedEncoding input.now ids.now order out.old.items out.new.items) }
    ensures err { OnErr result (out.new.items ≡ out.old.items) }
    ensures cause { IfErr result (IsPruneError input.now ids.now) }
{
    let mut table = IndexedTable::of(alloc, input)?;
    table.prune(alloc, ids, out)
}

/// Appends what [`prune`] appends, and makes no map of ids. Who prunes a table more than once takes
/// an [`IndexedTable`] of it.
///
/// Errors: as those of [`prune`].
pub fn append_pruned(
    alloc: Global,
    input: &[u8],
    ids: &[u32],
    out: &mut Vec<u8>,
) -> Result<(), PruneError>
    ensures ok { OnOk result ((order : List ℕ)
        × IsPrunedEncoding input.now ids.now order out.old.items out.new.items) }
    ensures err { OnErr result (out.new.items ≡ out.old.items) }
    ensures cause { IfErr result (IsPruneError input.now ids.now) }
{
    let mut table = IndexedTable::of(alloc, input)?;
    table.append_pruned(alloc, ids, out)
}
