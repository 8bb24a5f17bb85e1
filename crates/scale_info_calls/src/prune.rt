//! A part of a table.
ghost use Rattle.std.specs.Prelude.{◌≡◌, IfErr, IfOk, OnErr};
ghost use Rattle.scale_info_calls.specs.Rooms.{Gives, Refuses};
ghost use Rattle.scale_info_calls.specs.WholeTables.{IsPruneRefusal, IsPruned};

use crate::error::CallError;
use crate::pruning::error_of;
use crate::room::give;
use scale_info_table_prune::prune::append_pruned;
use std::alloc::Global;

/// The table of what the ids reach.
fn pruned(alloc: Global, input: &[u8], ids: &[u32]) -> Result<Vec<u8>, CallError>
    ensures ok { IfOk result (λ table. IsPruned input.now ids.now table.items) }
    ensures err { IfErr result (IsPruneRefusal input.now ids.now) }
{
    let mut table = Vec::new(alloc);
    match append_pruned(alloc, input, ids, &mut table) {
        Ok(()) => Ok(table),
        Err(error) => Err(error_of(error)),
    }
}

/// Writes the table of what the ids reach to the start of the room, and returns how many bytes that
/// are: no more than the input has.
///
/// The ids are taken in ascending order, each once; no ids give the empty table. Entries come in
/// depth-first order of discovery.
///
/// Errors: `Malformed`, where no prefix of the input is a table; `TrailingBytes`, where bytes come
/// after the table; `NoSuchType`, for the first given id that is no index of the table; `Dangling`,
/// for the first id that is reached and is none; `Memory`, where an allocation failed; `NoRoom`,
/// where the table does not fit.
///
/// ```text
/// prune(alloc, &[8, 0, 0, 0, 2, 4, 0, 4, 0, 0, 5, 5, 0], &[1], &mut room)?
/// // 7, and the room begins with [4, 0, 0, 0, 5, 5, 0]
/// ```
pub fn prune(alloc: Global, input: &[u8], ids: &[u32], room: &mut [u8]) -> Result<usize, CallError>
    ensures ok { IfOk result (Gives (IsPruned input.now ids.now) room.old room.new) }
    ensures err { IfErr result (Refuses (IsPruned input.now ids.now)
        (IsPruneRefusal input.now ids.now) room.old) }
    ensures kept { OnErr result (room.new ≡ room.old) }
{
    let table = pruned(alloc, input, ids)?;
    give(table.as_slice(), room)
}
