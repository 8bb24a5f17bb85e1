//! Types by their paths.
ghost use Rattle.std.specs.Prelude.{◌≡◌, IfErr, IfOk, OnErr};
ghost use Rattle.scale_info_calls.specs.Rooms.{Gives, Refuses};
ghost use Rattle.scale_info_calls.specs.Types.{AreFound, IsFindRefusal};

use crate::error::CallError;
use crate::room::give;
use crate::tables::registry_of;
use scale_info_table_describe::search::find_by_path;
use std::alloc::Global;
use std::str;

/// The ids of the types with this path.
fn found(alloc: Global, input: &[u8], path: &[u8]) -> Result<Vec<u32>, CallError>
    ensures ok { IfOk result (λ ids. AreFound input.now path.now ids.items) }
    ensures err { IfErr result (IsFindRefusal input.now path.now) }
{
    let Ok(path) = str::from_utf8(path) else {
        return Err(CallError::NoText);
    };
    let registry = registry_of(alloc, input)?;
    Ok(find_by_path(alloc, &registry, path)?)
}

/// Writes the ids, ascending, of the types with this path to the start of the room, and returns how
/// many ids that are: 0, where no type has it. A path may be that of several types.
///
/// The path is UTF-8, its segments with `::` between them. An id is an index of the table.
///
/// Errors: `NoText`, where the path is not UTF-8; `Malformed`, where no prefix of the input is a
/// table; `TrailingBytes`, where bytes come after the table; `Memory`, where an allocation failed;
/// `NoRoom`, where the ids do not fit.
///
/// ```text
/// find(alloc, table, b"sp_core::crypto::AccountId32", &mut room)?   // 1, and room[0] is the id
/// ```
pub fn find(alloc: Global, input: &[u8], path: &[u8], room: &mut [u32]) -> Result<usize, CallError>
    ensures ok { IfOk result (Gives (AreFound input.now path.now) room.old room.new) }
    ensures err { IfErr result (Refuses (AreFound input.now path.now)
        (IsFindRefusal input.now path.now) room.old) }
    ensures kept { OnErr result (room.new ≡ room.old) }
{
    let ids = found(alloc, input, path)?;
    give(ids.as_slice(), room)
}
