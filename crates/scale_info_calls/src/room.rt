//! The caller's room.
ghost use Rattle.std.specs.Prelude.{◌≡◌, IfErr, IfOk, OnErr};
ghost use Rattle.scale_info_calls.specs.Rooms.{Holds, IsShortFor};

use crate::error::CallError;

/// Writes the items to the start of the room, and returns how many they are.
///
/// Errors: `NoRoom`, where they do not fit; the room is then as before.
pub fn give<T: Copy>(items: &[T], room: &mut [T]) -> Result<usize, CallError>
    ensures ok { IfOk result (Holds items.now room.old room.new) }
    ensures err { IfErr result (IsShortFor items.now room.old) }
    ensures kept { OnErr result (room.new ≡ room.old) }
{
    let count = items.len();
    if room.len() < count {
        return Err(CallError::NoRoom(count));
    }
    room[..count].copy_from_slice(items);
    Ok(count)
}
