//! The JSON text of a table.
ghost use Rattle.std.specs.Prelude.{◌≡◌, IfErr, IfOk, OnErr};
ghost use Rattle.scale_info_calls.specs.Rooms.{Gives, Refuses};
ghost use Rattle.scale_info_calls.specs.WholeTables.{IsJsonOf, IsTableRefusal};

use crate::error::CallError;
use crate::room::give;
use scale_info_bytes::error::DecodeError;
use scale_info_json_bytes::append_json_of;
use std::alloc::Global;

/// The JSON text of the table that the input is.
fn json_of(alloc: Global, input: &[u8]) -> Result<Vec<u8>, CallError>
    ensures ok { IfOk result (λ text. IsJsonOf input.now text.items) }
    ensures err { IfErr result (IsTableRefusal input.now) }
{
    // The text of a table is longer than its encoding, mostly by half or more.
    let text = Vec::with_capacity(alloc, input.len().saturating_mul(2))?;
    match append_json_of(alloc, input, text) {
        Ok((text, rest)) => {
            if !rest.is_empty() {
                return Err(CallError::TrailingBytes);
            }
            Ok(text)
        }
        Err(DecodeError::Malformed) => Err(CallError::Malformed),
        Err(DecodeError::Memory) => Err(CallError::Memory),
    }
}

/// Writes the JSON text of the table that the input is to the start of the room, and returns how
/// many bytes that are. No entry of the table is made.
///
/// The text is UTF-8, compact, and has no line feed at its end.
///
/// Errors: `Malformed`, where no prefix of the input is a table; `TrailingBytes`, where bytes come
/// after the table; `Memory`, where an allocation failed; `NoRoom`, where the text does not fit.
///
/// ```text
/// json(alloc, &[4, 0, 0, 0, 5, 5, 0], &mut room)?
/// // 56, and the room begins with {"types":[{"id":0,"type":{"def":{"primitive":"u32"}}}]}
/// ```
pub fn json(alloc: Global, input: &[u8], room: &mut [u8]) -> Result<usize, CallError>
    ensures ok { IfOk result (Gives (IsJsonOf input.now) room.old room.new) }
    ensures err { IfErr result
        (Refuses (IsJsonOf input.now) (IsTableRefusal input.now) room.old) }
    ensures kept { OnErr result (room.new ≡ room.old) }
{
    let text = json_of(alloc, input)?;
    give(text.as_slice(), room)
}
