//! A type as Rust declares it.
ghost use Rattle.std.specs.Prelude.{◌≡◌, IfErr, IfOk, OnErr, string_bytes};
ghost use Rattle.scale_info_calls.specs.Rooms.{Gives, Refuses};
ghost use Rattle.scale_info_calls.specs.Types.{IsDeclaration, IsIdRefusal};

use crate::error::CallError;
use crate::room::give;
use crate::tables::registry_of;
use scale_info_table_describe::describe::describe as declaration_of;
use std::alloc::Global;

/// The declaration of the type with this id.
fn declaration(alloc: Global, input: &[u8], id: u32) -> Result<String, CallError>
    ensures ok { IfOk result (λ text. IsDeclaration input.now id (string_bytes text)) }
    ensures err { IfErr result (IsIdRefusal input.now id) }
{
    let registry = registry_of(alloc, input)?;
    match declaration_of(alloc, &registry, id)? {
        Some(text) => Ok(text),
        None => Err(CallError::NoSuchType(id)),
    }
}

/// Writes the type with this id to the start of the room, as Rust declares it, with its docs, and
/// returns how many bytes that are. The text is UTF-8, and has no line feed at its end.
///
/// Errors: `Malformed`, where no prefix of the input is a table; `TrailingBytes`, where bytes come
/// after the table; `NoSuchType`, where the id is no index of the table; `Memory`, where an
/// allocation failed; `NoRoom`, where the text does not fit.
///
/// ```text
/// describe(alloc, table, 3, &mut room)?   // the room begins with "enum Recursive {\n .."
/// ```
pub fn describe(alloc: Global, input: &[u8], id: u32, room: &mut [u8]) -> Result<usize, CallError>
    ensures ok { IfOk result (Gives (IsDeclaration input.now id) room.old room.new) }
    ensures err { IfErr result (Refuses (IsDeclaration input.now id)
        (IsIdRefusal input.now id) room.old) }
    ensures kept { OnErr result (room.new ≡ room.old) }
{
    let text = declaration(alloc, input, id)?;
    give(text.as_str().as_bytes(), room)
}
