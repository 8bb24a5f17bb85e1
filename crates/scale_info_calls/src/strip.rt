//! A table without docs.
ghost use Rattle.std.specs.Prelude.{◌≡◌, IfErr, IfOk, OnErr};
ghost use Rattle.scale_info_calls.specs.Rooms.{Gives, Refuses};
ghost use Rattle.scale_info_calls.specs.WholeTables.{IsTableRefusal};
ghost use Rattle.scale_info_table_diff.specs.NamedTables.{IsWithoutDocs};

use crate::error::CallError;
use crate::pruning::error_of;
use crate::room::give;
use scale_info_table_diff::tables::without_docs;
use std::alloc::Global;

/// The table that the input is, without docs.
fn stripped(alloc: Global, input: &[u8]) -> Result<Vec<u8>, CallError>
    ensures ok { IfOk result (λ table. IsWithoutDocs input.now table.items) }
    ensures err { IfErr result (IsTableRefusal input.now) }
{
    match without_docs(alloc, input) {
        Ok(table) => Ok(table),
        Err(error) => Err(error_of(error)),
    }
}

/// Writes the table that the input is to the start of the room, with the docs of types, fields and
/// variants left out, and returns how many bytes that are: no more than the input has.
///
/// Errors: `Malformed`, where no prefix of the input is a table; `TrailingBytes`, where bytes come
/// after the table; `Memory`, where an allocation failed; `NoRoom`, where the table does not fit.
///
/// ```text
/// strip(alloc, &[4, 0, 0, 0, 5, 5, 4, 4, 97], &mut room)?   // the docs of u32 are "a"
/// // 7, and the room begins with [4, 0, 0, 0, 5, 5, 0]
/// ```
pub fn strip(alloc: Global, input: &[u8], room: &mut [u8]) -> Result<usize, CallError>
    ensures ok { IfOk result (Gives (IsWithoutDocs input.now) room.old room.new) }
    ensures err { IfErr result
        (Refuses (IsWithoutDocs input.now) (IsTableRefusal input.now) room.old) }
    ensures kept { OnErr result (room.new ≡ room.old) }
{
    let table = stripped(alloc, input)?;
    give(table.as_slice(), room)
}
