//! The table in a node's metadata.
ghost use Rattle.std.specs.Prelude.{◌≡◌, IfErr, IfOk, OnErr};
ghost use Rattle.scale_info_calls.specs.FoundTables.{HasTable, IsMetadataRefusal, error_of};
ghost use Rattle.scale_info_calls.specs.FoundTables.{HasNoTable, input_bytes};
ghost use Rattle.scale_info_calls.specs.Rooms.{Gives, Refuses};

use crate::error::CallError;
use crate::room::give;
use scale_info_table_metadata::hexadecimal::bytes_of_text;
use scale_info_table_metadata::metadata::{MetadataError, table_of};
use std::alloc::Global;

/// The error of a call for one of finding a table.
fn error_of(error: MetadataError) -> CallError
    ensures { result ≡ error_of error }
{
    match error {
        MetadataError::Version(version) => CallError::Version(version),
        MetadataError::Malformed => CallError::Malformed,
        MetadataError::Trailing => CallError::TrailingBytes,
    }
}

/// Writes the table of bytes to the start of the room, and returns how many bytes that are.
fn table_in(bytes: &[u8], room: &mut [u8]) -> Result<usize, CallError>
    ensures ok { IfOk result (Gives (HasTable bytes.now) room.old room.new) }
    ensures err { IfErr result (Refuses (HasTable bytes.now) (HasNoTable bytes.now) room.old) }
    ensures kept { OnErr result (room.new ≡ room.old) }
{
    match table_of(bytes) {
        Ok((_, table)) => give(table, room),
        Err(error) => Err(error_of(error)),
    }
}

/// Writes the table that the input has to the start of the room, and returns how many bytes that
/// are: no more than the input has.
///
/// The input is a node's metadata of version 14, 15 or 16, also in the byte strings that runtimes
/// return, or a table and nothing else; or a text that writes such bytes in hexadecimal digits, as a
/// node returns it over HTTP.
///
/// Errors: `Malformed`, where there is no table in the input; `TrailingBytes`, where it is no
/// metadata and more comes after its table; `Version`, where it is metadata of another version;
/// `Memory`, where an allocation failed; `NoRoom`, where the table does not fit.
///
/// ```text
/// table(alloc, b"0x04000000050500", &mut room)?
/// // 7, and the room begins with [4, 0, 0, 0, 5, 5, 0]
/// ```
pub fn table(alloc: Global, input: &[u8], room: &mut [u8]) -> Result<usize, CallError>
    ensures ok { IfOk result (Gives (HasTable (input_bytes input.now)) room.old room.new) }
    ensures err { IfErr result (Refuses (HasTable (input_bytes input.now))
        (IsMetadataRefusal input.now) room.old) }
    ensures kept { OnErr result (room.new ≡ room.old) }
{
    match bytes_of_text(alloc, input)? {
        Some(bytes) => table_in(bytes.as_slice(), room),
        None => table_in(input, room),
    }
}
