//! The JSON text of a value.
ghost use Rattle.std.specs.Prelude.{◌≡◌, IfErr, IfOk, OnErr, string_bytes};
ghost use Rattle.scale_info_calls.specs.Rooms.{Gives, Refuses};
ghost use Rattle.scale_info_calls.specs.Values.{IsReadingRefusal, IsValueRefusal, IsValueText};
ghost use Rattle.scale_info_value.specs.Outcomes.{Outcome};
ghost use Rattle.scale_info_value.specs.declared.value.Value.{Value as AnyValue};
ghost use Rattle.scale_info_value_text.specs.ValueTexts.{IsTextErrorOf};

use crate::error::CallError;
use crate::room::give;
use crate::tables::registry_of;
use scale_info_value::value::ValueError;
use scale_info_value_text::value_text::{ValueTextError, value_json};
use std::alloc::Global;

/// The error of a call for one of reading a value of the type with this id.
fn error_of(id: u32, error: ValueTextError) -> CallError
    ensures { (outcome : Outcome AnyValue) → IsTextErrorOf outcome error
        → IsReadingRefusal outcome id result }
{
    match error {
        ValueTextError::Value(ValueError::NoSuchType) => CallError::NoSuchType(id),
        ValueTextError::Value(ValueError::Unsupported) => CallError::Unsupported,
        ValueTextError::Value(ValueError::TooDeep) => CallError::TooDeep,
        ValueTextError::Value(ValueError::Malformed) => CallError::MalformedValue,
        ValueTextError::Value(ValueError::Memory) => CallError::Memory,
        ValueTextError::Trailing => CallError::TrailingValue,
    }
}

/// The JSON text of the bytes as one value of the type with this id.
fn text_of(alloc: Global, input: &[u8], id: u32, value: &[u8]) -> Result<String, CallError>
    ensures ok { IfOk result (λ text. IsValueText input.now id value.now (string_bytes text)) }
    ensures err { IfErr result (IsValueRefusal input.now id value.now) }
{
    let registry = registry_of(alloc, input)?;
    match value_json(alloc, &registry, id, value) {
        Ok(text) => Ok(text),
        Err(error) => Err(error_of(id, error)),
    }
}

/// Writes the JSON text of the bytes, as one value of the type with this id, to the start of the
/// room, and returns how many bytes that are. The text is UTF-8, compact, and has no line feed at
/// its end.
///
/// The text goes by the type: integers up to 2^53 - 1 are numbers and others strings of their
/// digits, bytes are a string of `0x` and hexadecimal digits. A table may ask for much text from few
/// bytes, as for 4294967295 values of a type without bytes.
///
/// Errors: `Malformed`, where no prefix of the input is a table; `TrailingBytes`, where bytes come
/// after the table; `NoSuchType` with this id, where it is no index of the table, or the value leads
/// to a type whose id is none; `Unsupported`, where values of a type are not read; `TooDeep`, where
/// the value is more than 128 deep; `MalformedValue`, where no prefix of the bytes is a value of the
/// type; `TrailingValue`, where bytes come after it; `Memory`, where an allocation failed;
/// `NoRoom`, where the text does not fit.
///
/// ```text
/// value(alloc, table, 0, &[8, 1, 0, 0, 0, 2, 0, 0, 0], &mut room)?   // of Vec<u32>
/// // 5, and the room begins with [1,2]
/// ```
pub fn value(
    alloc: Global,
    input: &[u8],
    id: u32,
    value: &[u8],
    room: &mut [u8],
) -> Result<usize, CallError>
    ensures ok { IfOk result (Gives (IsValueText input.now id value.now) room.old room.new) }
    ensures err { IfErr result (Refuses (IsValueText input.now id value.now)
        (IsValueRefusal input.now id value.now) room.old) }
    ensures kept { OnErr result (room.new ≡ room.old) }
{
    let text = text_of(alloc, input, id, value)?;
    give(text.as_str().as_bytes(), room)
}
