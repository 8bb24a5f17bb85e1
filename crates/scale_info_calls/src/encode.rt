//! A value from JSON text.
ghost use Rattle.std.specs.Prelude.{◌≡◌, IfErr, IfOk, OnErr};
ghost use Rattle.serde_json.specs.View.{view};
ghost use Rattle.scale_info_calls.specs.Encodings.{IsEncodeRefusal, IsEncoded, IsJson};
ghost use Rattle.scale_info_calls.specs.Encodings.{IsTakingRefusal, IsTreeRefusal};
ghost use Rattle.scale_info_calls.specs.declared.error.CallError.TheVariants as call_error;
ghost use Rattle.scale_info_calls.specs.Rooms.{Gives, Refuses};
ghost use Rattle.scale_info_value_encode.specs.Writers.{written};
ghost use Rattle.scale_info_value_encode.specs.Writings.{writing};
ghost use Rattle.scale_info_value.specs.declared.value.Value.{Value as AnyValue};
ghost use Rattle.scale_info_value_json.specs.Takers.{IsErrorOf, Taken};

use crate::error::CallError;
use crate::room::give;
use crate::tables::registry_of;
use scale_info_table::portable::PortableRegistry;
use scale_info_value::value::Value;
use scale_info_value_encode::encode::encode_value;
use scale_info_value_json::error::ValueJsonError;
use scale_info_value_json::take::from_json;
use std::alloc::Global;
use std::str;

/// The tree of a JSON text.
fn tree_of(alloc: Global, json: &[u8]) -> Result<serde_json::Value, CallError>
    ensures ok { IfOk result (λ tree. IsJson (view tree) json.now) }
    ensures err { IfErr result (IsTreeRefusal json.now) }
{
    let Ok(text) = str::from_utf8(json) else {
        return Err(CallError::NoJson);
    };
    match serde_json::Value::from_str(alloc, text) {
        Ok(tree) => Ok(tree),
        Err(error) if error.is_memory() => Err(CallError::Memory),
        Err(_) => Err(CallError::NoJson),
    }
}

/// The error of a call for one of taking a value of the type with this id from a tree.
fn error_of(id: u32, error: ValueJsonError) -> CallError
    ensures { (outcome : Taken AnyValue) → IsErrorOf outcome error
        → IsTakingRefusal outcome id result }
{
    match error {
        ValueJsonError::Memory => CallError::Memory,
        ValueJsonError::NoSuchType => CallError::NoSuchType(id),
        ValueJsonError::Unsupported => CallError::Unsupported,
        ValueJsonError::TooDeep => CallError::TooDeep,
        ValueJsonError::Mismatch => CallError::Mismatch,
    }
}

/// The encoding of a value that was taken from a tree.
///
/// Errors: `Memory`, if an allocation failed. Those that never come, as such a value has an
/// encoding, are as that of an allocation.
fn encoding_of(
    alloc: Global,
    table: &PortableRegistry,
    id: u32,
    value: &Value,
) -> Result<Vec<u8>, CallError>
    ensures ok { IfOk result (λ bytes. writing table.now id 1 value.now ≡ written bytes.items) }
    ensures err { IfErr result (λ e. e ≡ call_error.Memory) }
{
    let mut bytes = Vec::new(alloc);
    match encode_value(table, id, value, &mut bytes) {
        Ok(()) => Ok(bytes),
        Err(_) => Err(CallError::Memory),
    }
}

/// The encoding of the value of the type with this id that the JSON text gives.
fn encoded(alloc: Global, input: &[u8], id: u32, json: &[u8]) -> Result<Vec<u8>, CallError>
    ensures ok { IfOk result (λ bytes. IsEncoded input.now id json.now bytes.items) }
    ensures err { IfErr result (IsEncodeRefusal input.now id json.now) }
{
    let tree = tree_of(alloc, json)?;
    let registry = registry_of(alloc, input)?;
    match from_json(alloc, &registry, id, &tree) {
        Ok(value) => encoding_of(alloc, &registry, id, &value),
        Err(error) => Err(error_of(id, error)),
    }
}

/// Writes the SCALE encoding of the value of the type with this id that the JSON text gives to the
/// start of the room, and returns how many bytes that are.
///
/// The text is as `value` writes it, and forms that people write are taken too, as numbers of more
/// than 2^53 - 1, and bytes as an array.
///
/// Errors: `NoJson`, where the text is no JSON, or not UTF-8; `Malformed`, where no prefix of the
/// input is a table; `TrailingBytes`, where bytes come after the table; `NoSuchType` with this id,
/// where it is no index of the table, or the text leads to a type whose id is none; `Unsupported`,
/// where values of a type are not written; `TooDeep`, where the value is more than 128 deep;
/// `Mismatch`, where the text gives no value of the type; `Memory`, where an allocation failed;
/// `NoRoom`, where the encoding does not fit.
///
/// ```text
/// encode(alloc, table, 0, b"[1,2]", &mut room)?   // of Vec<u32>
/// // 9, and the room begins with [8, 1, 0, 0, 0, 2, 0, 0, 0]
/// ```
pub fn encode(
    alloc: Global,
    input: &[u8],
    id: u32,
    json: &[u8],
    room: &mut [u8],
) -> Result<usize, CallError>
    ensures ok { IfOk result (Gives (IsEncoded input.now id json.now) room.old room.new) }
    ensures err { IfErr result (Refuses (IsEncoded input.now id json.now)
        (IsEncodeRefusal input.now id json.now) room.old) }
    ensures kept { OnErr result (room.new ≡ room.old) }
{
    let bytes = encoded(alloc, input, id, json)?;
    give(bytes.as_slice(), room)
}
