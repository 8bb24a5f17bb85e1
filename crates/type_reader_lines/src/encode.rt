//! Values from JSON text, as lines of hexadecimal digits.
ghost use Rattle.std.specs.Prelude.{◌≡◌, ◌++◌, IfOk, IfErr, OnErr, OnOk, codes};
ghost use Rattle.hex.specs.Hex.{encode_lower};
ghost use Rattle.serde_json.specs.View.{view};
ghost use Rattle.scale_info_value_encode.specs.Writers.{written};
ghost use Rattle.scale_info_value_encode.specs.Writings.{writing};
ghost use Rattle.scale_info_value.specs.declared.value.Value.{Value as AnyValue};
ghost use Rattle.scale_info_value_json.specs.Takers.{IsErrorOf, Taken};
ghost use Rattle.type_reader_io.specs.declared.error.LineError.TheVariants as line_error;
ghost use Rattle.type_reader_lines.specs.Conversions.{AppendsLine};
ghost use Rattle.type_reader_lines.specs.Encodings.{IsEncodedLine, IsEncodingError, IsJsonOf};
ghost use Rattle.type_reader_lines.specs.Encodings.{IsTakingError, IsTreeError};

use scale_info_hexadecimal::encode::encode;
use scale_info_table::portable::PortableRegistry;
use scale_info_value::value::Value;
use scale_info_value_encode::encode::encode_value;
use scale_info_value_json::error::ValueJsonError;
use scale_info_value_json::take::from_json;
use std::alloc::{AllocError, Global};
use std::str;
use type_reader_io::error::{LineError, ValueFault};

/// The tree of a JSON text.
///
/// Errors: `Fault(NoJson)`, where the bytes are no JSON; `Memory`, if an allocation failed.
fn tree_of(alloc: Global, json: &[u8]) -> Result<serde_json::Value, LineError>
    ensures ok { IfOk result (λ tree. IsJsonOf (view tree) json.now) }
    ensures err { IfErr result (IsTreeError json.now) }
{
    let Ok(text) = str::from_utf8(json) else {
        return Err(LineError::Fault(ValueFault::NoJson));
    };
    match serde_json::Value::from_str(alloc, text) {
        Ok(tree) => Ok(tree),
        Err(error) if error.is_memory() => Err(LineError::Memory),
        Err(_) => Err(LineError::Fault(ValueFault::NoJson)),
    }
}

/// The error of a line for one of taking a value from a tree.
fn error_of(error: ValueJsonError) -> LineError
    ensures { (outcome : Taken AnyValue) → IsErrorOf outcome error
        → IsTakingError outcome result }
{
    let fault = match error {
        ValueJsonError::Memory => return LineError::Memory,
        ValueJsonError::NoSuchType => ValueFault::NoSuchType,
        ValueJsonError::Unsupported => ValueFault::Unsupported,
        ValueJsonError::TooDeep => ValueFault::TooDeep,
        ValueJsonError::Mismatch => ValueFault::Mismatch,
    };
    LineError::Fault(fault)
}

/// The encoding of a value that was taken from a tree.
///
/// Errors: `Memory`, if an allocation failed. Those that never come, as such a value has an
/// encoding, are as that of an allocation.
fn encoding_of(
    alloc: Global,
    table: &PortableRegistry,
    id: u32,
    value: &Value,
) -> Result<Vec<u8>, LineError>
    ensures ok { IfOk result (λ bytes. writing table.now id 1 value.now ≡ written bytes.items) }
    ensures err { IfErr result (λ e. e ≡ line_error.Memory) }
{
    let mut bytes = Vec::new(alloc);
    match encode_value(table, id, value, &mut bytes) {
        Ok(()) => Ok(bytes),
        Err(_) => Err(LineError::Memory),
    }
}

/// `0x`, the bytes in hexadecimal digits, and a line feed.
fn digits_line(alloc: Global, bytes: &[u8]) -> Result<Vec<u8>, AllocError>
    ensures { IfOk result
        (λ line. line.items ≡ codes "0x" ++ encode_lower bytes.now ++ codes "\n") }
{
    let mut line = encode(alloc, bytes)?;
    line.push_str("\n")?;
    Ok(line.into_bytes())
}

/// The encoding of the value of this type that the JSON text gives, as a line of hexadecimal
/// digits.
///
/// Errors: `Fault`, where the text is no JSON, or gives no value of the type; `Memory`, if an
/// allocation failed.
fn encoded_line(
    alloc: Global,
    table: &PortableRegistry,
    id: u32,
    json: &[u8],
) -> Result<Vec<u8>, LineError>
    ensures ok { IfOk result (λ line. IsEncodedLine table.now id json.now line.items) }
    ensures err { IfErr result (IsEncodingError table.now id json.now) }
{
    let tree = tree_of(alloc, json)?;
    match from_json(alloc, table, id, &tree) {
        Ok(value) => {
            let bytes = encoding_of(alloc, table, id, &value)?;
            Ok(digits_line(alloc, &bytes)?)
        }
        Err(error) => Err(error_of(error)),
    }
}

/// Appends the line that [`encoded_line`] gives.
///
/// Errors: as [`encoded_line`]. The output is then as it was.
pub fn append_encoded_line(
    alloc: Global,
    table: &PortableRegistry,
    id: u32,
    json: &[u8],
    output: &mut Vec<u8>,
) -> Result<(), LineError>
    ensures ok { OnOk result (AppendsLine (IsEncodedLine table.now id json.now)
        output.old.items output.new.items) }
    ensures err { IfErr result (IsEncodingError table.now id json.now) }
    ensures keeps { OnErr result (output.new.items ≡ output.old.items) }
{
    let line = encoded_line(alloc, table, id, json)?;
    output.extend_from_slice(&line)?;
    Ok(())
}
