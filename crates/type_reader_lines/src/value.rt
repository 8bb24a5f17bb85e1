//! Values as lines of JSON text.
ghost use Rattle.std.specs.Prelude.{◌≡◌, ◌++◌, List, ℕ, IfErr, OnErr, OnOk};
ghost use Rattle.scale_info_value.specs.Outcomes.{IsErrorOf, Outcome};
ghost use Rattle.scale_info_value.specs.Readings.{reading};
ghost use Rattle.scale_info_value.specs.declared.value.Value.{Value as AnyValue};
ghost use Rattle.scale_info_value_text.specs.ValueTexts.{IsTextOf};
ghost use Rattle.type_reader_lines.specs.Conversions.{AppendsLine};
ghost use Rattle.type_reader_lines.specs.Values.{IsReadingError, IsValueError, IsValueLine};

use scale_info_hexadecimal::digits::Digits;
use scale_info_table::portable::PortableRegistry;
use scale_info_value::value::ValueError;
use scale_info_value_text::value_text::append_value_json;
use std::alloc::Global;
use type_reader_io::error::{LineError, ValueFault};

/// The error of a line for one of decoding a value.
fn error_of(error: ValueError) -> LineError
    ensures { (outcome : Outcome AnyValue) → IsErrorOf outcome error
        → IsReadingError outcome result }
{
    let fault = match error {
        ValueError::Memory => return LineError::Memory,
        ValueError::NoSuchType => ValueFault::NoSuchType,
        ValueError::Unsupported => ValueFault::Unsupported,
        ValueError::TooDeep => ValueFault::TooDeep,
        ValueError::Malformed => ValueFault::Malformed,
    };
    LineError::Fault(fault)
}

/// Appends the JSON text of the bytes as one value of this type.
///
/// Errors: `Fault`, where the bytes are no value of the type, or more than one; `Memory`, if an
/// allocation failed. The output is then as it was.
fn append_text(
    alloc: Global,
    table: &PortableRegistry,
    id: u32,
    bytes: &[u8],
    output: &mut Vec<u8>,
) -> Result<(), LineError>
    ensures ok { OnOk result ((text : List ℕ)
        × IsTextOf table.now id (reading table.now id 1 bytes.now) text
        × (output.new.items ≡ output.old.items ++ text)) }
    ensures err { IfErr result (IsReadingError (reading table.now id 1 bytes.now)) }
    ensures keeps { OnErr result (output.new.items ≡ output.old.items) }
{
    let start = output.len();
    match append_value_json(alloc, table, id, bytes, output) {
        Ok(rest) if rest.is_empty() => Ok(()),
        Ok(_) => {
            output.truncate(start);
            Err(LineError::Fault(ValueFault::TrailingBytes))
        }
        Err(error) => Err(error_of(error)),
    }
}

/// Appends the JSON text of the value of this type that the digits write, and a line feed.
///
/// Errors: `Fault`, where the digits write no value of the type, with nothing after it; `Memory`,
/// if an allocation failed. The output is then as it was.
pub fn append_value_line(
    alloc: Global,
    table: &PortableRegistry,
    id: u32,
    text: &[u8],
    digits: &mut Digits,
    output: &mut Vec<u8>,
) -> Result<(), LineError>
    ensures ok { OnOk result (AppendsLine (IsValueLine table.now id text.now)
        output.old.items output.new.items) }
    ensures err { IfErr result (IsValueError table.now id text.now) }
    ensures keeps { OnErr result (output.new.items ≡ output.old.items) }
{
    if !digits.decode(text)? {
        return Err(LineError::Fault(ValueFault::NoDigits));
    }
    let start = output.len();
    append_text(alloc, table, id, &digits.bytes, output)?;
    if output.push(b'\n').is_err() {
        output.truncate(start);
        return Err(LineError::Memory);
    }
    Ok(())
}
