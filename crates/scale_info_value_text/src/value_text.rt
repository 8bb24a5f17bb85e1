//! The text of a value.
ghost use Rattle.std.specs.Prelude.{◌≡◌, IfOk, IfErr, OnOk, OnErr, string_bytes, drop, length};
ghost use Rattle.std.specs.Str.{IsUtf8};
ghost use Rattle.scale_info_value.specs.Outcomes.{IsErrorOf};
ghost use Rattle.scale_info_value.specs.Readings.{reading};
ghost use Rattle.scale_info_value_text.specs.ValueTexts.{AppendsText, IsTextOf, IsTextErrorOf};
ghost use Rattle.scale_info_value_text.specs.ValueTexts.{error_by};

use crate::writer::TextWriter;
use json::Writer;
use scale_info_value::definition::Definitions;
use scale_info_value::value::ValueError;
use scale_info_value_visit::visit::visit_value;
use scale_info_value_visit::visitor::VisitError;
use std::alloc::{AllocError, Global};
use std::mem;
use thiserror::Error;

/// Why bytes have no text as a value.
#[derive(Debug, Drop, PartialEq, Eq, Error)]
pub enum ValueTextError {
    /// They do not begin with a value of the type, or an allocation failed.
    #[error("{0}")]
    Value(ValueError),
    /// Bytes are left after the value.
    #[error("there are bytes after the value")]
    Trailing,
}

/// The error of a visit as that of decoding.
fn value_error(error: VisitError<AllocError>) -> ValueError
    ensures { result ≡ error_by error }
{
    match error {
        VisitError::Failed(why) => why.into(),
        VisitError::Stopped(_) => ValueError::Memory,
    }
}

/// Appends the JSON text of one value of the type with this id, which is at the start of the input,
/// and returns the rest. No value is made: only the output grows, and the digits of bytes are made
/// before they are written.
///
/// The text goes by the type (`docs/FORMATS.md` has it byte by byte): integers up to 2^53 - 1 are
/// numbers and others strings of their digits, bytes are a string of `0x` and hexadecimal digits.
///
/// `table` is what it is to `decode_value`: a `PortableRegistry`, or what is loaded of one.
///
/// Errors: those of `decode_value`. The output is then as it was.
///
/// With a table that has `Vec<u32>` at index 0:
///
/// ```text
/// let rest = append_value_json(alloc, &table, 0, &[8, 1, 0, 0, 0, 2, 0, 0, 0, 255], &mut out)?;
/// // rest is [255], and out has grown by "[1,2]"
/// ```
pub fn append_value_json<'i, T: Definitions>(
    alloc: Global,
    table: &T,
    id: u32,
    input: &'i [u8],
    out: &mut Vec<u8>,
) -> Result<&'i [u8], ValueError>
    ensures ok { IfOk result (λ rest. AppendsText (T.table table.now) id
        (reading (T.table table.now) id 1 input.now) rest.now out.old.items out.new.items) }
    ensures err { IfErr result (IsErrorOf (reading (T.table table.now) id 1 input.now)) }
    ensures utf8 { OnOk result (IsUtf8 (drop (length out.old.items) out.new.items)) }
    ensures keeps { OnErr result (out.new.items ≡ out.old.items) }
{
    let start = out.len();
    let mut writer = TextWriter {
        alloc,
        out: Writer::new(mem::replace(out, Vec::new(alloc))),
    };
    let visited = visit_value(table, id, input, &mut writer);
    *out = writer.into_bytes();
    match visited {
        Ok(rest) => Ok(rest),
        Err(error) => {
            out.truncate(start);
            Err(value_error(error))
        }
    }
}

/// The JSON text of the bytes as one value of the type with this id, as `append_value_json` writes
/// it.
///
/// Errors: `Value`, with those of `decode_value`; `Trailing`, if bytes are left after the value.
pub fn value_json<T: Definitions>(
    alloc: Global,
    table: &T,
    id: u32,
    input: &[u8],
) -> Result<String, ValueTextError>
    ensures ok { IfOk result (λ text. IsTextOf (T.table table.now) id
        (reading (T.table table.now) id 1 input.now) (string_bytes text)) }
    ensures err { IfErr result (IsTextErrorOf (reading (T.table table.now) id 1 input.now)) }
{
    let mut out = Vec::new(alloc);
    match append_value_json(alloc, table, id, input, &mut out) {
        Err(error) => Err(ValueTextError::Value(error)),
        Ok(rest) if !rest.is_empty() => Err(ValueTextError::Trailing),
        Ok(_) => Ok(text_of(out)),
    }
}

/// The string that bytes are.
fn text_of(bytes: Vec<u8>) -> String
    requires { IsUtf8 bytes.items }
    ensures { string_bytes result ≡ bytes.items }
{
    String::from_utf8(bytes).unwrap()
}
