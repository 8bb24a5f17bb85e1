//! The JSON text of a table's bytes.
ghost use Rattle.std.specs.Prelude.{IfErr, IfOk};
ghost use Rattle.scale_info_bytes.specs.Encodings.{HasNoPrefix, IfMalformed};
ghost use Rattle.scale_info_grammar.specs.Ty.{EncodesTypes};
ghost use Rattle.type_table_run.specs.Outputs.{BeginsWithJson, IsJsonOf};
ghost use Rattle.type_table_run.specs.OneTable.{IsCheckError};

use scale_info_bytes::error::DecodeError;
use scale_info_json_bytes::append_json_of;
use std::alloc::Global;
use type_table_io::error::RunError;

/// The JSON text of the table that the input begins with, and a line feed; and the rest.
fn json_line_of(alloc: Global, input: &[u8]) -> Result<(Vec<u8>, &[u8]), DecodeError>
    ensures ok { IfOk result (λ found. BeginsWithJson input.now found.1.now found.0.items) }
    ensures malformed { IfErr result (IfMalformed (HasNoPrefix EncodesTypes input.now)) }
{
    // The text of a table is longer than its encoding, mostly by half or more.
    let text = Vec::with_capacity(alloc, input.len().saturating_mul(2))?;
    let (mut text, rest) = append_json_of(alloc, input, text)?;
    text.push(b'\n')?;
    Ok((text, rest))
}

/// The JSON text of the table that the input is, and a line feed. No entry of the table is made.
///
/// Errors: `Malformed`, if no prefix of the input is a table; `TrailingBytes`, if bytes come after
/// the table; `Memory`, if an allocation failed.
pub fn json_of(alloc: Global, input: &[u8]) -> Result<Vec<u8>, RunError>
    ensures ok { IfOk result (λ line. IsJsonOf input.now line.items) }
    ensures err { IfErr result (IsCheckError input.now) }
{
    match json_line_of(alloc, input) {
        Ok((line, rest)) => {
            if !rest.is_empty() {
                return Err(RunError::TrailingBytes);
            }
            Ok(line)
        }
        Err(DecodeError::Malformed) => Err(RunError::Malformed),
        Err(DecodeError::Memory) => Err(RunError::Memory),
    }
}
