//! Strings as bytes.
ghost use Rattle.std.specs.Prelude.{◌≡◌, IfOk, IfErr, IfSome, IfNone, OnOk, OnErr};
ghost use Rattle.scale_info_bytes.specs.Encodings.{AppendsEncoding, HasPrefix, IsPrefix};
ghost use Rattle.scale_info_bytes.specs.Encodings.{HasNoPrefix, HasNoEncoding, IfTooLong};
ghost use Rattle.scale_info_bytes.specs.Encodings.{IfMalformed};
ghost use Rattle.scale_info_bytes.specs.Strings.{EncodesText};

use crate::error::{DecodeError, EncodeError, truncate_on_err};
use crate::integer::{decode_compact, encode_compact};
use crate::utf8::from_utf8;
use scale_info_collections::text::Text;
use std::alloc::Global;

/// Appends the count of bytes and the bytes. Where that fails, the count may stand at the end.
fn append_text(text: &str, out: &mut Vec<u8>) -> Result<(), EncodeError>
    ensures ok { OnOk result (AppendsEncoding (EncodesText text.now) out.old.items out.new.items) }
    ensures err { OnErr result (IsPrefix out.old.items out.new.items) }
    ensures too_long { IfErr result (IfTooLong (HasNoEncoding (EncodesText text.now))) }
{
    if text.len() > 4294967295 {
        return Err(EncodeError::TooLong);
    }
    encode_compact(out, text.len() as u32)?;
    out.extend_from_slice(text.as_bytes())?;
    Ok(())
}

/// Appends a string: the count of its bytes as a compact integer, then the bytes.
///
/// Errors: `TooLong`, if the string has more than 4294967295 bytes; `Memory`, if an allocation
/// failed. On an Err the output is as before.
pub fn encode_text(out: &mut Vec<u8>, text: &str) -> Result<(), EncodeError>
    ensures ok { OnOk result (AppendsEncoding (EncodesText text.now) out.old.items out.new.items) }
    ensures err { OnErr result (out.new.items ≡ out.old.items) }
    ensures too_long { IfErr result (IfTooLong (HasNoEncoding (EncodesText text.now))) }
{
    let start = out.len();
    let written = append_text(text, out);
    truncate_on_err(out, start, written)
}

/// The string at the start of the input, which stays where it is, and the rest; None, if no prefix
/// of the input encodes a string.
#[inline(always)]
pub fn decode_str(input: &[u8]) -> Option<(&str, &[u8])>
    ensures some { IfSome result
        (λ found. HasPrefix (EncodesText found.0.now) input.now found.1.now) }
    ensures none { IfNone result (HasNoPrefix EncodesText input.now) }
{
    let Some((count, rest)) = decode_compact(input) else {
        return None;
    };
    let count = count as usize;
    if rest.len() < count {
        return None;
    }
    let (bytes, rest) = rest.split_at(count);
    match from_utf8(bytes) {
        Ok(text) => Some((text, rest)),
        Err(_) => None,
    }
}

/// A copy of the string at the start of the input, and the rest.
///
/// Errors: `Malformed`, if no prefix of the input encodes a string; `Memory`, if an allocation
/// failed.
pub fn decode_text(alloc: Global, input: &[u8]) -> Result<(Text, &[u8]), DecodeError>
    ensures ok { IfOk result (λ found. HasPrefix (EncodesText found.0) input.now found.1.now) }
    ensures malformed { IfErr result (IfMalformed (HasNoPrefix EncodesText input.now)) }
{
    match decode_str(input) {
        None => Err(DecodeError::Malformed),
        Some((text, rest)) => Ok((Text::from(String::from_str(alloc, text)?), rest)),
    }
}
