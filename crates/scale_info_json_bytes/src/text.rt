//! Strings that stay where they are in the input.
ghost use Rattle.std.specs.Prelude.{option_map, IfOk, IfErr};
ghost use Rattle.serde_json.specs.Data.{string};
ghost use Rattle.scale_info_bytes.specs.Encodings.{HasNoPrefix, HasPrefix, IfMalformed};
ghost use Rattle.scale_info_bytes.specs.Parts.{EncodesOption};
ghost use Rattle.scale_info_bytes.specs.StringLaws.{text_law};
ghost use Rattle.scale_info_bytes.specs.Strings.{EncodesText};

use crate::transcode::Transcode;
use json::Writer;
use scale_info_bytes::error::DecodeError;
use scale_info_bytes::text;
use scale_info_collections::text::Text;

/// The string at the start of the input, and the rest.
///
/// Error: `Malformed`, if no prefix of the input encodes a string.
pub fn decode_str(input: &[u8]) -> Result<(&str, &[u8]), DecodeError>
    ensures ok { IfOk result (λ found. HasPrefix (EncodesText found.0.now) input.now found.1.now) }
    ensures malformed { IfErr result (IfMalformed (HasNoPrefix EncodesText input.now)) }
{
    text::decode_str(input).ok_or(DecodeError::Malformed)
}

/// The string that may be missing at the start of the input, and the rest.
///
/// Error: `Malformed`, if no prefix of the input encodes an option of a string.
pub fn decode_optional_str(input: &[u8]) -> Result<(Option<&str>, &[u8]), DecodeError>
    ensures ok { IfOk result (λ found. HasPrefix
        (EncodesOption EncodesText (option_map (λ text. text.now) found.0))
        input.now found.1.now) }
    ensures malformed { IfErr result
        (IfMalformed (HasNoPrefix (EncodesOption EncodesText) input.now)) }
{
    match input {
        [0, rest @ ..] => Ok((None, rest)),
        [1, rest @ ..] => {
            let (text, rest) = decode_str(rest)?;
            Ok((Some(text), rest))
        }
        _ => Err(DecodeError::Malformed),
    }
}

impl Transcode for Text {
    ghost encodes = { EncodesText };

    ghost written = { string };

    fn transcode<'a>(input: &'a [u8], out: &mut Writer) -> Result<&'a [u8], DecodeError> {
        let (text, rest) = decode_str(input)?;
        out.string(text)?;
        Ok(rest)
    }

    ghost law = { text_law };
}
