//! Texts as bytes.
ghost use Rattle.scale_info_bytes.specs.Strings.{EncodesText};
ghost use Rattle.scale_info_bytes.specs.StringLaws.{text_law};

use crate::scale::Scale;
use scale_info_bytes::error::{DecodeError, EncodeError};
use scale_info_bytes::text::{decode_text, encode_text};
use scale_info_collections::text::Text;
use std::alloc::Global;

impl Scale for Text {
    ghost encodes = { EncodesText };

    fn encode_to(&self, out: &mut Vec<u8>) -> Result<(), EncodeError> {
        encode_text(out, self.as_str())
    }

    fn decode_from(alloc: Global, input: &[u8]) -> Result<(Text, &[u8]), DecodeError> {
        decode_text(alloc, input)
    }

    ghost law = { text_law };
}
