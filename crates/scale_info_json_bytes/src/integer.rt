//! Integers as JSON text.
ghost use Rattle.std.specs.Prelude.{IfOk, IfErr};
ghost use Rattle.serde_json.specs.Data.{number, unsigned};
ghost use Rattle.scale_info_bytes.specs.CompactLaws.{compact_law};
ghost use Rattle.scale_info_bytes.specs.Encodings.{HasNoPrefix, HasPrefix, IfMalformed};
ghost use Rattle.scale_info_bytes.specs.IntegerLaws.{u32_law};
ghost use Rattle.scale_info_bytes.specs.Integers.{EncodesCompact, EncodesU32, EncodesU8};
ghost use Rattle.scale_info_bytes.specs.PartLaws.{through_law};

use crate::transcode::Transcode;
use json::Writer;
use scale_info_bytes::error::DecodeError;
use scale_info_bytes::integer;
use scale_info_type_ids::impls::Compact;

/// The byte at the start of the input, and the rest.
///
/// Error: `Malformed`, if there is none.
pub fn decode_u8(input: &[u8]) -> Result<(u8, &[u8]), DecodeError>
    ensures ok { IfOk result (λ found. HasPrefix (EncodesU8 found.0) input.now found.1.now) }
    ensures malformed { IfErr result (IfMalformed (HasNoPrefix EncodesU8 input.now)) }
{
    integer::decode_u8(input).ok_or(DecodeError::Malformed)
}

impl Transcode for u32 {
    ghost encodes = { EncodesU32 };

    ghost written = { λ n. number (unsigned n) };

    fn transcode<'a>(input: &'a [u8], out: &mut Writer) -> Result<&'a [u8], DecodeError> {
        let (value, rest) = integer::decode_u32(input).ok_or(DecodeError::Malformed)?;
        out.u64(value as u64)?;
        Ok(rest)
    }

    ghost law = { u32_law };
}

impl Transcode for Compact<u32> {
    ghost encodes = { λ v b. EncodesCompact v.0 b };

    ghost written = { λ v. number (unsigned v.0) };

    fn transcode<'a>(input: &'a [u8], out: &mut Writer) -> Result<&'a [u8], DecodeError> {
        let (value, rest) = integer::decode_compact(input).ok_or(DecodeError::Malformed)?;
        out.u64(value as u64)?;
        Ok(rest)
    }

    ghost law = { through_law (λ v. v.0) (λ v w e i. record { 0 = e i }) compact_law };
}
