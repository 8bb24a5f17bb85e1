//! Integers as bytes.
ghost use Rattle.scale_info_bytes.specs.Integers.{EncodesU8, EncodesU32, EncodesCompact};
ghost use Rattle.scale_info_bytes.specs.IntegerLaws.{u8_law, u32_law};
ghost use Rattle.scale_info_bytes.specs.CompactLaws.{compact_law};
ghost use Rattle.scale_info_bytes.specs.PartLaws.{through_law};

use crate::scale::Scale;
use scale_info_bytes::error::{DecodeError, EncodeError};
use scale_info_bytes::integer::{decode_compact, decode_u8, decode_u32, encode_compact};
use scale_info_type_ids::impls::Compact;
use std::alloc::Global;

impl Scale for u8 {
    ghost encodes = { EncodesU8 };

    fn encode_to(&self, out: &mut Vec<u8>) -> Result<(), EncodeError> {
        let byte = *self;
        out.push(byte)?;
        Ok(())
    }

    fn decode_from(_alloc: Global, input: &[u8]) -> Result<(u8, &[u8]), DecodeError> {
        decode_u8(input).ok_or(DecodeError::Malformed)
    }

    ghost law = { u8_law };
}

impl Scale for u32 {
    ghost encodes = { EncodesU32 };

    fn encode_to(&self, out: &mut Vec<u8>) -> Result<(), EncodeError> {
        let integer = *self;
        out.extend_from_slice(&integer.to_le_bytes())?;
        Ok(())
    }

    fn decode_from(_alloc: Global, input: &[u8]) -> Result<(u32, &[u8]), DecodeError> {
        decode_u32(input).ok_or(DecodeError::Malformed)
    }

    ghost law = { u32_law };
}

impl Scale for Compact<u32> {
    ghost encodes = { λ v b. EncodesCompact v.0 b };

    fn encode_to(&self, out: &mut Vec<u8>) -> Result<(), EncodeError> {
        encode_compact(out, self.0)?;
        Ok(())
    }

    fn decode_from(_alloc: Global, input: &[u8]) -> Result<(Compact<u32>, &[u8]), DecodeError> {
        match decode_compact(input) {
            Some((integer, rest)) => Ok((Compact(integer), rest)),
            None => Err(DecodeError::Malformed),
        }
    }

    ghost law = { through_law (λ v. v.0) (λ v w e i. record { 0 = e i }) compact_law };
}
