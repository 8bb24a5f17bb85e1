//! Integers, types and strings as bytes.
use crate::decode::DecodePart;
use crate::encode::EncodePart;
use crate::form::{DecodeForm, EncodeForm, GivesIds};
use crate::part::{StringOf, TypeOf};
use scale_info_bytes::error::{DecodeError, EncodeError};
use scale_info_bytes::integer::{decode_compact, decode_u8, decode_u32, encode_compact};
use scale_info_bytes::text::encode_text;
use scale_info_type_ids::impls::Compact;
use std::alloc::Global;

impl<'i, F: DecodeForm<'i>> DecodePart<'i, F> for u8 {
    fn decode_part(_alloc: Global, input: &'i [u8]) -> Result<(u8, &'i [u8]), DecodeError> {
        decode_u8(input).ok_or(DecodeError::Malformed)
    }
}

impl<F: EncodeForm, N: GivesIds<F>> EncodePart<F, N> for u8 {
    fn encode_part(integer: &u8, _ids: &N, out: &mut Vec<u8>) -> Result<(), EncodeError> {
        out.push(*integer)?;
        Ok(())
    }
}

impl<'i, F: DecodeForm<'i>> DecodePart<'i, F> for u32 {
    fn decode_part(_alloc: Global, input: &'i [u8]) -> Result<(u32, &'i [u8]), DecodeError> {
        decode_u32(input).ok_or(DecodeError::Malformed)
    }
}

impl<F: EncodeForm, N: GivesIds<F>> EncodePart<F, N> for u32 {
    fn encode_part(integer: &u32, _ids: &N, out: &mut Vec<u8>) -> Result<(), EncodeError> {
        out.extend_from_slice(&integer.to_le_bytes())?;
        Ok(())
    }
}

impl<'i, F: DecodeForm<'i>> DecodePart<'i, F> for Compact<u32> {
    fn decode_part(
        _alloc: Global,
        input: &'i [u8],
    ) -> Result<(Compact<u32>, &'i [u8]), DecodeError> {
        match decode_compact(input) {
            Some((integer, rest)) => Ok((Compact(integer), rest)),
            None => Err(DecodeError::Malformed),
        }
    }
}

impl<F: EncodeForm, N: GivesIds<F>> EncodePart<F, N> for Compact<u32> {
    fn encode_part(integer: &Compact<u32>, _ids: &N, out: &mut Vec<u8>) -> Result<(), EncodeError> {
        encode_compact(out, integer.0)?;
        Ok(())
    }
}

impl<'i, F: DecodeForm<'i>> DecodePart<'i, F> for TypeOf<F> {
    fn decode_part(_alloc: Global, input: &'i [u8]) -> Result<(F::Ty, &'i [u8]), DecodeError> {
        F::decode_type(input).ok_or(DecodeError::Malformed)
    }
}

impl<F: EncodeForm, N: GivesIds<F>> EncodePart<F, N> for TypeOf<F> {
    fn encode_part(ty: &F::Ty, ids: &N, out: &mut Vec<u8>) -> Result<(), EncodeError> {
        encode_compact(out, ids.id(ty))?;
        Ok(())
    }
}

impl<'i, F: DecodeForm<'i>> DecodePart<'i, F> for StringOf<F> {
    fn decode_part(alloc: Global, input: &'i [u8]) -> Result<(F::String, &'i [u8]), DecodeError> {
        F::decode_string(alloc, input)
    }
}

impl<F: EncodeForm, N: GivesIds<F>> EncodePart<F, N> for StringOf<F> {
    fn encode_part(text: &F::String, _ids: &N, out: &mut Vec<u8>) -> Result<(), EncodeError> {
        encode_text(out, F::as_str(text))
    }
}
