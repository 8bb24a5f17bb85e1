//! Values that may be missing, as bytes.
use crate::decode::DecodePart;
use crate::encode::EncodePart;
use crate::form::{DecodeForm, EncodeForm, GivesIds};
use crate::tuple::encode_with_index;
use scale_info_bytes::error::{DecodeError, EncodeError};
use std::alloc::Global;

impl<'i, F: DecodeForm<'i>, T: DecodePart<'i, F>> DecodePart<'i, F> for Option<T> {
    #[tactic(auto, using(scale_info_grammar::proofs::Reading::not_read))]
    fn decode_part(
        alloc: Global,
        input: &'i [u8],
    ) -> Result<(Option<T::Value>, &'i [u8]), DecodeError> {
        match input {
            [0, rest @ ..] => Ok((None, rest)),
            [1, rest @ ..] => {
                let (value, rest) = T::decode_part(alloc, rest)?;
                Ok((Some(value), rest))
            }
            _ => Err(DecodeError::Malformed),
        }
    }
}

impl<F: EncodeForm, N: GivesIds<F>, T: EncodePart<F, N>> EncodePart<F, N> for Option<T> {
    fn encode_part(
        value: &Option<T::Value>,
        ids: &N,
        out: &mut Vec<u8>,
    ) -> Result<(), EncodeError> {
        match value {
            None => {
                out.push(0)?;
                Ok(())
            }
            Some(value) => encode_with_index::<T, F, N>(1, value, ids, out),
        }
    }
}
