//! Two values, one after the other, as bytes, and a value after an index.
ghost use Rattle.scale_info_bytes.specs.Encodings.{AppendsEncoding, HasNoEncoding, IfTooLong};
ghost use Rattle.scale_info_bytes.specs.Encodings.{IsPrefix};
ghost use Rattle.scale_info_bytes.specs.Parts.{HasIndex};
ghost use Rattle.scale_info_references.specs.Conversions.{symbol};
ghost use Rattle.std.specs.Prelude.{IfErr, OnErr, OnOk};

use crate::decode::DecodePart;
use crate::encode::EncodePart;
use crate::form::{DecodeForm, EncodeForm, GivesIds};
use scale_info_bytes::error::{DecodeError, EncodeError};
use std::alloc::Global;

impl<'i, F: DecodeForm<'i>, A: DecodePart<'i, F>, B: DecodePart<'i, F>> DecodePart<'i, F>
    for (A, B) {
    #[tactic(auto, using(scale_info_grammar::proofs::Reading::not_read))]
    fn decode_part(
        alloc: Global,
        input: &'i [u8],
    ) -> Result<((A::Value, B::Value), &'i [u8]), DecodeError> {
        let (first, rest) = A::decode_part(alloc, input)?;
        let (second, rest) = B::decode_part(alloc, rest)?;
        Ok(((first, second), rest))
    }
}

/// Appends an index byte and a value. Where that fails, a part of them may stand at the end.
pub(crate) fn encode_with_index<T: EncodePart<F, N>, F: EncodeForm, N: GivesIds<F>>(
    index: u8,
    value: &T::Value,
    ids: &N,
    out: &mut Vec<u8>,
) -> Result<(), EncodeError>
    ensures ok { OnOk result (AppendsEncoding
        (HasIndex index (T.encodes (T.portable (λ ty. symbol (N.id_of ids.now ty)) value.now)))
        out.old.items out.new.items) }
    ensures err { OnErr result (IsPrefix out.old.items out.new.items) }
    ensures too_long { IfErr result (IfTooLong
        (HasNoEncoding (T.encodes (T.portable (λ ty. symbol (N.id_of ids.now ty)) value.now)))) }
{
    out.push(index)?;
    T::encode_part(value, ids, out)
}
