//! Lists as bytes.
ghost use Rattle.scale_info_bytes.specs.Encodings.{AppendsEncoding, HasNoEncoding, IfTooLong};
ghost use Rattle.scale_info_bytes.specs.Encodings.{HasPrefix, IfMalformed, IsPrefix};
ghost use Rattle.scale_info_bytes.specs.Parts.{EncodesItems};
ghost use Rattle.scale_info_references.specs.Conversions.{symbol};
ghost use Rattle.std.specs.Prelude.{◌≡◌, IfErr, IfOk, OnErr, OnOk, length, map};

use crate::decode::DecodePart;
use crate::encode::EncodePart;
use crate::form::{DecodeForm, EncodeForm, GivesIds};
use scale_info_bytes::error::{DecodeError, EncodeError};
use scale_info_bytes::integer::{decode_compact, encode_compact};
use scale_info_collections::items::Items;
use std::alloc::Global;

/// Decodes as many items as the count says.
fn decode_items<'i, F: DecodeForm<'i>, T: DecodePart<'i, F>>(
    alloc: Global,
    count: u32,
    input: &'i [u8],
) -> Result<(Items<T::Value>, &'i [u8]), DecodeError>
    ensures count { IfOk result (λ found. length found.0 ≡ count) }
    ensures ok { IfOk result (λ found.
        HasPrefix (EncodesItems T.encodes (map (T.portable F.id_of) found.0)) input.now
        found.1.now) }
    ensures malformed { IfErr result
        (IfMalformed
        ((values : _) (rest : _) → length values ≡ count
        → HasPrefix (EncodesItems T.encodes values) input.now rest → ⊥)) }
{
    let mut values = Items::new(alloc);
    let mut rest = input;
    for _ in 0..count {
        let (value, after) = T::decode_part(alloc, rest)?;
        values.push_towards(count as usize, value)?;
        rest = after;
    }
    Ok((values, rest))
}

impl<'i, F: DecodeForm<'i>, T: DecodePart<'i, F>> DecodePart<'i, F> for Items<T> {
    fn decode_part(
        alloc: Global,
        input: &'i [u8],
    ) -> Result<(Items<T::Value>, &'i [u8]), DecodeError> {
        match decode_compact(input) {
            Some((count, rest)) => {
                let (values, rest) = decode_items::<F, T>(alloc, count, rest)?;
                Ok((values, rest))
            }
            None => Err(DecodeError::Malformed),
        }
    }
}

/// Appends items one after another. Where that fails, some of them may stand at the end.
fn encode_items<F: EncodeForm, N: GivesIds<F>, T: EncodePart<F, N>>(
    ids: &N,
    items: &[T::Value],
    out: &mut Vec<u8>,
) -> Result<(), EncodeError>
    ensures ok { OnOk result (AppendsEncoding
        (EncodesItems T.encodes
        (map (T.portable (λ ty. symbol (N.id_of ids.now ty))) items.now))
        out.old.items out.new.items) }
    ensures err { OnErr result (IsPrefix out.old.items out.new.items) }
    ensures too_long { IfErr result (IfTooLong (HasNoEncoding
        (EncodesItems T.encodes
        (map (T.portable (λ ty. symbol (N.id_of ids.now ty))) items.now)))) }
{
    for item in items {
        T::encode_part(item, ids, out)?;
    }
    Ok(())
}

impl<F: EncodeForm, N: GivesIds<F>, T: EncodePart<F, N>> EncodePart<F, N> for Items<T> {
    fn encode_part(items: &Items<T::Value>, ids: &N, out: &mut Vec<u8>) -> Result<(), EncodeError> {
        if items.len() > 4294967295 {
            return Err(EncodeError::TooLong);
        }
        encode_compact(out, items.len() as u32)?;
        encode_items::<F, N, T>(ids, items.as_slice(), out)
    }
}
