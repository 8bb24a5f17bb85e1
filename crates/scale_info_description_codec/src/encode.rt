//! Encoding descriptions as bytes, from any form.
ghost use Rattle.scale_info_bytes.specs.Encodings.{AppendsEncoding, HasNoEncoding, IfTooLong};
ghost use Rattle.scale_info_bytes.specs.Encodings.{IsPrefix};
ghost use Rattle.scale_info_grammar.specs.Ty.{EncodesDescription};
ghost use Rattle.scale_info_references.specs.Conversions.{symbol, with_ids};
ghost use Rattle.std.specs.Prelude.{◌≡◌, IfErr, OnErr, OnOk};

use crate::form::{EncodeForm, GivesIds};
use crate::part::Part;
use scale_info_bytes::error::{EncodeError, truncate_on_err};
use scale_info_types::ty::Type;

/// Appends the encoding of a description, with ids in place of its types. No string is copied
/// before it is appended.
///
/// Errors: `TooLong`, if it has no encoding, because one of its lists or strings has more than
/// 4294967295 items or bytes; `Memory`, if an allocation failed. On an Err the output is as before.
pub fn encode_description<F: EncodeForm, N: GivesIds<F>>(
    ids: &N,
    ty: &Type<F>,
    out: &mut Vec<u8>,
) -> Result<(), EncodeError>
    ensures ok { OnOk result (AppendsEncoding
        (EncodesDescription (with_ids (N.id_of ids.now) F.text ty.now))
        out.old.items out.new.items) }
    ensures err { OnErr result (out.new.items ≡ out.old.items) }
    ensures too_long { IfErr result (IfTooLong
        (HasNoEncoding (EncodesDescription (with_ids (N.id_of ids.now) F.text ty.now)))) }
{
    append_part::<Type<F>, F, N>(ty, ids, out)
}

/// Appends the encoding of a part, with ids in place of its types.
///
/// Errors: those of [`encode_description`]. On an Err the output is as before.
pub fn append_part<P: EncodePart<F, N>, F: EncodeForm, N: GivesIds<F>>(
    value: &P::Value,
    ids: &N,
    out: &mut Vec<u8>,
) -> Result<(), EncodeError>
    ensures ok { OnOk result (AppendsEncoding
        (P.encodes (P.portable (λ ty. symbol (N.id_of ids.now ty)) value.now))
        out.old.items out.new.items) }
    ensures err { OnErr result (out.new.items ≡ out.old.items) }
    ensures too_long { IfErr result (IfTooLong
        (HasNoEncoding (P.encodes (P.portable (λ ty. symbol (N.id_of ids.now ty)) value.now)))) }
{
    let start = out.len();
    let written = P::encode_part(value, ids, out);
    truncate_on_err(out, start, written)
}

/// A part of a description whose types get ids as it is encoded.
pub trait EncodePart<F: EncodeForm, N: GivesIds<F>>: Part<F> {
    /// Appends the encoding of the value with ids. Where that fails, a part of it may stand at the
    /// end.
    ///
    /// Errors: those of [`encode_description`].
    fn encode_part(value: &Self::Value, ids: &N, out: &mut Vec<u8>) -> Result<(), EncodeError>
        ensures ok { OnOk result (AppendsEncoding
            (Self.encodes (Self.portable (λ ty. symbol (N.id_of ids.now ty)) value.now))
            out.old.items out.new.items) }
        ensures err { OnErr result (IsPrefix out.old.items out.new.items) }
        ensures too_long { IfErr result (IfTooLong (HasNoEncoding
            (Self.encodes (Self.portable (λ ty. symbol (N.id_of ids.now ty)) value.now)))) };
}
