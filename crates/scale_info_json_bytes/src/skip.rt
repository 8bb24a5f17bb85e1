//! Values that are skipped by the counts in their encodings.
//!
//! What is skipped is read later, and its strings are tested then. So each string is tested once.
ghost use Rattle.std.specs.Prelude.{List, ℕ, IfErr, IfNone, IfOk, IfSome};
ghost use Rattle.scale_info_bytes.specs.Encodings.{HasNoPrefix, IfMalformed};
ghost use Rattle.scale_info_json_bytes.specs.Skips.{IsOnlyRest, IsOnlyRestOfItems};
ghost use Rattle.scale_info_bytes.specs.Parts.{EncodesList, EncodesOption, EncodesPair, HasNoItems};
ghost use Rattle.scale_info_bytes.specs.Strings.{EncodesText};
ghost use Rattle.scale_info_grammar.specs.Ty.{EncodesField, EncodesId, EncodesParameter};

use scale_info_bytes::error::DecodeError;
use scale_info_bytes::integer::decode_compact;
use scale_info_collections::items::Items;
use scale_info_collections::text::Text;
use scale_info_identities::symbol::UntrackedSymbol;
use scale_info_identities::type_id::TypeId;
use scale_info_types::form::PortableForm;
use scale_info_types::ty::TypeParameter;
use scale_info_types::ty::fields::Field;

/// A value that is skipped by the counts in its encoding.
pub trait Skip {
    /// The whole list of bytes encodes the value.
    ghost encodes: { Self → List ℕ → Type 0 };

    /// What comes after the value, where the input begins with one. It does not allocate.
    ///
    /// None, if no prefix of the input encodes a value. The bytes of strings are not looked at, so
    /// a rest is also returned where one of them is no UTF-8.
    fn skip(input: &[u8]) -> Option<&[u8]>
        ensures some { IfSome result (λ rest. IsOnlyRest encodes input.now rest.now) }
        ensures none { IfNone result (HasNoPrefix encodes input.now) };
}

/// What comes after the value, where the input begins with one. It does not allocate.
///
/// Error: `Malformed`, if no prefix of the input encodes a value; but where a string of it is no
/// UTF-8, that is found when it is read.
pub fn skip_part<T: Skip>(input: &[u8]) -> Result<&[u8], DecodeError>
    ensures ok { IfOk result (λ rest. IsOnlyRest T.encodes input.now rest.now) }
    ensures malformed { IfErr result (IfMalformed (HasNoPrefix T.encodes input.now)) }
{
    T::skip(input).ok_or(DecodeError::Malformed)
}

impl Skip for Text {
    ghost encodes = { EncodesText };

    fn skip(input: &[u8]) -> Option<&[u8]> {
        let (count, bytes) = decode_compact(input)?;
        let count = count as usize;
        if bytes.len() < count {
            return None;
        }
        Some(&bytes[count..])
    }
}

impl Skip for UntrackedSymbol<TypeId> {
    ghost encodes = { EncodesId };

    fn skip(input: &[u8]) -> Option<&[u8]> {
        let (_, rest) = decode_compact(input)?;
        Some(rest)
    }
}

impl<T: Skip> Skip for Option<T> {
    ghost encodes = { EncodesOption T.encodes };

    fn skip(input: &[u8]) -> Option<&[u8]> {
        match input {
            [0, rest @ ..] => Some(rest),
            [1, rest @ ..] => T::skip(rest),
            _ => None,
        }
    }
}

impl<A: Skip, B: Skip> Skip for (A, B) {
    ghost encodes = { EncodesPair A.encodes B.encodes };

    fn skip(input: &[u8]) -> Option<&[u8]> {
        let rest = A::skip(input)?;
        B::skip(rest)
    }
}

/// What comes after as many items as the count says.
fn skip_items<T: Skip>(count: u32, input: &[u8]) -> Option<&[u8]>
    ensures some { IfSome result (λ rest.
        IsOnlyRestOfItems T.encodes count input.now rest.now) }
    ensures none { IfNone result (HasNoItems T.encodes count input.now) }
{
    let mut rest = input;
    for _ in 0..count {
        rest = T::skip(rest)?;
    }
    Some(rest)
}

impl<T: Skip> Skip for Items<T> {
    ghost encodes = { EncodesList T.encodes };

    fn skip(input: &[u8]) -> Option<&[u8]> {
        let (count, items) = decode_compact(input)?;
        skip_items::<T>(count, items)
    }
}

impl Skip for TypeParameter<PortableForm> {
    ghost encodes = { EncodesParameter };

    fn skip(input: &[u8]) -> Option<&[u8]> {
        <(Text, Option<UntrackedSymbol<TypeId>>)>::skip(input)
    }
}

impl Skip for Field<PortableForm> {
    ghost encodes = { EncodesField };

    fn skip(input: &[u8]) -> Option<&[u8]> {
        <(
            Option<Text>,
            (UntrackedSymbol<TypeId>, (Option<Text>, Items<Text>)),
        )>::skip(input)
    }
}
