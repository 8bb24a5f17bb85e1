//! What a form owes so that its descriptions are encoded and decoded.
ghost use Rattle.scale_info_bytes.specs.Encodings.{HasNoPrefix, HasPrefix, IfMalformed};
ghost use Rattle.scale_info_bytes.specs.Strings.{EncodesText};
ghost use Rattle.scale_info_grammar.specs.Ty.{EncodesId};
ghost use Rattle.scale_info_types.specs.Portable.{Id};
ghost use Rattle.std.specs.Prelude.{◌≡◌, ℕ, IfErr, IfNone, IfOk, IfSome};

use scale_info_bytes::error::DecodeError;
use scale_info_bytes::integer::decode_compact;
use scale_info_bytes::text::decode_text;
use scale_info_collections::text::Text;
use scale_info_identities::symbol::UntrackedSymbol;
use scale_info_identities::type_id::TypeId;
use scale_info_types::form::{Form, MetaForm, PortableForm};
use std::alloc::Global;

/// A form whose types are ids.
pub trait IdForm: Form {
    /// The id that a type is.
    ghost id_of: { Self.Ty → Id };
}

/// A form whose types and strings are decoded from bytes, in which the strings may stay.
pub trait DecodeForm<'i>: IdForm {
    /// The type at the start of the input, and the rest; None, if no prefix of the input encodes an
    /// id.
    fn decode_type(input: &'i [u8]) -> Option<(Self::Ty, &'i [u8])>
        ensures some { IfSome result
            (λ found. HasPrefix (EncodesId (Self.id_of found.0)) input.now found.1.now) }
        ensures none { IfNone result (HasNoPrefix EncodesId input.now) };

    /// The string at the start of the input, and the rest.
    ///
    /// Errors: `Malformed`, if no prefix of the input encodes a string; `Memory`, if an allocation
    /// failed.
    fn decode_string(
        alloc: Global,
        input: &'i [u8],
    ) -> Result<(Self::String, &'i [u8]), DecodeError>
        ensures ok { IfOk result
            (λ found. HasPrefix (EncodesText (Self.text found.0)) input.now found.1.now) }
        ensures malformed { IfErr result (IfMalformed (HasNoPrefix EncodesText input.now)) };
}

/// A form whose strings are appended as they are, and not copied before.
pub trait EncodeForm: Form {
    /// The characters of a string.
    fn as_str<'a>(text: &'a Self::String) -> &'a str
        ensures { result.now ≡ Self.text text.now };
}

/// What has an id for each type of a form.
///
/// Any type may implement it. An implementor states the id of each type, and owes the contract of
/// `id`.
pub trait GivesIds<F: Form> {
    /// The id of each type.
    ghost id_of: { Self → F.Ty → ℕ };

    /// The id of a type. Does not allocate.
    fn id(&self, ty: &F::Ty) -> u32
        ensures { result ≡ id_of self.now ty.now };
}

/// The ids that the types of a portable description are.
pub struct OwnIds;

impl GivesIds<PortableForm> for OwnIds {
    ghost id_of = { λ _ symbol. symbol.id };

    fn id(&self, ty: &UntrackedSymbol<TypeId>) -> u32 {
        ty.id
    }
}

impl IdForm for PortableForm {
    ghost id_of = { λ symbol. symbol };
}

impl<'i> DecodeForm<'i> for PortableForm {
    fn decode_type(input: &'i [u8]) -> Option<(UntrackedSymbol<TypeId>, &'i [u8])> {
        match decode_compact(input) {
            Some((id, rest)) => Some((UntrackedSymbol::from(id), rest)),
            None => None,
        }
    }

    fn decode_string(alloc: Global, input: &'i [u8]) -> Result<(Text, &'i [u8]), DecodeError> {
        decode_text(alloc, input)
    }
}

impl EncodeForm for PortableForm {
    fn as_str<'a>(text: &'a Text) -> &'a str {
        text.as_str()
    }
}

impl EncodeForm for MetaForm {
    fn as_str<'a>(text: &'a &'static str) -> &'a str {
        *text
    }
}
