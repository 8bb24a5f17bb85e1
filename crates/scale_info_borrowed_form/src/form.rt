//! The form of descriptions that borrow their strings.
ghost use Rattle.std.proofs.Common.{rules, refl};
ghost use Rattle.std.specs.Prelude.{◌≡◌, ℕ, IfOk};

use scale_info_bytes::error::DecodeError;
use scale_info_bytes::integer::decode_compact;
use scale_info_bytes::text::decode_str;
use scale_info_description_codec::form::{DecodeForm, EncodeForm, IdForm};
use scale_info_identities::symbol::UntrackedSymbol;
use scale_info_identities::type_id::TypeId;
use scale_info_types::form::Form;
use std::alloc::{AllocError, Global};
use std::marker::PhantomData;

/// The form of a description that borrows its strings: types are ids of a table, and strings are
/// borrowed from the bytes that they were decoded from.
///
/// `Type<BorrowedForm<'i>>` has all that a description has: it is asked for its parts, compared,
/// ordered and copied, and no string of it is copied.
#[derive(Drop)]
pub struct BorrowedForm<'s> {
    borrowed: PhantomData<&'s str>,
}

impl<'s> Form for BorrowedForm<'s> {
    type Ty = UntrackedSymbol<TypeId>;

    type String = &'s str;

    ghost Reference = { ℕ };

    ghost reference = { λ symbol. symbol.id };

    ghost reference_equal = { λ a b. Prim.search rules };

    ghost text = { λ a. a.now };

    ghost text_equal = { λ a b. Prim.search rules };

    ghost text_order = { λ a b. refl };

    fn copy_type(
        _alloc: Global,
        source: &UntrackedSymbol<TypeId>,
    ) -> Result<UntrackedSymbol<TypeId>, AllocError>
        ensures { IfOk result (λ copy. copy ≡ source.now) }
    {
        Ok(UntrackedSymbol::from(source.id))
    }

    fn copy_string(_alloc: Global, source: &&'s str) -> Result<&'s str, AllocError>
        ensures { IfOk result (λ copy. copy ≡ source.now) }
    {
        Ok(*source)
    }
}

impl<'s> IdForm for BorrowedForm<'s> {
    ghost id_of = { λ symbol. symbol };
}

impl<'s> DecodeForm<'s> for BorrowedForm<'s> {
    fn decode_type(input: &'s [u8]) -> Option<(UntrackedSymbol<TypeId>, &'s [u8])> {
        match decode_compact(input) {
            Some((id, rest)) => Some((UntrackedSymbol::from(id), rest)),
            None => None,
        }
    }

    fn decode_string(_alloc: Global, input: &'s [u8]) -> Result<(&'s str, &'s [u8]), DecodeError> {
        decode_str(input).ok_or(DecodeError::Malformed)
    }
}

impl<'s> EncodeForm for BorrowedForm<'s> {
    fn as_str<'a>(text: &'a &'s str) -> &'a str {
        *text
    }
}
