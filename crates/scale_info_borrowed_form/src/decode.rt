//! Decoding from bytes in which the strings stay.
ghost use Rattle.scale_info_bytes.specs.Encodings.{HasNoPrefix, HasPrefix, IfMalformed};
ghost use Rattle.scale_info_grammar.specs.Ty.{EncodesDescription};
ghost use Rattle.scale_info_borrowed_form.specs.OwnedDescriptions.{owned_description};
ghost use Rattle.std.specs.Prelude.{IfErr, IfOk};

use crate::form::BorrowedForm;
use scale_info_bytes::error::DecodeError;
use scale_info_description_codec::decode::decode_description;
use scale_info_types::ty::Type;
use std::alloc::Global;

/// Decodes one description from the start of the input, and returns the rest. The strings of the
/// description stay in the input.
///
/// It decodes what `Scale::decode_from` decodes of a description that owns its strings, and returns
/// the same rest. Allocates for items already decoded, never for an announced count.
///
/// Errors: `Malformed`, if no prefix of the input encodes a description; `Memory`, if an allocation
/// failed.
///
/// ```text
/// let (ty, rest) = decode_type(alloc, &[0, 0, 5, 5, 0])?;  // `u32`, and nothing left
/// ```
pub fn decode_type<'i>(
    alloc: Global,
    input: &'i [u8],
) -> Result<(Type<BorrowedForm<'i>>, &'i [u8]), DecodeError>
    ensures ok { IfOk result (λ found.
        HasPrefix (EncodesDescription (owned_description found.0)) input.now found.1.now) }
    ensures malformed { IfErr result (IfMalformed (HasNoPrefix EncodesDescription input.now)) }
{
    decode_description::<BorrowedForm<'i>>(alloc, input)
}
