//! Decoding descriptions from bytes, in any form.
ghost use Rattle.scale_info_bytes.specs.Encodings.{HasNoPrefix, HasPrefix, IfMalformed};
ghost use Rattle.scale_info_grammar.specs.Ty.{EncodesDescription};
ghost use Rattle.scale_info_types.specs.Shapes.{map_description};
ghost use Rattle.std.specs.Prelude.{IfErr, IfOk};

use crate::form::DecodeForm;
use crate::part::Part;
use scale_info_bytes::error::DecodeError;
use scale_info_types::ty::Type;
use std::alloc::Global;

/// Decodes one description from the start of the input, and returns the rest. Whether its strings
/// stay in the input is the form's own. Allocates for items already decoded, never for an announced
/// count.
///
/// Errors: `Malformed`, if no prefix of the input encodes a description; `Memory`, if an allocation
/// failed.
pub fn decode_description<'i, F: DecodeForm<'i>>(
    alloc: Global,
    input: &'i [u8],
) -> Result<(Type<F>, &'i [u8]), DecodeError>
    ensures ok { IfOk result (λ found.
        HasPrefix (EncodesDescription (map_description F.id_of F.text found.0))
        input.now found.1.now) }
    ensures malformed { IfErr result (IfMalformed (HasNoPrefix EncodesDescription input.now)) }
{
    Type::<F>::decode_part(alloc, input)
}

/// A part of a description that is decoded from bytes.
pub trait DecodePart<'i, F: DecodeForm<'i>>: Part<F> {
    /// Decodes one value from the start of the input, and returns the rest. Allocates for items
    /// already decoded, never for an announced count.
    ///
    /// Errors: `Malformed`, if no prefix of the input encodes a value; `Memory`, if an allocation
    /// failed.
    fn decode_part(alloc: Global, input: &'i [u8]) -> Result<(Self::Value, &'i [u8]), DecodeError>
        ensures ok { IfOk result (λ found.
            HasPrefix (Self.encodes (Self.portable F.id_of found.0)) input.now found.1.now) }
        ensures malformed { IfErr result (IfMalformed (HasNoPrefix Self.encodes input.now)) };
}
