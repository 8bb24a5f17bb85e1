//! Ids of types as bytes.
ghost use Rattle.scale_info_grammar.specs.Ty.{EncodesId};
ghost use Rattle.scale_info_grammar.specs.TyLaws.{id_law};

use crate::scale::Scale;
use scale_info_bytes::error::{DecodeError, EncodeError};
use scale_info_bytes::integer::{decode_compact, encode_compact};
use scale_info_identities::symbol::UntrackedSymbol;
use scale_info_identities::type_id::TypeId;
use std::alloc::Global;

impl Scale for UntrackedSymbol<TypeId> {
    ghost encodes = { EncodesId };

    fn encode_to(&self, out: &mut Vec<u8>) -> Result<(), EncodeError> {
        encode_compact(out, self.id)?;
        Ok(())
    }

    fn decode_from(
        _alloc: Global,
        input: &[u8],
    ) -> Result<(UntrackedSymbol<TypeId>, &[u8]), DecodeError> {
        match decode_compact(input) {
            Some((id, rest)) => Ok((UntrackedSymbol::from(id), rest)),
            None => Err(DecodeError::Malformed),
        }
    }

    ghost law = { id_law };
}
