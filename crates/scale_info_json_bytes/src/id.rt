//! Ids as JSON text.
ghost use Rattle.std.specs.Prelude.{IfOk, IfErr};
ghost use Rattle.scale_info_bytes.specs.Encodings.{HasNoPrefix, HasPrefix, IfMalformed};
ghost use Rattle.scale_info_grammar.specs.Ty.{EncodesId};
ghost use Rattle.scale_info_grammar.specs.TyLaws.{id_law};
ghost use Rattle.scale_info_json_trees.specs.PartTrees.{id_tree};

use crate::transcode::Transcode;
use json::Writer;
use scale_info_bytes::error::DecodeError;
use scale_info_bytes::integer::decode_compact;
use scale_info_identities::symbol::UntrackedSymbol;
use scale_info_identities::type_id::TypeId;

type Id = UntrackedSymbol<TypeId>;

/// The id at the start of the input, and the rest.
///
/// Error: `Malformed`, if no prefix of the input encodes an id.
pub fn decode_id(input: &[u8]) -> Result<(Id, &[u8]), DecodeError>
    ensures ok { IfOk result (λ found. HasPrefix (EncodesId found.0) input.now found.1.now) }
    ensures malformed { IfErr result (IfMalformed (HasNoPrefix EncodesId input.now)) }
{
    match decode_compact(input) {
        Some((id, rest)) => Ok((UntrackedSymbol::from(id), rest)),
        None => Err(DecodeError::Malformed),
    }
}

impl Transcode for UntrackedSymbol<TypeId> {
    ghost encodes = { EncodesId };

    ghost written = { id_tree };

    fn transcode<'a>(input: &'a [u8], out: &mut Writer) -> Result<&'a [u8], DecodeError> {
        let (id, rest) = decode_id(input)?;
        out.u64(id.id as u64)?;
        Ok(rest)
    }

    ghost law = { id_law };
}
