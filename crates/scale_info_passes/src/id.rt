//! Passes over ids of types.
ghost use Rattle.std.specs.Prelude.{◌∷◌, []};
ghost use Rattle.scale_info_grammar.specs.Ty.{EncodesId};
ghost use Rattle.scale_info_grammar.specs.TyLaws.{id_law};

use crate::pass::{Pass, Visitor};
use scale_info_bytes::integer::decode_compact;
use scale_info_identities::symbol::UntrackedSymbol;
use scale_info_identities::type_id::TypeId;

impl Pass for UntrackedSymbol<TypeId> {
    ghost encodes = { EncodesId };

    ghost references_of = { λ v. v ∷ [] };

    ghost map_references = { λ f v. f v };

    fn pass<'a, V: Visitor>(input: &'a [u8], visitor: &mut V) -> Option<&'a [u8]> {
        let (id, rest) = decode_compact(input)?;
        visitor.reference(UntrackedSymbol::from(id));
        Some(rest)
    }

    ghost law = { id_law };
}
