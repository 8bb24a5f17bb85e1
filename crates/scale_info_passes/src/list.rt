//! Passes over lists.
ghost use Rattle.std.specs.Prelude.{map, IfSome, IfNone};
ghost use Rattle.std.specs.List.{flat_map};
ghost use Rattle.scale_info_passes.specs.Pieces.{HasVisitedItems};
ghost use Rattle.scale_info_bytes.specs.PartLaws.{list_law};
ghost use Rattle.scale_info_bytes.specs.Parts.{EncodesList, HasNoItems};

use crate::pass::{Pass, Visitor, visit_verbatim};
use scale_info_bytes::integer::decode_compact;
use scale_info_collections::items::Items;

/// Goes over as many items as the count says.
fn pass_items<'a, T: Pass, V: Visitor>(
    count: u32,
    input: &'a [u8],
    visitor: &mut V,
) -> Option<&'a [u8]>
    ensures some { IfSome result (λ rest.
        HasVisitedItems T.encodes T.references_of T.map_references V.visited
        count input.now rest.now visitor.old visitor.new) }
    ensures none { IfNone result (HasNoItems T.encodes count input.now) }
{
    let mut rest = input;
    for _ in 0..count {
        rest = T::pass(rest, visitor)?;
    }
    Some(rest)
}

impl<T: Pass> Pass for Items<T> {
    ghost encodes = { EncodesList T.encodes };

    ghost references_of = { λ v. flat_map T.references_of v };

    ghost map_references = { λ f v. map (T.map_references f) v };

    fn pass<'a, V: Visitor>(input: &'a [u8], visitor: &mut V) -> Option<&'a [u8]> {
        let (count, rest) = decode_compact(input)?;
        visit_verbatim(input, rest, visitor);
        pass_items::<T, V>(count, rest, visitor)
    }

    ghost law = { list_law T.law };
}
