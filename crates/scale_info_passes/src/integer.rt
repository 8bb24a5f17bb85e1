//! Passes over integers.
ghost use Rattle.std.specs.Prelude.{[]};
ghost use Rattle.scale_info_bytes.specs.CompactLaws.{compact_law};
ghost use Rattle.scale_info_bytes.specs.IntegerLaws.{u8_law, u32_law};
ghost use Rattle.scale_info_bytes.specs.Integers.{EncodesCompact, EncodesU8, EncodesU32};
ghost use Rattle.scale_info_bytes.specs.PartLaws.{through_law};

use crate::pass::{Pass, Verbatim, Visitor, visit_verbatim};
use scale_info_bytes::integer::{decode_compact, decode_u8, decode_u32};
use scale_info_type_ids::impls::Compact;

impl Verbatim for u8 {
    ghost encodes = { EncodesU8 };

    fn decode(input: &[u8]) -> Option<(u8, &[u8])> {
        decode_u8(input)
    }

    ghost law = { u8_law };
}

impl Verbatim for u32 {
    ghost encodes = { EncodesU32 };

    fn decode(input: &[u8]) -> Option<(u32, &[u8])> {
        decode_u32(input)
    }

    ghost law = { u32_law };
}

impl Pass for Compact<u32> {
    ghost encodes = { λ v b. EncodesCompact v.0 b };

    ghost references_of = { λ _. [] };

    ghost map_references = { λ _ v. v };

    fn pass<'a, V: Visitor>(input: &'a [u8], visitor: &mut V) -> Option<&'a [u8]> {
        let (_, rest) = decode_compact(input)?;
        visit_verbatim(input, rest, visitor);
        Some(rest)
    }

    ghost law = { through_law (λ v. v.0) (λ v w e i. record { 0 = e i }) compact_law };
}
