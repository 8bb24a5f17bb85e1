//! Passes over pairs.
ghost use Rattle.std.specs.Prelude.{◌++◌};
ghost use Rattle.scale_info_bytes.specs.PartLaws.{pair_law};
ghost use Rattle.scale_info_bytes.specs.Parts.{EncodesPair};

use crate::pass::{Pass, Visitor};

impl<A: Pass, B: Pass> Pass for (A, B) {
    ghost encodes = { EncodesPair A.encodes B.encodes };

    ghost references_of = { λ v. A.references_of v.0 ++ B.references_of v.1 };

    ghost map_references = { λ f v. (A.map_references f v.0, B.map_references f v.1) };

    fn pass<'a, V: Visitor>(input: &'a [u8], visitor: &mut V) -> Option<&'a [u8]> {
        let rest = A::pass(input, visitor)?;
        B::pass(rest, visitor)
    }

    ghost law = { pair_law A.law B.law };
}
