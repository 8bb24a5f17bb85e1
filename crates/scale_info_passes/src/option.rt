//! Passes over options.
ghost use Rattle.std.specs.Prelude.{option_map, option_to_list};
ghost use Rattle.std.specs.List.{flat_map};
ghost use Rattle.scale_info_bytes.specs.PartLaws.{option_law};
ghost use Rattle.scale_info_bytes.specs.Parts.{EncodesOption};

use crate::pass::{Pass, Visitor, visit_verbatim};

impl<T: Pass> Pass for Option<T> {
    ghost encodes = { EncodesOption T.encodes };

    ghost references_of = { λ v. flat_map T.references_of (option_to_list v) };

    ghost map_references = { λ f v. option_map (T.map_references f) v };

    fn pass<'a, V: Visitor>(input: &'a [u8], visitor: &mut V) -> Option<&'a [u8]> {
        match input {
            [0, rest @ ..] => {
                visit_verbatim(input, rest, visitor);
                Some(rest)
            }
            [1, rest @ ..] => {
                visit_verbatim(input, rest, visitor);
                T::pass(rest, visitor)
            }
            _ => None,
        }
    }

    ghost law = { option_law T.law };
}
