//! Passes over strings.
ghost use Rattle.std.specs.Prelude.{[], IfSome, IfNone};
ghost use Rattle.scale_info_bytes.specs.Encodings.{HasNoPrefix};
ghost use Rattle.scale_info_bytes.specs.StringLaws.{text_law};
ghost use Rattle.scale_info_bytes.specs.Strings.{EncodesText};
ghost use Rattle.scale_info_passes.specs.Pieces.{HasSomePrefix};

use crate::pass::{Pass, Visitor, visit_verbatim};
use scale_info_bytes::text::decode_str;
use scale_info_collections::text::Text;

/// The rest of the input after the string at its start. Out of line, so that the passes over what
/// holds strings stay short enough to be inlined: where a string is missing, it costs no call.
#[inline(never)]
fn skip_text(input: &[u8]) -> Option<&[u8]>
    ensures some { IfSome result (λ rest. HasSomePrefix EncodesText input.now rest.now) }
    ensures none { IfNone result (HasNoPrefix EncodesText input.now) }
{
    let (_, rest) = decode_str(input)?;
    Some(rest)
}

impl Pass for Text {
    ghost encodes = { EncodesText };

    ghost references_of = { λ _. [] };

    ghost map_references = { λ _ v. v };

    fn pass<'a, V: Visitor>(input: &'a [u8], visitor: &mut V) -> Option<&'a [u8]> {
        let rest = skip_text(input)?;
        visit_verbatim(input, rest, visitor);
        Some(rest)
    }

    ghost law = { text_law };
}
