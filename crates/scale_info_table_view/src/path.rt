//! Paths of entries, compared as bytes.
ghost use Rattle.std.specs.Prelude.{◌≡◌, ◌↔◌, IsTrue, List, ℕ, length};
ghost use Rattle.scale_info_bytes.specs.Encodings.{HasPrefix};
ghost use Rattle.scale_info_bytes.specs.Parts.{EncodesItems};
ghost use Rattle.scale_info_bytes.specs.Strings.{EncodesText};
ghost use Rattle.scale_info_grammar.specs.Ty.{EncodesPortableType};
ghost use Rattle.scale_info_segments.specs.TypePaths.{texts};
ghost use Rattle.scale_info_types.specs.Portable.{Text};
ghost use Rattle.scale_info_types.specs.declared.ty.PortableType.{PortableType};

use scale_info_bytes::integer::decode_compact;
use scale_info_bytes::text::decode_str;

/// Whether the entry at the start of the bytes has the path of these segments.
pub(crate) fn has_path(bytes: &[u8], path: &[&str]) -> bool
    ensures { (entry : PortableType) (rest : List ℕ)
        → HasPrefix (EncodesPortableType entry) bytes.now rest
        → (IsTrue result ↔ (entry.ty.path.segments ≡ texts path.now)) }
{
    let Some((_, description)) = decode_compact(bytes) else {
        return false;
    };
    let Some((count, segments)) = decode_compact(description) else {
        return false;
    };
    if count as usize != path.len() {
        return false;
    }
    has_segments(segments, path)
}

/// Whether the strings at the start of the bytes, as many as the segments, are the segments.
fn has_segments(bytes: &[u8], path: &[&str]) -> bool
    ensures { (strings : List Text) (rest : List ℕ) → length strings ≡ length path.now
        → HasPrefix (EncodesItems EncodesText strings) bytes.now rest
        → (IsTrue result ↔ (strings ≡ texts path.now)) }
{
    let mut rest = bytes;
    for segment in path {
        let Some((text, after)) = decode_str(rest) else {
            return false;
        };
        if text != *segment {
            return false;
        }
        rest = after;
    }
    true
}
