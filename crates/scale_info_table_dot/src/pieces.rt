//! Text that is appended piece by piece.
ghost use Rattle.std.specs.List.{flat_map};
ghost use Rattle.std.specs.Prelude.{encode_utf8, string_bytes};
ghost use Rattle.scale_info_table_describe.specs.TypeNames.{Appends};
ghost use Rattle.scale_info_table_dot.specs.GraphTexts.{GoesOn, label_text};

use std::alloc::AllocError;

/// Appends these pieces, one after another. On an error some of them may have been appended.
pub(crate) fn append_pieces(out: &mut String, pieces: &[&str]) -> Result<(), AllocError>
    ensures ok { Appends result out.old out.new (flat_map (λ piece. piece.now) pieces.now) }
    ensures keeps { GoesOn (string_bytes out.old) (string_bytes out.new) }
{
    for piece in pieces {
        out.push_str(piece)?;
    }
    Ok(())
}

/// Appends a text as it stands in a label. On an error a part of it may have been appended.
pub(crate) fn append_label(out: &mut String, text: &str) -> Result<(), AllocError>
    ensures ok { Appends result out.old out.new (label_text text.now) }
    ensures keeps { GoesOn (string_bytes out.old) (string_bytes out.new) }
{
    for character in text.chars() {
        append_character(out, character)?;
    }
    Ok(())
}

/// Appends a character as it stands in a label. On an error a part of it may have been appended.
fn append_character(out: &mut String, character: char) -> Result<(), AllocError>
    ensures ok { Appends result out.old out.new (label_text (encode_utf8 character)) }
    ensures keeps { GoesOn (string_bytes out.old) (string_bytes out.new) }
{
    match character {
        '"' => out.push_str("\\\""),
        '\\' => out.push_str("\\\\"),
        _ => out.push(character),
    }
}
