//! Questions about texts.
ghost use Rattle.std.specs.Prelude.{◌↔◌, IsTrue};
ghost use Rattle.std.specs.List.{All};
ghost use Rattle.scale_info_segments.specs.Identifiers.{IsIdentifier, IsLetter, IsLetterOrDigit};
ghost use Rattle.scale_info_segments.specs.Identifiers.{IsPlainIdentifier};

/// Whether the text is an identifier of Rust: some number of `r#`, none too, then `_` or an ASCII
/// letter, and then `_`, ASCII letters and ASCII digits alone.
///
/// The Rust reference has this rule for identifiers in ASCII, with at most one `r#` and with
/// keywords set apart. As in the Rust crate `scale-info`, a text that isn't ASCII is none,
/// repeated `r#` count as one, and keywords and `_` pass.
///
/// ```text
/// is_rust_identifier("r#mod")  // true
/// is_rust_identifier("r#")     // false
/// ```
pub fn is_rust_identifier(text: &str) -> bool
    ensures { IsTrue result ↔ IsIdentifier text.now }
{
    is_plain_identifier(text.trim_start_matches("r#").as_bytes())
}

/// Whether the text begins with `_` or a letter, and goes on with `_`, letters and digits alone.
fn is_plain_identifier(text: &[u8]) -> bool
    ensures { IsTrue result ↔ IsPlainIdentifier text.now }
{
    match text.split_first() {
        None => false,
        Some((head, tail)) => is_letter(*head) && are_letters_or_digits(tail),
    }
}

/// Whether all bytes are `_`, ASCII letters and ASCII digits.
fn are_letters_or_digits(bytes: &[u8]) -> bool
    ensures { IsTrue result ↔ All IsLetterOrDigit bytes.now }
{
    bytes
        .iter()
        .all(|byte| is_letter(*byte) || byte.is_ascii_digit())
}

/// Whether the byte is `_` or an ASCII letter.
fn is_letter(byte: u8) -> bool
    ensures { IsTrue result ↔ IsLetter byte }
{
    byte == b'_' || byte.is_ascii_alphabetic()
}
