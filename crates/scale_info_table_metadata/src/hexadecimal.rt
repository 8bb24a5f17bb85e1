//! Bytes that are written as hexadecimal text.
ghost use Rattle.std.specs.Prelude.{◌≡◌, IfOk, option_map};
ghost use Rattle.scale_info_table_metadata.specs.HexTexts.{is_around, trimmed_start, trimmed_end};
ghost use Rattle.scale_info_table_metadata.specs.HexTexts.{bytes_in};

use scale_info_hexadecimal::decode::{decode, without_mark};
use std::alloc::{AllocError, Global};

/// Whether this byte may stand around digits: a blank, a line feed or a quote.
fn is_around(byte: u8) -> bool
    ensures { result ≡ is_around byte }
{
    matches!(byte, b' ' | b'\t' | b'\n' | b'\r' | b'"')
}

/// The text from the first byte on that does not stand around digits.
fn trim_start(text: &[u8]) -> &[u8]
    ensures { result.now ≡ trimmed_start text.now }
{
    let mut rest = text;
    while let [first, after @ ..] = rest {
        if !is_around(*first) {
            break;
        }
        rest = after;
    }
    rest
}

/// The text up to the last byte that does not stand around digits.
fn trim_end(text: &[u8]) -> &[u8]
    ensures { result.now ≡ trimmed_end text.now }
{
    let mut rest = text;
    while let [before @ .., last] = rest {
        if !is_around(*last) {
            break;
        }
        rest = before;
    }
    rest
}

/// The bytes that a text writes in two hexadecimal digits each, in either case, after `0x` or
/// without it, with spaces, tabs, line feeds, carriage returns and quotes around them; None for any
/// other text, also for one without a digit.
///
/// So what a node returns over HTTP is read, where it was cut out of its JSON with the quotes or
/// without them. No table that a registry gives is such a text: see `FORMATS.md`.
///
/// Errors: an allocation failed.
///
/// ```text
/// bytes_of_text(alloc, b"\"0x6d657461\"\n")?   // Some([0x6d, 0x65, 0x74, 0x61])
/// ```
pub fn bytes_of_text(alloc: Global, text: &[u8]) -> Result<Option<Vec<u8>>, AllocError>
    ensures { IfOk result (λ found. option_map (λ bytes. bytes.items) found ≡ bytes_in text.now) }
{
    let digits = trim_end(trim_start(text));
    if without_mark(digits).is_empty() {
        return Ok(None);
    }
    decode(alloc, digits)
}
