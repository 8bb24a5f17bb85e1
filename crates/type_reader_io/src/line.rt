//! The lines of an input.
ghost use Rattle.std.specs.Prelude.{◌≡◌, ◌++◌, ◌∷◌, IfNone, IfSome};
ghost use Rattle.std.specs.Str.Lines.{strip_carriage_return};
ghost use Rattle.type_reader_io.specs.Inputs.{IsWithoutFeed};

use memchr::memchr;

/// The bytes up to the first line feed, and those after it; None, where there is no line feed.
pub fn split_at_feed(bytes: &[u8]) -> Option<(&[u8], &[u8])>
    ensures some { IfSome result (λ parts. IsWithoutFeed parts.0.now
        × (bytes.now ≡ parts.0.now ++ 10 ∷ parts.1.now)) }
    ensures none { IfNone result (IsWithoutFeed bytes.now) }
{
    match memchr(b'\n', bytes) {
        Some(index) => Some((&bytes[..index], &bytes[index + 1..])),
        None => None,
    }
}

/// What stands before a line feed, as a line: a carriage return at its end is no part of it.
pub fn without_return(line: &[u8]) -> &[u8]
    ensures { result.now ≡ strip_carriage_return line.now }
{
    match line.strip_suffix(b"\r") {
        Some(text) => text,
        None => line,
    }
}
