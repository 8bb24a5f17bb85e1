//! Bytes that hexadecimal digits write.
ghost use Rattle.std.specs.Prelude.{◌≡◌, IfOk, option_map};
ghost use Rattle.scale_info_hexadecimal.specs.Digits.{bytes_by_digits, without_mark};

use hex::FromHexError;
use std::alloc::{AllocError, Global};

/// The digits without the mark `0x` before them.
pub fn without_mark(text: &[u8]) -> &[u8]
    ensures { result.now ≡ without_mark text.now }
{
    match text.strip_prefix(b"0x") {
        Some(digits) => digits,
        None => text,
    }
}

/// The bytes that hexadecimal digits write, two for each, in either case, after `0x` or without it;
/// None where the text is no even number of digits.
///
/// Errors: `AllocError`, where an allocation failed.
///
/// ```text
/// decode(alloc, b"0x6d65")?   // Some([0x6d, 0x65])
/// ```
pub fn decode(alloc: Global, text: &[u8]) -> Result<Option<Vec<u8>>, AllocError>
    ensures { IfOk result
        (λ found. option_map (λ bytes. bytes.items) found ≡ bytes_by_digits text.now) }
{
    match hex::decode(alloc, without_mark(text)) {
        Ok(bytes) => Ok(Some(bytes)),
        Err(FromHexError::OutOfMemory) => Err(AllocError),
        Err(_) => Ok(None),
    }
}
