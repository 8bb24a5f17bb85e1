//! Bytes that are tested for UTF-8. Most strings of a table are ASCII and no longer than a line of
//! docs, and for these a test of a few blocks is shorter than that of the standard library. What is
//! not ASCII and as short is gone over character by character, which costs half of that test.
ghost use Rattle.std.specs.Prelude.{◌≡◌, ◌<◌, ◌≤◌, ◌+◌, ◌*◌, ◌∷◌, [], ℕ, IsTrue, IsUtf8, IfSome};
ghost use Rattle.std.specs.Prelude.{MatchResult};
ghost use Rattle.std.specs.Prelude.{length, slice_index, take};
ghost use Rattle.std.specs.Str.{IsAscii, IsValidUpTo, valid_up_to};

use std::simd::prelude::*;
use std::str::Utf8Error;

/// Whether N bytes are ASCII, the first of which is at a place.
#[inline(always)]
fn is_ascii_block<const N: usize>(bytes: &[u8], at: usize) -> bool
    requires { (N ≤ 64) × (at + N ≤ length bytes.now) }
    ensures { IsTrue result → (i : ℕ) → at ≤ i → i < at + N → slice_index bytes.now i < 128 }
{
    let block = Simd::<u8, N>::from_slice(&bytes[at..]);
    block.simd_ge(Simd::splat(0x80)).to_bitmask() == 0
}

/// Whether the bytes are ASCII, of which there are N to 2 * N: the first N, and the last N.
#[inline(always)]
fn is_ascii_in_two<const N: usize>(bytes: &[u8]) -> bool
    requires { (N ≤ 64) × (N ≤ length bytes.now) × (length bytes.now ≤ 2 * N) }
    ensures { IsTrue result → IsAscii bytes.now }
{
    is_ascii_block::<N>(bytes, 0) & is_ascii_block::<N>(bytes, bytes.len() - N)
}

/// Whether the bytes are ASCII, of which there are 128 to 256: the first 128, and the last 128.
#[inline(always)]
fn is_ascii_in_four(bytes: &[u8]) -> bool
    requires { (128 ≤ length bytes.now) × (length bytes.now ≤ 256) }
    ensures { IsTrue result → IsAscii bytes.now }
{
    is_ascii_block::<64>(bytes, 0)
        & is_ascii_block::<64>(bytes, 64)
        & is_ascii_block::<64>(bytes, bytes.len() - 128)
        & is_ascii_block::<64>(bytes, bytes.len() - 64)
}

/// Whether the bytes are ASCII, of which there are at most three.
#[inline(always)]
fn is_ascii_of_three(bytes: &[u8]) -> bool
    ensures { IsTrue result → IsAscii bytes.now }
{
    match bytes {
        [] => true,
        [a] => *a < 128,
        [a, b] => (*a < 128) & (*b < 128),
        [a, b, c] => (*a < 128) & (*b < 128) & (*c < 128),
        _ => false,
    }
}

/// Whether the bytes are ASCII, of which there are fewer than 256.
#[inline(always)]
fn is_short_ascii(bytes: &[u8]) -> bool
    ensures { IsTrue result → IsAscii bytes.now }
{
    match bytes.len() {
        0..=3 => is_ascii_of_three(bytes),
        4..=7 => is_ascii_in_two::<4>(bytes),
        8..=15 => is_ascii_in_two::<8>(bytes),
        16..=32 => is_ascii_in_two::<16>(bytes),
        33..=64 => is_ascii_in_two::<32>(bytes),
        65..=128 => is_ascii_in_two::<64>(bytes),
        129..=255 => is_ascii_in_four(bytes),
        _ => false,
    }
}

/// How many of N bytes at the start are ASCII, up to the first that is not.
#[inline(always)]
fn leading_ascii<const N: usize>(bytes: &[u8]) -> usize
    requires { (N ≤ 64) × (N ≤ length bytes.now) }
    ensures bound { result ≤ length bytes.now }
    ensures ascii { IsAscii (take result bytes.now) }
{
    let block = Simd::<u8, N>::from_slice(bytes);
    let others = block.simd_ge(Simd::splat(0x80)).to_bitmask();
    if others == 0 {
        N
    } else {
        others.trailing_zeros() as usize
    }
}

/// What comes after ASCII at the start, of which fewer than eight bytes may be left.
#[inline(always)]
fn after_ascii(bytes: &[u8]) -> &[u8]
    ensures shorter { length result.now ≤ length bytes.now }
    ensures utf8 { IsUtf8 result.now → IsUtf8 bytes.now }
{
    let mut rest = bytes;
    while 16 <= rest.len() {
        let leading = leading_ascii::<16>(rest);
        rest = &rest[leading..];
        if leading < 16 {
            return rest;
        }
    }
    if rest.len() < 8 {
        return rest;
    }
    if is_ascii_in_two::<8>(rest) {
        return &rest[rest.len()..];
    }
    &rest[leading_ascii::<8>(rest)..]
}

/// Whether the byte is one that follows the first byte of a character.
#[inline(always)]
fn follows(byte: u8) -> bool
    ensures { IsTrue result → (128 ≤ byte) × (byte < 192) }
{
    128 <= byte && byte < 192
}

/// Whether two bytes are a character: no longer form of one that is ASCII.
#[inline(always)]
fn is_two(a: u8, b: u8) -> bool
    ensures { IsTrue result → IsUtf8 (a ∷ b ∷ []) }
{
    match a {
        0xC2..=0xDF => follows(b),
        _ => false,
    }
}

/// Whether three bytes are a character: no longer form of a shorter one, and no surrogate.
#[inline(always)]
fn is_three(a: u8, b: u8, c: u8) -> bool
    ensures { IsTrue result → IsUtf8 (a ∷ b ∷ c ∷ []) }
{
    if a < 0xE0 || 0xF0 <= a || !follows(b) || !follows(c) {
        return false;
    }
    match a {
        0xE0 => 0xA0 <= b,
        0xED => b < 0xA0,
        0xE1..=0xEF => true,
        _ => false,
    }
}

/// Whether four bytes are a character: no longer form of a shorter one, and none above the last.
#[inline(always)]
fn is_four(a: u8, b: u8, c: u8, d: u8) -> bool
    ensures { IsTrue result → IsUtf8 (a ∷ b ∷ c ∷ d ∷ []) }
{
    if !follows(b) || !follows(c) || !follows(d) {
        return false;
    }
    match a {
        0xF0 => 0x90 <= b,
        0xF1..=0xF3 => true,
        0xF4 => b < 0x90,
        _ => false,
    }
}

/// What comes after the character at the start, which is not ASCII; None, if there is none.
#[inline(always)]
fn after_wide_char(bytes: &[u8]) -> Option<&[u8]>
    ensures shorter { IfSome result (λ rest. length rest.now < length bytes.now) }
    ensures utf8 { IfSome result (λ rest. IsUtf8 rest.now → IsUtf8 bytes.now) }
{
    match bytes {
        [a, b, rest @ ..] if is_two(*a, *b) => Some(rest),
        [a, b, c, rest @ ..] if is_three(*a, *b, *c) => Some(rest),
        [a, b, c, d, rest @ ..] if is_four(*a, *b, *c, *d) => Some(rest),
        _ => None,
    }
}

/// Whether the bytes are UTF-8, character by character. Out of line, so that a string that is all
/// ASCII costs no call.
#[inline(never)]
fn is_utf8_by_char(bytes: &[u8]) -> bool
    ensures { IsTrue result → IsUtf8 bytes.now }
{
    let mut rest = bytes;
    while let [first, after @ ..] = rest {
        if *first < 128 {
            rest = after_ascii(after);
        } else {
            match after_wide_char(rest) {
                Some(after) => rest = after,
                None => return false,
            }
        }
    }
    true
}

/// Whether the bytes are UTF-8, of which there are fewer than 256.
#[inline(always)]
fn is_short_utf8(bytes: &[u8]) -> bool
    ensures { IsTrue result → IsUtf8 bytes.now }
{
    is_short_ascii(bytes) || bytes.len() < 256 && is_utf8_by_char(bytes)
}

/// The string that the bytes are, by the test of the standard library.
#[inline(never)]
fn from_utf8_by_std(bytes: &[u8]) -> Result<&str, Utf8Error>
    ensures cases { MatchResult result (λ text. (text.now ≡ bytes.now) × IsUtf8 bytes.now)
        (λ e. ¬ (IsUtf8 bytes.now) × IsValidUpTo bytes.now (valid_up_to e)) }
{
    str::from_utf8(bytes)
}

/// The string that the bytes are, as `str::from_utf8` of the standard library returns it.
///
/// Errors: that of the standard library, if the bytes are not UTF-8.
#[inline(always)]
pub fn from_utf8(bytes: &[u8]) -> Result<&str, Utf8Error>
    ensures cases { MatchResult result (λ text. (text.now ≡ bytes.now) × IsUtf8 bytes.now)
        (λ e. ¬ (IsUtf8 bytes.now) × IsValidUpTo bytes.now (valid_up_to e)) }
{
    if is_short_utf8(bytes) {
        return Ok(unsafe { str::from_utf8_unchecked(bytes) });
    }
    from_utf8_by_std(bytes)
}
