//! Bytes as hexadecimal text, sixteen bytes at a time.
//!
//! Each function promises the plain meaning, two digits a byte one after another, as the kit's
//! `hex` defines it: so a proof says that blocks which overlap, and lists too short for a block,
//! give no other text.
ghost use Rattle.std.specs.Prelude.{◌≡◌, ◌++◌, ◌+◌, ◌*◌, ◌/◌, ◌%◌, ◌≤◌, IfOk, codes, string_bytes};
ghost use Rattle.std.specs.Prelude.{length, map, take, drop, slice_index};
ghost use Rattle.hex.specs.Hex.{encode_lower, lower_digits};

use std::alloc::{AllocError, Global};
use std::simd::prelude::*;

/// The digits, in order.
const DIGITS: [u8; 16] = [
    b'0', b'1', b'2', b'3', b'4', b'5', b'6', b'7', b'8', b'9', b'a', b'b', b'c', b'd', b'e', b'f',
];

/// The first digit of each byte.
#[inline(always)]
fn first_digits(bytes: u8x16) -> u8x16
    ensures { result ≡ map (λ b. slice_index lower_digits (b / 16)) bytes }
{
    u8x16::from_array(DIGITS).swizzle_dyn(bytes >> u8x16::splat(4))
}

/// The second digit of each byte.
#[inline(always)]
fn second_digits(bytes: u8x16) -> u8x16
    ensures { result ≡ map (λ b. slice_index lower_digits (b % 16)) bytes }
{
    u8x16::from_array(DIGITS).swizzle_dyn(bytes & u8x16::splat(15))
}

/// The digits of sixteen bytes.
#[inline(always)]
fn digits(bytes: u8x16) -> (u8x16, u8x16)
    ensures { result.0 ++ result.1 ≡ encode_lower bytes }
{
    first_digits(bytes).interleave(second_digits(bytes))
}

/// Writes the digits of the sixteen bytes at a place.
#[inline(always)]
fn write_sixteen(bytes: &[u8], at: usize, out: &mut [u8])
    requires place { at + 16 ≤ length bytes.now }
    requires room { length out.old ≡ 2 * length bytes.now }
    ensures { take (2 * at + 32) out.new
        ≡ take (2 * at) out.old ++ encode_lower (take 16 (drop at bytes.now)) }
{
    let (first, second) = digits(u8x16::from_slice(&bytes[at..]));
    first.copy_to_slice(&mut out[2 * at..]);
    second.copy_to_slice(&mut out[2 * at + 16..]);
}

/// Writes the digits of the bytes, of which there are sixteen or more. The last blocks may overlap.
fn write_many(bytes: &[u8], out: &mut [u8])
    requires many { 16 ≤ length bytes.now }
    requires room { length out.old ≡ 2 * length bytes.now }
    ensures { out.new ≡ encode_lower bytes.now }
{
    let last = bytes.len() - 16;
    let mut at = 0;
    while bytes.len() - at > 32 {
        write_sixteen(bytes, at, out);
        write_sixteen(bytes, at + 16, out);
        at += 32;
    }
    write_sixteen(bytes, at.min(last), out);
    write_sixteen(bytes, last, out);
}

/// Writes the digits of the bytes.
fn write_digits(bytes: &[u8], out: &mut [u8])
    requires { length out.old ≡ 2 * length bytes.now }
    ensures { out.new ≡ encode_lower bytes.now }
{
    if bytes.len() >= 16 {
        write_many(bytes, out);
    } else if hex::encode_to_slice(bytes, out).is_err() {
        unreachable!();
    }
}

/// `0x` and the digits of the bytes.
fn prefixed_digits(alloc: Global, bytes: &[u8]) -> Result<Vec<u8>, AllocError>
    ensures { IfOk result (λ all. all.items ≡ codes "0x" ++ encode_lower bytes.now) }
{
    let Some(count) = bytes.len().checked_mul(2) else {
        return Err(AllocError);
    };
    let Some(size) = count.checked_add(2) else {
        return Err(AllocError);
    };
    let mut all = vec![in alloc; b'0'; size]?;
    all[1] = b'x';
    write_digits(bytes, &mut all[2..]);
    Ok(all)
}

/// `0x` and the bytes in lower-case hexadecimal digits, two for each.
///
/// Errors: `AllocError`, where an allocation failed.
///
/// ```text
/// encode(alloc, &[0x6d, 0x65])?   // "0x6d65"
/// ```
pub fn encode(alloc: Global, bytes: &[u8]) -> Result<String, AllocError>
    ensures { IfOk result (λ text. string_bytes text ≡ codes "0x" ++ encode_lower bytes.now) }
{
    match String::from_utf8(prefixed_digits(alloc, bytes)?) {
        Ok(text) => Ok(text),
        Err(_) => unreachable!(),
    }
}
