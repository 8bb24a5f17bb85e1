//! Integers as bytes.
ghost use Rattle.std.specs.Prelude.{◌≡◌, [], ◌<◌, ◌≤◌, ◌+◌, ◌^◌, IfErr, OnOk, OnErr};
ghost use Rattle.std.specs.Int.{byte_len};
ghost use Rattle.scale_info_value.specs.IntegerWidths.{width_of};
ghost use Rattle.scale_info_value_encode.specs.Failures.{Fails};
ghost use Rattle.scale_info_value_encode.specs.Writers.{Appends, written};
ghost use Rattle.scale_info_value_encode.specs.IntegerWriters.{first_width, many_bytes};
ghost use Rattle.scale_info_value_encode.specs.IntegerWriters.{compact_bytes};
ghost use Rattle.scale_info_value_encode.specs.IntegerWriters.{count};
ghost use Rattle.scale_info_value_encode.specs.DefinitionWriters.{unsigned, signed};

use crate::failure::PartError;
use scale_info_bytes::integer::encode_compact;
use scale_info_value::integer::{IntegerWidth, little_endian, with_sign};
use std::alloc::AllocError;

/// The greatest integer in so many bytes.
#[inline(always)]
fn most_in(width: IntegerWidth) -> u128
    ensures { result + 1 ≡ 256 ^ byte_len (width_of width) }
{
    match width {
        IntegerWidth::One => 255,
        IntegerWidth::Two => 65535,
        IntegerWidth::Four => 4294967295,
        IntegerWidth::Eight => 18446744073709551615,
        IntegerWidth::Sixteen => 340282366920938463463374607431768211455,
    }
}

/// Appends the integer in so many bytes, the lowest first. Errors: `Mismatch`, where it does not
/// fit them; `Memory`, where an allocation failed.
pub fn unsigned(width: IntegerWidth, n: u128, out: &mut Vec<u8>) -> Result<(), PartError>
    ensures ok { OnOk result
        (Appends (unsigned (width_of width) n) out.old.items out.new.items) }
    ensures err { IfErr result (Fails (unsigned (width_of width) n) []) }
    ensures same { OnErr result (out.new.items ≡ out.old.items) }
{
    if n > most_in(width) {
        return Err(PartError::Mismatch);
    }
    if let IntegerWidth::One = width {
        return Ok(out.push(n as u8)?);
    }
    let all = n.to_le_bytes();
    let (low, _) = all.split_at(width.bytes());
    Ok(out.extend_from_slice(low)?)
}

/// Appends the integer in so many bytes, the lowest first, in two's complement. Errors: `Mismatch`,
/// where it does not fit them; `Memory`, where an allocation failed.
pub fn signed(width: IntegerWidth, n: i128, out: &mut Vec<u8>) -> Result<(), PartError>
    ensures ok { OnOk result (Appends (signed (width_of width) n) out.old.items out.new.items) }
    ensures err { IfErr result (Fails (signed (width_of width) n) []) }
    ensures same { OnErr result (out.new.items ≡ out.old.items) }
{
    let all = n.to_le_bytes();
    let (low, _) = all.split_at(width.bytes());
    if with_sign(width, little_endian(low)) != n {
        return Err(PartError::Mismatch);
    }
    Ok(out.extend_from_slice(low)?)
}

/// How many bytes the integer takes, at least 4.
fn width_from_four(n: u128) -> usize
    ensures { result ≡ first_width 12 4 n }
{
    let mut width = 4;
    let mut high = n / 4294967296;
    while high > 0 {
        high /= 256;
        width += 1;
    }
    width
}

/// Appends the integer after a byte that says how many bytes it takes.
fn many_bytes(n: u128, out: &mut Vec<u8>) -> Result<(), PartError>
    ensures ok { OnOk result
        (Appends (written (many_bytes (first_width 12 4 n) n)) out.old.items out.new.items) }
    ensures err { IfErr result (Fails (written (many_bytes (first_width 12 4 n) n)) []) }
    ensures same { OnErr result (out.new.items ≡ out.old.items) }
{
    let width = width_from_four(n);
    let all = n.to_le_bytes();
    let (low, _) = all.split_at(width);
    let start = out.len();
    out.push(4 * (width as u8 - 4) + 3)?;
    let appended = out.extend_from_slice(low);
    if appended.is_err() {
        out.truncate(start);
    }
    Ok(appended?)
}

/// Appends the compact integer, in its shortest form. Error: `Memory`, where an allocation failed.
pub fn compact(n: u128, out: &mut Vec<u8>) -> Result<(), PartError>
    ensures ok { OnOk result (Appends (written (compact_bytes n)) out.old.items out.new.items) }
    ensures err { IfErr result (Fails (written (compact_bytes n)) []) }
    ensures same { OnErr result (out.new.items ≡ out.old.items) }
{
    if n <= 4294967295 {
        return Ok(encode_compact(out, n as u32)?);
    }
    many_bytes(n, out)
}

/// Appends how many items follow. Errors: `Mismatch`, where they are more than 4294967295;
/// `Memory`, where an allocation failed.
pub fn count(items: usize, out: &mut Vec<u8>) -> Result<(), PartError>
    ensures ok { OnOk result (Appends (count items) out.old.items out.new.items) }
    ensures err { IfErr result (Fails (count items) []) }
    ensures same { OnErr result (out.new.items ≡ out.old.items) }
{
    if items > 4294967295 {
        return Err(PartError::Mismatch);
    }
    Ok(encode_compact(out, items as u32)?)
}
