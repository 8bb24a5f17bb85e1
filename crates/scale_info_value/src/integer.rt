//! Integers at the start of bytes.
ghost use Rattle.std.specs.Prelude.{◌≡◌, ◌<◌, ◌≤◌, ◌^◌, ◌+◌, length, IfOk, IfErr};
ghost use Rattle.std.specs.Prelude.{IfSome, FitsSigned};
ghost use Rattle.std.specs.Int.{byte_len, cast_signed, w128};
ghost use Rattle.scale_info_value.specs.Outcomes.{decoded, failed};
ghost use Rattle.scale_info_value.specs.IntegerDecoders.{byte, bytes, little_endian, integer};
ghost use Rattle.scale_info_value.specs.IntegerDecoders.{at_least};
ghost use Rattle.scale_info_value.specs.IntegerDecoders.{compact_after, compact, compact_below};
ghost use Rattle.scale_info_value.specs.IntegerDecoders.{count};
ghost use Rattle.scale_info_value.specs.IntegerWidths.{width_of};

use crate::value::Failure;

/// How many bytes an integer takes.
#[derive(Clone, Copy)]
pub enum IntegerWidth {
    /// One byte.
    One,
    /// Two bytes.
    Two,
    /// Four bytes.
    Four,
    /// Eight bytes.
    Eight,
    /// Sixteen bytes.
    Sixteen,
}

impl IntegerWidth {
    /// The number of bytes.
    #[inline(always)]
    pub fn bytes(self) -> usize
        ensures { result ≡ byte_len (width_of self) }
    {
        match self {
            IntegerWidth::One => 1,
            IntegerWidth::Two => 2,
            IntegerWidth::Four => 4,
            IntegerWidth::Eight => 8,
            IntegerWidth::Sixteen => 16,
        }
    }
}

/// The first byte, and the rest. Error: `Malformed`, where there is none.
pub fn byte(input: &[u8]) -> Result<(u8, &[u8]), Failure>
    ensures ok { IfOk result (λ found. byte input.now ≡ decoded found.0 found.1.now) }
    ensures err { IfErr result (λ why. byte input.now ≡ failed why) }
{
    match input {
        [] => Err(Failure::Malformed),
        [first, rest @ ..] => Ok((*first, rest)),
    }
}

/// So many bytes, and the rest. Error: `Malformed`, where there are fewer.
pub fn bytes(count: usize, input: &[u8]) -> Result<(&[u8], &[u8]), Failure>
    ensures ok { IfOk result (λ found. bytes count input.now ≡ decoded found.0.now found.1.now) }
    ensures len { IfOk result (λ found. length found.0.now ≡ count) }
    ensures err { IfErr result (λ why. bytes count input.now ≡ failed why) }
{
    if input.len() < count {
        return Err(Failure::Malformed);
    }
    Ok(input.split_at(count))
}

/// An integer by its bytes, the lowest first, which are taken at once; None where they are not one,
/// two, four or eight. Inlined, so that where their number is known one case is left.
#[inline(always)]
pub(crate) fn at_once(bytes: &[u8]) -> Option<u128>
    ensures integer { IfSome result (λ n. n ≡ little_endian bytes.now) }
    ensures bound { IfSome result (λ n. n < 256 ^ length bytes.now) }
{
    match bytes {
        [only] => Some(*only as u128),
        [a, b] => Some(u16::from_le_bytes([*a, *b]) as u128),
        [a, b, c, d] => Some(u32::from_le_bytes([*a, *b, *c, *d]) as u128),
        [a, b, c, d, e, f, g, h] => {
            Some(u64::from_le_bytes([*a, *b, *c, *d, *e, *f, *g, *h]) as u128)
        }
        _ => None,
    }
}

/// An integer by its bytes, the lowest first. Where they are as many as those of a built-in type,
/// they are taken at once.
pub fn little_endian(bytes: &[u8]) -> u128
    requires { length bytes.now ≤ 16 }
    ensures integer { result ≡ little_endian bytes.now }
    ensures bound { result < 256 ^ length bytes.now }
{
    if let Some(integer) = at_once(bytes) {
        return integer;
    }
    match bytes {
        [] => 0,
        halves if halves.len() == 16 => {
            let (low, high) = halves.split_at(8);
            little_endian(low) + 18446744073709551616 * little_endian(high)
        }
        [low, high @ ..] => *low as u128 + 256 * little_endian(high),
    }
}

/// The integer that this one encodes in two's complement.
#[inline(always)]
pub fn with_sign(width: IntegerWidth, n: u128) -> i128
    requires { n < 256 ^ byte_len (width_of width) }
    ensures integer { result ≡ cast_signed (width_of width) n }
    ensures range { FitsSigned w128 result }
{
    match width {
        IntegerWidth::One => (n as u8).cast_signed() as i128,
        IntegerWidth::Two => (n as u16).cast_signed() as i128,
        IntegerWidth::Four => (n as u32).cast_signed() as i128,
        IntegerWidth::Eight => (n as u64).cast_signed() as i128,
        IntegerWidth::Sixteen => n.cast_signed(),
    }
}

/// An integer in so many bytes, the lowest first, and the rest.
pub(crate) fn integer(width: usize, input: &[u8]) -> Result<(u128, &[u8]), Failure>
    requires { width ≤ 16 }
    ensures ok { IfOk result (λ found. integer width input.now ≡ decoded found.0 found.1.now) }
    ensures bound { IfOk result (λ found. found.0 < 256 ^ width) }
    ensures err { IfErr result (λ why. integer width input.now ≡ failed why) }
{
    let (all, rest) = bytes(width, input)?;
    Ok((little_endian(all), rest))
}

/// What follows the first byte of a compact integer.
fn compact_after(mode: u8, high: u8, input: &[u8]) -> Result<(u128, &[u8]), Failure>
    requires mode { mode < 4 }
    requires high { high < 64 }
    ensures ok { IfOk result
        (λ found. compact_after mode high input.now ≡ decoded found.0 found.1.now) }
    ensures err { IfErr result (λ why. compact_after mode high input.now ≡ failed why) }
{
    match mode {
        0 => Ok((high as u128, input)),
        1 => {
            let (more, rest) = integer(1, input)?;
            at_least(64, high as u128 + 64 * more, rest)
        }
        2 => {
            let (more, rest) = integer(3, input)?;
            at_least(16384, high as u128 + 64 * more, rest)
        }
        _ => {
            if high > 12 {
                return Err(Failure::Malformed);
            }
            let (n, rest) = integer(high as usize + 4, input)?;
            let least = 256u128.pow(high as u32 + 3);
            at_least(least.max(1073741824), n, rest)
        }
    }
}

/// The integer, where it is not below the least.
fn at_least(least: u128, n: u128, rest: &[u8]) -> Result<(u128, &[u8]), Failure>
    ensures ok { IfOk result (λ found. at_least least n rest.now ≡ decoded found.0 found.1.now) }
    ensures err { IfErr result (λ why. at_least least n rest.now ≡ failed why) }
{
    if n < least {
        return Err(Failure::Malformed);
    }
    Ok((n, rest))
}

/// A compact integer, and the rest.
fn compact(input: &[u8]) -> Result<(u128, &[u8]), Failure>
    ensures ok { IfOk result (λ found. compact input.now ≡ decoded found.0 found.1.now) }
    ensures err { IfErr result (λ why. compact input.now ≡ failed why) }
{
    let (first, rest) = byte(input)?;
    compact_after(first % 4, first / 4, rest)
}

/// A compact integer that is at most this one, and the rest.
pub(crate) fn compact_up_to(most: u128, input: &[u8]) -> Result<(u128, &[u8]), Failure>
    ensures ok { IfOk result
        (λ found. compact_below (most + 1) input.now ≡ decoded found.0 found.1.now) }
    ensures bound { IfOk result (λ found. found.0 ≤ most) }
    ensures err { IfErr result (λ why. compact_below (most + 1) input.now ≡ failed why) }
{
    let (n, rest) = compact(input)?;
    if n > most {
        return Err(Failure::Malformed);
    }
    Ok((n, rest))
}

/// How many items or bytes follow, and the rest. Error: `Malformed`, where no prefix of the input
/// is the only compact encoding of an integer below 2 to the 32.
pub fn count(input: &[u8]) -> Result<(u32, &[u8]), Failure>
    ensures ok { IfOk result (λ found. count input.now ≡ decoded found.0 found.1.now) }
    ensures err { IfErr result (λ why. count input.now ≡ failed why) }
{
    let (n, rest) = compact_up_to(4294967295, input)?;
    Ok((n as u32, rest))
}
