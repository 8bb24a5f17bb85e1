//! Integers as bytes: of one byte, of four, and compact ones.
ghost use Rattle.std.specs.Prelude.{◌≡◌, ◌%◌, ◌∷◌, IfSome, IfNone, OnOk, OnErr};
ghost use Rattle.scale_info_bytes.specs.Encodings.{AppendsEncoding, HasPrefix, HasNoPrefix};
ghost use Rattle.scale_info_bytes.specs.Integers.{EncodesCompact, EncodesU8, EncodesU32};

use std::alloc::AllocError;

/// The byte at the start of the input, and the rest; None, if there is none.
#[inline]
pub fn decode_u8(input: &[u8]) -> Option<(u8, &[u8])>
    ensures some { IfSome result (λ found. HasPrefix (EncodesU8 found.0) input.now found.1.now) }
    ensures none { IfNone result (HasNoPrefix EncodesU8 input.now) }
{
    match input {
        [] => None,
        [byte, rest @ ..] => Some((*byte, rest)),
    }
}

/// The integer in four bytes at the start of the input, and the rest; None, if there are fewer.
#[inline]
pub fn decode_u32(input: &[u8]) -> Option<(u32, &[u8])>
    ensures some { IfSome result (λ found. HasPrefix (EncodesU32 found.0) input.now found.1.now) }
    ensures none { IfNone result (HasNoPrefix EncodesU32 input.now) }
{
    match input {
        [a, b, c, d, rest @ ..] => Some((u32::from_le_bytes([*a, *b, *c, *d]), rest)),
        _ => None,
    }
}

/// Two bytes, of which the first is there.
fn compact_of_two(first: u8, rest: &[u8]) -> Option<(u32, &[u8])>
    requires { first % 4 ≡ 1 }
    ensures some { IfSome result
        (λ found. HasPrefix (EncodesCompact found.0) (first ∷ rest.now) found.1.now) }
    ensures none { IfNone result (HasNoPrefix EncodesCompact (first ∷ rest.now)) }
{
    match rest {
        [second, rest @ ..] => {
            let integer = u16::from_le_bytes([first, *second]) / 4;
            if integer < 64 {
                None
            } else {
                Some((integer as u32, rest))
            }
        }
        [] => None,
    }
}

/// Four bytes, of which the first is there.
fn compact_of_four(first: u8, rest: &[u8]) -> Option<(u32, &[u8])>
    requires { first % 4 ≡ 2 }
    ensures some { IfSome result
        (λ found. HasPrefix (EncodesCompact found.0) (first ∷ rest.now) found.1.now) }
    ensures none { IfNone result (HasNoPrefix EncodesCompact (first ∷ rest.now)) }
{
    match rest {
        [second, third, fourth, rest @ ..] => {
            let integer = u32::from_le_bytes([first, *second, *third, *fourth]) / 4;
            if integer < 16384 {
                None
            } else {
                Some((integer, rest))
            }
        }
        _ => None,
    }
}

/// Five bytes, of which the first is there.
fn compact_of_five(first: u8, rest: &[u8]) -> Option<(u32, &[u8])>
    requires { first % 4 ≡ 3 }
    ensures some { IfSome result
        (λ found. HasPrefix (EncodesCompact found.0) (first ∷ rest.now) found.1.now) }
    ensures none { IfNone result (HasNoPrefix EncodesCompact (first ∷ rest.now)) }
{
    if first != 3 {
        return None;
    }
    match rest {
        [a, b, c, d, rest @ ..] => {
            let integer = u32::from_le_bytes([*a, *b, *c, *d]);
            if integer < 1073741824 {
                None
            } else {
                Some((integer, rest))
            }
        }
        _ => None,
    }
}

/// The compact integer at the start of the input, and the rest; None, if no prefix of the input
/// encodes an integer.
#[inline]
pub fn decode_compact(input: &[u8]) -> Option<(u32, &[u8])>
    ensures some { IfSome result
        (λ found. HasPrefix (EncodesCompact found.0) input.now found.1.now) }
    ensures none { IfNone result (HasNoPrefix EncodesCompact input.now) }
{
    match input {
        [] => None,
        [first, rest @ ..] => {
            let first = *first;
            match first % 4 {
                0 => Some((first as u32 / 4, rest)),
                1 => compact_of_two(first, rest),
                2 => compact_of_four(first, rest),
                _ => compact_of_five(first, rest),
            }
        }
    }
}

/// Appends an integer in as few bytes as it needs.
///
/// Errors: `AllocError`, if an allocation failed; then the output is as before.
pub fn encode_compact(out: &mut Vec<u8>, integer: u32) -> Result<(), AllocError>
    ensures ok { OnOk result
        (AppendsEncoding (EncodesCompact integer) out.old.items out.new.items) }
    ensures err { OnErr result (out.new.items ≡ out.old.items) }
{
    if integer < 64 {
        out.push(4 * integer as u8)?;
    } else if integer < 16384 {
        out.extend_from_slice(&(4 * integer as u16 + 1).to_le_bytes())?;
    } else if integer < 1073741824 {
        out.extend_from_slice(&(4 * integer + 2).to_le_bytes())?;
    } else {
        let [a, b, c, d] = integer.to_le_bytes();
        out.extend_from_slice(&[3, a, b, c, d])?;
    }
    Ok(())
}
