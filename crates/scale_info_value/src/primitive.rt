//! Values of primitive types, which have no parts.
ghost use Rattle.std.specs.Prelude.{◌≡◌, ◌≤◌, ◌+◌, length, IfOk, IfErr};
ghost use Rattle.std.specs.Int.{byte_len};
ghost use Rattle.scale_info_value.specs.declared.value.Value.TheVariants as Values;
ghost use Rattle.scale_info_value.specs.Outcomes.{decoded, failed, IsErrorOf};
ghost use Rattle.scale_info_value.specs.IntegerWidths.{width_of, integer_of, integer_within};
ghost use Rattle.scale_info_value.specs.ValueDefinitions.{truth, text, primitive};
ghost use Rattle.scale_info_value.specs.PrimitiveValues.{owned_value, IsInRange};

use crate::integer::{IntegerWidth, byte, bytes, count, little_endian, with_sign};
use crate::value::{Failure, Value, ValueError};
use scale_info_bytes::utf8::from_utf8;
use scale_info_collections::text::Text;
use scale_info_types::ty::TypeDefPrimitive;
use std::alloc::{AllocError, Global};

/// A value of a primitive type, which has no parts.
#[derive(Clone, Copy)]
pub enum PrimitiveValue<'a> {
    /// A truth value.
    Bool(bool),
    /// An integer of an unsigned type.
    Unsigned(u128),
    /// An integer of a signed type.
    Signed(i128),
    /// A text, which is part of the input.
    Text(&'a str),
}

/// A text, and the rest.
fn text(input: &[u8]) -> Result<(PrimitiveValue<'_>, &[u8]), Failure>
    ensures ok { IfOk result
        (λ found. text input.now ≡ decoded (owned_value found.0) found.1.now) }
    ensures range { IfOk result (λ found. IsInRange found.0) }
    ensures err { IfErr result (λ why. text input.now ≡ failed why) }
{
    let (count, rest) = count(input)?;
    let (all, after) = bytes(count as usize, rest)?;
    match from_utf8(all) {
        Ok(text) => Ok((PrimitiveValue::Text(text), after)),
        Err(_) => Err(Failure::Malformed),
    }
}

/// A truth value, and the rest. Error: `Malformed`, where the first byte is neither 0 nor 1, or
/// missing.
#[inline(always)]
pub fn truth(input: &[u8]) -> Result<(bool, &[u8]), Failure>
    ensures ok { IfOk result
        (λ found. truth input.now ≡ decoded (Values.Bool found.0) found.1.now) }
    ensures err { IfErr result (λ why. truth input.now ≡ failed why) }
{
    let (byte, rest) = byte(input)?;
    match byte {
        0 => Ok((false, rest)),
        1 => Ok((true, rest)),
        _ => Err(Failure::Malformed),
    }
}

/// The integer in these bytes, the lowest first; in two's complement where it has a sign.
#[inline(always)]
fn integer_of<'a>(width: IntegerWidth, signed: bool, bytes: &[u8]) -> PrimitiveValue<'a>
    requires { length bytes.now ≡ byte_len (width_of width) }
    ensures value { owned_value result ≡ integer_of width signed bytes.now }
    ensures range { IsInRange result }
{
    let integer = little_endian(bytes);
    if signed {
        PrimitiveValue::Signed(with_sign(width, integer))
    } else {
        PrimitiveValue::Unsigned(integer)
    }
}

/// The integer of so many bytes at the start of the input, which has them, and the rest.
#[inline(always)]
pub fn split_integer(width: IntegerWidth, signed: bool, input: &[u8]) -> (PrimitiveValue<'_>, &[u8])
    requires { byte_len (width_of width) ≤ length input.now }
    ensures value { integer_within width signed input.now
        ≡ decoded (owned_value result.0) result.1.now }
    ensures range { IsInRange result.0 }
    ensures rest { length result.1.now + byte_len (width_of width) ≡ length input.now }
{
    let (bytes, rest) = input.split_at(width.bytes());
    (integer_of(width, signed, bytes), rest)
}

/// An integer of so many bytes, and the rest.
#[inline(always)]
fn integer(
    width: IntegerWidth,
    signed: bool,
    input: &[u8],
) -> Result<(PrimitiveValue<'_>, &[u8]), Failure>
    ensures ok { IfOk result (λ found.
        integer_within width signed input.now ≡ decoded (owned_value found.0) found.1.now) }
    ensures range { IfOk result (λ found. IsInRange found.0) }
    ensures err { IfErr result (λ why. integer_within width signed input.now ≡ failed why) }
{
    if input.len() < width.bytes() {
        return Err(Failure::Malformed);
    }
    Ok(split_integer(width, signed, input))
}

/// The value of a primitive type at the start of the input, and the rest. It does not allocate.
///
/// Errors: `Unsupported`, where values of the type are not decoded; `Malformed`, where no prefix of
/// the input is a value of the type.
#[inline(always)]
pub fn read_primitive<'a>(
    kind: &TypeDefPrimitive,
    input: &'a [u8],
) -> Result<(PrimitiveValue<'a>, &'a [u8]), Failure>
    ensures ok { IfOk result
        (λ found. primitive kind.now input.now ≡ decoded (owned_value found.0) found.1.now) }
    ensures range { IfOk result (λ found. IsInRange found.0) }
    ensures err { IfErr result (λ why. primitive kind.now input.now ≡ failed why) }
{
    match kind {
        TypeDefPrimitive::Bool => {
            let (value, rest) = truth(input)?;
            Ok((PrimitiveValue::Bool(value), rest))
        }
        TypeDefPrimitive::Str => text(input),
        TypeDefPrimitive::U8 => integer(IntegerWidth::One, false, input),
        TypeDefPrimitive::U16 => integer(IntegerWidth::Two, false, input),
        TypeDefPrimitive::U32 => integer(IntegerWidth::Four, false, input),
        TypeDefPrimitive::U64 => integer(IntegerWidth::Eight, false, input),
        TypeDefPrimitive::U128 => integer(IntegerWidth::Sixteen, false, input),
        TypeDefPrimitive::I8 => integer(IntegerWidth::One, true, input),
        TypeDefPrimitive::I16 => integer(IntegerWidth::Two, true, input),
        TypeDefPrimitive::I32 => integer(IntegerWidth::Four, true, input),
        TypeDefPrimitive::I64 => integer(IntegerWidth::Eight, true, input),
        TypeDefPrimitive::I128 => integer(IntegerWidth::Sixteen, true, input),
        TypeDefPrimitive::Char | TypeDefPrimitive::U256 | TypeDefPrimitive::I256 => {
            Err(Failure::Unsupported)
        }
    }
}

/// The value, with a text of its own.
#[inline(always)]
fn owned(alloc: Global, value: PrimitiveValue<'_>) -> Result<Value, AllocError>
    requires { IsInRange value }
    ensures { IfOk result (λ copy. copy ≡ owned_value value.entry) }
{
    match value {
        PrimitiveValue::Bool(v) => Ok(Value::Bool(v)),
        PrimitiveValue::Unsigned(v) => Ok(Value::Unsigned(v)),
        PrimitiveValue::Signed(v) => Ok(Value::Signed(v)),
        PrimitiveValue::Text(v) => Ok(Value::Text(Text::from(String::from_str(alloc, v)?))),
    }
}

/// A value of a primitive type, and the rest. Not inlined, so that it takes no stack at each level
/// of a value.
#[inline(never)]
pub(crate) fn primitive<'a>(
    alloc: Global,
    kind: &TypeDefPrimitive,
    input: &'a [u8],
) -> Result<(Value, &'a [u8]), ValueError>
    ensures ok { IfOk result (λ found. primitive kind.now input.now ≡ decoded found.0 found.1.now) }
    ensures err { IfErr result (IsErrorOf (primitive kind.now input.now)) }
{
    let (value, rest) = read_primitive(kind, input)?;
    Ok((owned(alloc, value)?, rest))
}
