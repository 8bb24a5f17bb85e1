//! Lists of values of one primitive type.
ghost use Rattle.std.specs.Prelude.{◌≡◌, List, ℕ, length, replicate, IfOk, IfErr};
ghost use Rattle.std.specs.Int.{byte_len};
ghost use Rattle.scale_info_value.specs.Outcomes.{decoded, in_turn, IsValueOf, IsErrorOf};
ghost use Rattle.scale_info_value.specs.IntegerWidths.{width_of, integer_of, integer_within};
ghost use Rattle.scale_info_value.specs.ValueDefinitions.{truth, primitive};

use crate::integer::{IntegerWidth, at_once, little_endian, with_sign};
use crate::primitive::{primitive, truth};
use crate::value::{Value, ValueError};
use scale_info_collections::items::Items;
use scale_info_types::ty::TypeDefPrimitive;
use std::alloc::Global;

/// The integer in these bytes, the lowest first; in two's complement where it has a sign.
#[inline(always)]
fn number(width: IntegerWidth, signed: bool, bytes: &[u8]) -> Value
    requires { length bytes.now ≡ byte_len (width_of width) }
    ensures { result ≡ integer_of width signed bytes.now }
{
    let integer = match at_once(bytes) {
        Some(integer) => integer,
        None => little_endian(bytes),
    };
    if signed {
        Value::Signed(with_sign(width, integer))
    } else {
        Value::Unsigned(integer)
    }
}

/// So many values of a primitive type that are integers of so many bytes, and the rest. All bytes
/// are there before room is made, so the room is bounded by the input.
#[inline(always)]
fn integers<'a>(
    alloc: Global,
    kind: &TypeDefPrimitive,
    form: IntegerWidth,
    signed: bool,
    count: u32,
    input: &'a [u8],
) -> Result<(Items<Value>, &'a [u8]), ValueError>
    requires { (bytes : List ℕ) → primitive kind.now bytes ≡ integer_within form signed bytes }
    ensures ok { IfOk result (IsValueOf
        (in_turn (replicate count (primitive kind.now)) input.now)) }
    ensures err { IfErr result
        (IsErrorOf (in_turn (replicate count (primitive kind.now)) input.now)) }
{
    let width = form.bytes();
    if input.len() < count as usize * width {
        return Err(ValueError::Malformed);
    }
    let mut values = Vec::with_capacity(alloc, count as usize)?;
    let mut rest = input;
    for _ in 0..count {
        let (bytes, after) = rest.split_at(width);
        values.push_reserved(number(form, signed, bytes));
        rest = after;
    }
    Ok((Items::from(values), rest))
}

/// So many truth values, and the rest. The room is bounded by the input, as that of integers is.
#[inline(always)]
fn truths(alloc: Global, count: u32, input: &[u8]) -> Result<(Items<Value>, &[u8]), ValueError>
    ensures ok { IfOk result (IsValueOf (in_turn (replicate count truth) input.now)) }
    ensures err { IfErr result (IsErrorOf (in_turn (replicate count truth) input.now)) }
{
    if input.len() < count as usize {
        return Err(ValueError::Malformed);
    }
    let mut values = Vec::with_capacity(alloc, count as usize)?;
    let mut rest = input;
    for _ in 0..count {
        let (value, after) = truth(rest)?;
        values.push_reserved(Value::Bool(value));
        rest = after;
    }
    Ok((Items::from(values), rest))
}

/// So many values of a primitive type, one by one, and the rest.
fn each<'a>(
    alloc: Global,
    kind: &TypeDefPrimitive,
    count: u32,
    input: &'a [u8],
) -> Result<(Items<Value>, &'a [u8]), ValueError>
    ensures ok { IfOk result (IsValueOf
        (in_turn (replicate count (primitive kind.now)) input.now)) }
    ensures err { IfErr result
        (IsErrorOf (in_turn (replicate count (primitive kind.now)) input.now)) }
{
    let mut values = Items::new(alloc);
    let mut rest = input;
    for _ in 0..count {
        let (value, after) = primitive(alloc, kind, rest)?;
        values.push_towards(count as usize, value)?;
        rest = after;
    }
    Ok((values, rest))
}

/// So many values of a primitive type, and the rest. Not inlined, so that its loops take no stack
/// at each level of a value.
#[inline(never)]
pub(crate) fn primitives<'a>(
    alloc: Global,
    kind: &TypeDefPrimitive,
    count: u32,
    input: &'a [u8],
) -> Result<(Items<Value>, &'a [u8]), ValueError>
    ensures ok { IfOk result (λ found.
        in_turn (replicate count (primitive kind.now)) input.now ≡ decoded found.0 found.1.now) }
    ensures err { IfErr result
        (IsErrorOf (in_turn (replicate count (primitive kind.now)) input.now)) }
{
    match kind {
        TypeDefPrimitive::Bool => truths(alloc, count, input),
        TypeDefPrimitive::U8 => integers(alloc, kind, IntegerWidth::One, false, count, input),
        TypeDefPrimitive::U16 => integers(alloc, kind, IntegerWidth::Two, false, count, input),
        TypeDefPrimitive::U32 => integers(alloc, kind, IntegerWidth::Four, false, count, input),
        TypeDefPrimitive::U64 => integers(alloc, kind, IntegerWidth::Eight, false, count, input),
        TypeDefPrimitive::U128 => integers(alloc, kind, IntegerWidth::Sixteen, false, count, input),
        TypeDefPrimitive::I8 => integers(alloc, kind, IntegerWidth::One, true, count, input),
        TypeDefPrimitive::I16 => integers(alloc, kind, IntegerWidth::Two, true, count, input),
        TypeDefPrimitive::I32 => integers(alloc, kind, IntegerWidth::Four, true, count, input),
        TypeDefPrimitive::I64 => integers(alloc, kind, IntegerWidth::Eight, true, count, input),
        TypeDefPrimitive::I128 => integers(alloc, kind, IntegerWidth::Sixteen, true, count, input),
        _ => each(alloc, kind, count, input),
    }
}
