//! Values of primitive types, alone and in lists.
ghost use Rattle.std.specs.Prelude.{◌≡◌, List, ℕ, [], replicate, map, IfOk, IfErr, IfSome};
ghost use Rattle.scale_info_value.specs.declared.value.Value.TheVariants as Values;
ghost use Rattle.scale_info_value.specs.Outcomes.{decoded, failed, in_turn, outcome_map};
ghost use Rattle.scale_info_value.specs.Outcomes.{IsErrorOf};
ghost use Rattle.scale_info_value.specs.PrimitiveValues.{owned_value as owned_primitive, IsInRange};
ghost use Rattle.scale_info_value.specs.IntegerWidths.{integer_within};
ghost use Rattle.scale_info_value.specs.ValueDefinitions.{primitive};
ghost use Rattle.scale_info_value_borrowed.specs.IntegerLists.{integers_of};
ghost use Rattle.scale_info_value_borrowed.specs.BorrowedValues.{owned_value};

use crate::borrowed::ValueRef;
use crate::integers::{IntegerWidth, Integers};
use scale_info_collections::items::Items;
use scale_info_types::form::PortableForm;
use scale_info_types::ty::{TypeDef, TypeDefPrimitive};
use scale_info_value::integer::bytes;
use scale_info_value::primitive::{PrimitiveValue, read_primitive};
use scale_info_value::value::{Failure, ValueError};
use std::alloc::Global;

/// The value, which has no parts.
fn borrowed<'t, 'i>(value: PrimitiveValue<'i>) -> ValueRef<'t, 'i>
    requires { IsInRange value }
    ensures { owned_value result ≡ owned_primitive value.entry }
{
    match value {
        PrimitiveValue::Bool(v) => ValueRef::Bool(v),
        PrimitiveValue::Unsigned(v) => ValueRef::Unsigned(v),
        PrimitiveValue::Signed(v) => ValueRef::Signed(v),
        PrimitiveValue::Text(v) => ValueRef::Text(v),
    }
}

/// A value of a primitive type, and the rest. Not inlined, so that it takes no stack at each level
/// of a value.
#[inline(never)]
pub(crate) fn primitive<'t, 'i>(
    kind: &'t TypeDefPrimitive,
    input: &'i [u8],
) -> Result<(ValueRef<'t, 'i>, &'i [u8]), ValueError>
    ensures ok { IfOk result
        (λ found. primitive kind.now input.now ≡ decoded (owned_value found.0) found.1.now) }
    ensures err { IfErr result (IsErrorOf (primitive kind.now input.now)) }
{
    let (value, rest) = read_primitive(kind, input)?;
    Ok((borrowed(value), rest))
}

/// How many bytes an integer of the type takes, and whether it has a sign; None where values of the
/// type are no integers of up to 128 bits.
fn integer_form(kind: &TypeDefPrimitive) -> Option<(IntegerWidth, bool)>
    ensures { IfSome result (λ form. (bytes : List ℕ)
        → primitive kind.now bytes ≡ integer_within form.0 form.1 bytes) }
{
    match kind {
        TypeDefPrimitive::U8 => Some((IntegerWidth::One, false)),
        TypeDefPrimitive::U16 => Some((IntegerWidth::Two, false)),
        TypeDefPrimitive::U32 => Some((IntegerWidth::Four, false)),
        TypeDefPrimitive::U64 => Some((IntegerWidth::Eight, false)),
        TypeDefPrimitive::U128 => Some((IntegerWidth::Sixteen, false)),
        TypeDefPrimitive::I8 => Some((IntegerWidth::One, true)),
        TypeDefPrimitive::I16 => Some((IntegerWidth::Two, true)),
        TypeDefPrimitive::I32 => Some((IntegerWidth::Four, true)),
        TypeDefPrimitive::I64 => Some((IntegerWidth::Eight, true)),
        TypeDefPrimitive::I128 => Some((IntegerWidth::Sixteen, true)),
        _ => None,
    }
}

/// The list of the integers.
fn list_of<'t, 'i>(integers: Integers<'i>) -> ValueRef<'t, 'i>
    ensures { owned_value result ≡ Values.List (integers_of integers.entry) }
{
    match integers.width {
        IntegerWidth::One if !integers.signed => ValueRef::Bytes(integers.bytes),
        _ => ValueRef::Integers(integers),
    }
}

/// So many integers in the input, and the rest.
fn integers<'t, 'i>(
    width: IntegerWidth,
    signed: bool,
    count: u32,
    input: &'i [u8],
) -> Result<(ValueRef<'t, 'i>, &'i [u8]), Failure>
    ensures ok { IfOk result (λ found.
        outcome_map Values.List
        (in_turn (replicate count (integer_within width signed)) input.now)
        ≡ decoded (owned_value found.0) found.1.now) }
    ensures err { IfErr result (λ why.
        in_turn (replicate count (integer_within width signed)) input.now ≡ failed why) }
{
    let (bytes, rest) = bytes(count as usize * width.bytes(), input)?;
    let integers = Integers {
        bytes,
        width,
        signed,
    };
    Ok((list_of(integers), rest))
}

/// So many values of a primitive type, one by one, and the rest.
fn each<'t, 'i>(
    alloc: Global,
    kind: &'t TypeDefPrimitive,
    count: u32,
    input: &'i [u8],
) -> Result<(Items<ValueRef<'t, 'i>>, &'i [u8]), ValueError>
    ensures ok { IfOk result (λ found.
        in_turn (replicate count (primitive kind.now)) input.now
        ≡ decoded (map owned_value found.0) found.1.now) }
    ensures err { IfErr result
        (IsErrorOf (in_turn (replicate count (primitive kind.now)) input.now)) }
{
    let mut values = Items::new(alloc);
    let mut rest = input;
    for _ in 0..count {
        let (value, after) = primitive(kind, rest)?;
        values.push_towards(count as usize, value)?;
        rest = after;
    }
    Ok((values, rest))
}

/// The list of so many values of a primitive type, and the rest. Not inlined, so that its loop
/// takes no stack at each level of a value.
#[inline(never)]
pub(crate) fn primitives<'t, 'i>(
    alloc: Global,
    kind: &'t TypeDefPrimitive,
    count: u32,
    input: &'i [u8],
) -> Result<(ValueRef<'t, 'i>, &'i [u8]), ValueError>
    ensures ok { IfOk result (λ found.
        outcome_map Values.List (in_turn (replicate count (primitive kind.now)) input.now)
        ≡ decoded (owned_value found.0) found.1.now) }
    ensures err { IfErr result
        (IsErrorOf (in_turn (replicate count (primitive kind.now)) input.now)) }
{
    match integer_form(kind) {
        Some((width, signed)) => Ok(integers(width, signed, count, input)?),
        None => {
            let (values, rest) = each(alloc, kind, count, input)?;
            Ok((ValueRef::List(values), rest))
        }
    }
}

/// The list with no item, of values by this definition, if there is one: no bytes or no integers
/// where the values are such.
pub(crate) fn no_items<'t, 'i>(
    alloc: Global,
    definition: Option<&'t TypeDef<PortableForm>>,
) -> ValueRef<'t, 'i>
    ensures { owned_value result ≡ Values.List [] }
{
    if let Some(TypeDef::Primitive(kind)) = definition
        && let Some((width, signed)) = integer_form(kind)
    {
        return list_of(Integers {
            bytes: &[],
            width,
            signed,
        });
    }
    ValueRef::List(Items::new(alloc))
}
