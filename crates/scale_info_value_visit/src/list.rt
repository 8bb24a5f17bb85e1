//! Values of primitive types shown, alone and in lists.
ghost use Rattle.std.specs.Prelude.{◌≡◌, List, ℕ, replicate};
ghost use Rattle.scale_info_primitives.specs.declared.primitive.TypeDefPrimitive.TheVariants as kinds;
ghost use Rattle.scale_info_value.specs.IntegerWidths.{integer_within};
ghost use Rattle.scale_info_value.specs.PrimitiveValues.{owned_value, IsInRange};
ghost use Rattle.scale_info_value.specs.ValueDefinitions.{primitive};
ghost use Rattle.scale_info_value_visit.specs.Events.{events_of};
ghost use Rattle.scale_info_value_visit.specs.Reads.{each, primitive_read};
ghost use Rattle.scale_info_value_visit.specs.Visits.{HasReturned, HasShown};

use crate::visitor::{ValueVisitor, VisitError, shown};
use scale_info_types::ty::TypeDefPrimitive;
use scale_info_value::integer::IntegerWidth;
use scale_info_value::primitive::{PrimitiveValue, read_primitive, split_integer, truth};

/// Shows a value that has no parts.
#[inline(always)]
fn show<V: ValueVisitor>(value: PrimitiveValue<'_>, visitor: &mut V) -> Result<(), V::Error>
    requires { IsInRange value }
    ensures { HasReturned V.visited V.stopped
        (events_of (owned_value value.entry)) visitor.old visitor.new result }
{
    match value {
        PrimitiveValue::Bool(v) => visitor.truth(v),
        PrimitiveValue::Unsigned(v) => visitor.unsigned(v),
        PrimitiveValue::Signed(v) => visitor.signed(v),
        PrimitiveValue::Text(v) => visitor.text(v),
    }
}

/// Shows a value of a primitive type, and returns the rest.
pub(crate) fn primitive<'i, V: ValueVisitor>(
    kind: &TypeDefPrimitive,
    input: &'i [u8],
    visitor: &mut V,
) -> Result<&'i [u8], VisitError<V::Error>>
    ensures { HasShown V.visited V.stopped
        (primitive_read kind.now input.now) visitor.old visitor.new result }
{
    let (value, rest) = read_primitive(kind, input)?;
    shown(show(value, visitor))?;
    Ok(rest)
}

/// Shows so many values of a primitive type that are integers of so many bytes. Where all bytes are
/// there, none is looked for again; else the first that is missing is found one by one.
#[inline(always)]
fn integers<'i, V: ValueVisitor>(
    kind: &TypeDefPrimitive,
    form: IntegerWidth,
    signed: bool,
    count: u32,
    input: &'i [u8],
    visitor: &mut V,
) -> Result<&'i [u8], VisitError<V::Error>>
    requires { (bytes : List ℕ) → primitive kind.now bytes ≡ integer_within form signed bytes }
    ensures { HasShown V.visited V.stopped
        (each (replicate count (primitive_read kind.now)) input.now)
        visitor.old visitor.new result }
{
    let width = form.bytes();
    if input.len() < count as usize * width {
        return each(kind, count, input, visitor);
    }
    let mut rest = input;
    for _ in 0..count {
        let (value, after) = split_integer(form, signed, rest);
        shown(show(value, visitor))?;
        rest = after;
    }
    Ok(rest)
}

/// Shows so many truth values, each of which is a byte.
fn truths<'i, V: ValueVisitor>(
    count: u32,
    input: &'i [u8],
    visitor: &mut V,
) -> Result<&'i [u8], VisitError<V::Error>>
    ensures { HasShown V.visited V.stopped
        (each (replicate count (primitive_read kinds.Bool)) input.now)
        visitor.old visitor.new result }
{
    let mut rest = input;
    for _ in 0..count {
        let (value, after) = truth(rest)?;
        shown(visitor.truth(value))?;
        rest = after;
    }
    Ok(rest)
}

/// Shows so many values of a primitive type, one by one.
fn each<'i, V: ValueVisitor>(
    kind: &TypeDefPrimitive,
    count: u32,
    input: &'i [u8],
    visitor: &mut V,
) -> Result<&'i [u8], VisitError<V::Error>>
    ensures { HasShown V.visited V.stopped
        (each (replicate count (primitive_read kind.now)) input.now)
        visitor.old visitor.new result }
{
    let mut rest = input;
    for _ in 0..count {
        rest = primitive(kind, rest, visitor)?;
    }
    Ok(rest)
}

/// Shows so many values of a primitive type.
pub(crate) fn primitives<'i, V: ValueVisitor>(
    kind: &TypeDefPrimitive,
    count: u32,
    input: &'i [u8],
    visitor: &mut V,
) -> Result<&'i [u8], VisitError<V::Error>>
    ensures { HasShown V.visited V.stopped
        (each (replicate count (primitive_read kind.now)) input.now)
        visitor.old visitor.new result }
{
    match kind {
        TypeDefPrimitive::Bool => truths(count, input, visitor),
        TypeDefPrimitive::U16 => integers(kind, IntegerWidth::Two, false, count, input, visitor),
        TypeDefPrimitive::U32 => integers(kind, IntegerWidth::Four, false, count, input, visitor),
        TypeDefPrimitive::U64 => integers(kind, IntegerWidth::Eight, false, count, input, visitor),
        TypeDefPrimitive::U128 => integers(
            kind,
            IntegerWidth::Sixteen,
            false,
            count,
            input,
            visitor,
        ),
        TypeDefPrimitive::I8 => integers(kind, IntegerWidth::One, true, count, input, visitor),
        TypeDefPrimitive::I16 => integers(kind, IntegerWidth::Two, true, count, input, visitor),
        TypeDefPrimitive::I32 => integers(kind, IntegerWidth::Four, true, count, input, visitor),
        TypeDefPrimitive::I64 => integers(kind, IntegerWidth::Eight, true, count, input, visitor),
        TypeDefPrimitive::I128 => integers(
            kind,
            IntegerWidth::Sixteen,
            true,
            count,
            input,
            visitor,
        ),
        _ => each(kind, count, input, visitor),
    }
}
