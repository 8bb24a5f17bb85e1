//! Values that borrow, copied.
ghost use Rattle.std.specs.Prelude.{◌≡◌, map, IfOk};
ghost use Rattle.std.specs.Option.{option_copied};
ghost use Rattle.scale_info_value.specs.declared.value.Value.TheVariants as Values;
ghost use Rattle.scale_info_value_borrowed.specs.IntegerLists.{integers_of, value_of_integer};
ghost use Rattle.scale_info_value_borrowed.specs.BorrowedValues.{owned_value, field_of};

use crate::borrowed::ValueRef;
use crate::integers::{Integer, Integers};
use scale_info_collections::items::Items;
use scale_info_collections::text::Text;
use scale_info_value::value::Value;
use std::alloc::{AllocError, Global};

/// A copy of the value that owns all that it holds.
#[cycle(owned)]
pub(crate) fn owned(alloc: Global, value: &ValueRef<'_, '_>) -> Result<Value, AllocError>
    ensures { IfOk result (λ copy. copy ≡ owned_value value.now) }
{
    match value {
        ValueRef::Bool(truth) => Ok(Value::Bool(*truth)),
        ValueRef::Unsigned(integer) => Ok(Value::Unsigned(*integer)),
        ValueRef::Signed(integer) => Ok(Value::Signed(*integer)),
        ValueRef::Text(text) => Ok(Value::Text(Text::from_str(alloc, text)?)),
        ValueRef::Bytes(all) => Ok(Value::List(bytes(alloc, all)?)),
        ValueRef::Integers(all) => Ok(Value::List(integers(alloc, all)?)),
        ValueRef::List(items) => Ok(Value::List(values(alloc, items.as_slice())?)),
        ValueRef::Record(all) => Ok(Value::Record(fields(alloc, all.as_slice())?)),
        ValueRef::Variant {
            name,
            index,
            fields: all,
        } => {
            let fields = fields(alloc, all.as_slice())?;
            let name = Text::from_str(alloc, name)?;
            Ok(Value::Variant {
                name,
                index: *index,
                fields,
            })
        }
    }
}

/// The list of the bytes.
fn bytes(alloc: Global, all: &[u8]) -> Result<Items<Value>, AllocError>
    ensures { IfOk result (λ copies. copies ≡ map Values.Unsigned all.now) }
{
    let mut copies = Items::with_capacity(alloc, all.len())?;
    for byte in all {
        copies.push(Value::Unsigned(*byte as u128))?;
    }
    Ok(copies)
}

/// The list of the integers.
fn integers(alloc: Global, all: &Integers<'_>) -> Result<Items<Value>, AllocError>
    ensures { IfOk result (λ copies. copies ≡ integers_of all.now) }
{
    let count = all.len();
    let mut copies = Items::with_capacity(alloc, count)?;
    for index in 0..count {
        copies.push(integer_value(all.item(index)))?;
    }
    Ok(copies)
}

/// The integer, as a value.
fn integer_value(integer: Integer) -> Value
    ensures { result ≡ value_of_integer integer }
{
    match integer {
        Integer::Unsigned(integer) => Value::Unsigned(integer),
        Integer::Signed(integer) => Value::Signed(integer),
    }
}

/// Copies of values, in order.
#[cycle(owned)]
fn values(alloc: Global, all: &[ValueRef<'_, '_>]) -> Result<Items<Value>, AllocError>
    ensures { IfOk result (λ copies. copies ≡ map owned_value all.now) }
{
    let mut copies = Items::with_capacity(alloc, all.len())?;
    for value in all {
        copies.push(owned(alloc, value)?)?;
    }
    Ok(copies)
}

/// Copies of fields, in order, each under a copy of its name.
#[cycle(owned)]
fn fields(
    alloc: Global,
    all: &[(Option<&str>, ValueRef<'_, '_>)],
) -> Result<Items<(Option<Text>, Value)>, AllocError>
    ensures { IfOk result (λ copies. copies ≡ map field_of all.now) }
{
    let mut copies = Items::with_capacity(alloc, all.len())?;
    for field in all {
        let value = owned(alloc, &field.1)?;
        copies.push((owned_name(alloc, field.0)?, value))?;
    }
    Ok(copies)
}

/// A copy of a name, if there is one.
fn owned_name(alloc: Global, name: Option<&str>) -> Result<Option<Text>, AllocError>
    ensures { IfOk result (λ copy. copy ≡ option_copied name.entry) }
{
    match name {
        None => Ok(None),
        Some(name) => Ok(Some(Text::from_str(alloc, name)?)),
    }
}
