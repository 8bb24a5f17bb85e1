//! Values decoded by the definitions of their types.
ghost use Rattle.std.specs.Prelude.{◌≡◌, ◌≤◌, ◌∷◌, [], IfOk, IfErr, replicate};
ghost use Rattle.scale_info_types.specs.declared.ty.TypeDef.TheVariants as def;
ghost use Rattle.scale_info_value.specs.declared.value.Value.TheVariants as Values;
ghost use Rattle.scale_info_value.specs.declared.value.ValueError.TheVariants as error;
ghost use Rattle.scale_info_value.specs.Outcomes.{decoded, in_turn, IsErrorOf};
ghost use Rattle.scale_info_value.specs.Readings.{value_within, definition_within, fields_within};
ghost use Rattle.scale_info_value.specs.Readings.{variant_within, items_within, members_within};
ghost use Rattle.scale_info_value.specs.Readings.{pair_within, pairs_within, reading};

use crate::compact::compact_within;
use crate::definition::{Definitions, definition_of};
use crate::integer::{byte, count};
use crate::list::primitives;
use crate::primitive::primitive;
use crate::value::{Value, ValueError};
use crate::variants::variant_with_index;
use scale_info_collections::items::Items;
use scale_info_collections::text::Text;
use scale_info_collections::try_clone::TryClone;
use scale_info_identities::symbol::UntrackedSymbol;
use scale_info_identities::type_id::TypeId;
use scale_info_types::form::PortableForm;
use scale_info_types::ty::{
    Field, TypeDef, TypeDefArray, TypeDefCompact, TypeDefComposite, TypeDefMap, TypeDefSequence,
    TypeDefTuple, TypeDefVariant,
};
use std::alloc::Global;

/// Decodes one value of the type with this id from the start of the input, and returns it with the
/// rest.
///
/// An id is an index of the table that `table` stands for: a
/// [`PortableRegistry`](scale_info_table::portable::PortableRegistry) stands for itself, and what
/// was loaded of a table for that table (see [`Definitions`]). The parts of a value are decoded in
/// order, and the first error is returned. Allocates for parts already decoded, and for the
/// integers of a list once all their bytes are there, never for an announced count.
///
/// A value has depth 1, and each part of a value is one deeper than the value; at most 128 is
/// decoded. Nothing else bounds the work: values of some types take no bytes, so an array of
/// 4294967295 empty tuples, which is a table of two entries, is decoded from no input as a list of
/// that many empty lists. Against tables from outside, bound the lengths of arrays first.
///
/// Errors: `TooDeep`, where a value is more than 128 deep; `NoSuchType`, where an id is no index of
/// the table; `Unsupported`, where values of a type are not decoded; `Malformed`, where no prefix
/// of the input is a value of the type; `Memory`, where an allocation failed.
///
/// With a table that has `Vec<u32>` at index 0:
///
/// ```text
/// let input = [8, 1, 0, 0, 0, 2, 0, 0, 0, 255];
/// let (value, rest) = decode_value(alloc, &table, 0, &input)?;   // 1 and 2, and the rest [255]
/// ```
pub fn decode_value<'a, T: Definitions>(
    alloc: Global,
    table: &T,
    id: u32,
    input: &'a [u8],
) -> Result<(Value, &'a [u8]), ValueError>
    ensures ok { IfOk result
        (λ found. reading (T.table table.now) id 1 input.now ≡ decoded found.0 found.1.now) }
    ensures err { IfErr result (IsErrorOf (reading (T.table table.now) id 1 input.now)) }
{
    value_within(alloc, table, id, 128, input)
}

/// A value of the type with this id, and the rest, where so many levels are left.
#[cycle(value)]
#[inline(always)]
fn value_within<'a, T: Definitions>(
    alloc: Global,
    table: &T,
    id: u32,
    left: u8,
    input: &'a [u8],
) -> Result<(Value, &'a [u8]), ValueError>
    ensures ok { IfOk result
        (λ found. value_within left (T.table table.now) id input.now
        ≡ decoded found.0 found.1.now) }
    ensures err { IfErr result (IsErrorOf (value_within left (T.table table.now) id input.now)) }
{
    let definition = definition_of(table, id, left)?;
    value_by(alloc, table, definition, left, input)
}

/// A value by the definition of its type, and the rest.
///
/// Each kind of definition has a function of its own, which is not inlined, and its loop is inlined
/// into it: so a level of a value takes the stack of its own kind, and not that of all.
#[cycle(value)]
#[inline(never)]
fn value_by<'a, T: Definitions>(
    alloc: Global,
    table: &T,
    definition: &TypeDef<PortableForm>,
    left: u8,
    input: &'a [u8],
) -> Result<(Value, &'a [u8]), ValueError>
    requires { 1 ≤ left }
    ensures ok { IfOk result
        (λ found. definition_within left (T.table table.now) definition.now input.now
        ≡ decoded found.0 found.1.now) }
    ensures err { IfErr result
        (IsErrorOf (definition_within left (T.table table.now) definition.now input.now)) }
{
    match definition {
        TypeDef::Composite(composite) => composite_value(alloc, table, composite, left, input),
        TypeDef::Variant(choice) => variant_value(alloc, table, choice, left, input),
        TypeDef::Sequence(sequence) => sequence_value(alloc, table, sequence, left, input),
        TypeDef::Array(array) => array_value(alloc, table, array, left, input),
        TypeDef::Tuple(tuple) => tuple_value(alloc, table, tuple, left, input),
        TypeDef::Primitive(kind) => primitive(alloc, kind, input),
        TypeDef::Compact(compact) => compact_value(table, compact, left, input),
        TypeDef::BitSequence(_) => Err(ValueError::Unsupported),
        TypeDef::Map(map) => map_value(alloc, table, map, left, input),
    }
}

/// A compact integer, and the rest.
#[inline(never)]
fn compact_value<'a, T: Definitions>(
    table: &T,
    compact: &TypeDefCompact<PortableForm>,
    left: u8,
    input: &'a [u8],
) -> Result<(Value, &'a [u8]), ValueError>
    ensures ok { IfOk result
        (λ found. definition_within left (T.table table.now) (def.Compact compact.now) input.now
        ≡ decoded found.0 found.1.now) }
    ensures err { IfErr result
        (IsErrorOf (definition_within left (T.table table.now) (def.Compact compact.now)
        input.now)) }
{
    let (integer, rest) = compact_within(table, compact.type_param.id, left, input)?;
    Ok((Value::Unsigned(integer), rest))
}

/// A value of a struct, and the rest.
#[cycle(value)]
#[inline(never)]
fn composite_value<'a, T: Definitions>(
    alloc: Global,
    table: &T,
    composite: &TypeDefComposite<PortableForm>,
    left: u8,
    input: &'a [u8],
) -> Result<(Value, &'a [u8]), ValueError>
    requires { 1 ≤ left }
    ensures ok { IfOk result
        (λ found. definition_within left (T.table table.now) (def.Composite composite.now) input.now
        ≡ decoded found.0 found.1.now) }
    ensures err { IfErr result
        (IsErrorOf (definition_within left (T.table table.now) (def.Composite composite.now)
        input.now)) }
{
    let (values, rest) = fields(alloc, table, composite.fields.as_slice(), left, input)?;
    Ok((Value::Record(values), rest))
}

/// A value of an enum, and the rest.
#[cycle(value)]
#[inline(never)]
fn variant_value<'a, T: Definitions>(
    alloc: Global,
    table: &T,
    choice: &TypeDefVariant<PortableForm>,
    left: u8,
    input: &'a [u8],
) -> Result<(Value, &'a [u8]), ValueError>
    requires { 1 ≤ left }
    ensures ok { IfOk result
        (λ found. variant_within left (T.table table.now) choice.now.variants input.now
        ≡ decoded found.0 found.1.now) }
    ensures err { IfErr result
        (IsErrorOf (variant_within left (T.table table.now) choice.now.variants input.now)) }
{
    let (index, rest) = byte(input)?;
    match variant_with_index(choice.variants.as_slice(), index) {
        None => Err(ValueError::Malformed),
        Some(variant) => {
            let (fields, rest) = fields(alloc, table, variant.fields.as_slice(), left, rest)?;
            let name = variant.name.try_clone(alloc)?;
            let value = Value::Variant {
                name,
                index,
                fields,
            };
            Ok((value, rest))
        }
    }
}

/// A value of a sequence, and the rest.
#[cycle(value)]
#[inline(never)]
fn sequence_value<'a, T: Definitions>(
    alloc: Global,
    table: &T,
    sequence: &TypeDefSequence<PortableForm>,
    left: u8,
    input: &'a [u8],
) -> Result<(Value, &'a [u8]), ValueError>
    requires { 1 ≤ left }
    ensures ok { IfOk result
        (λ found. definition_within left (T.table table.now) (def.Sequence sequence.now) input.now
        ≡ decoded found.0 found.1.now) }
    ensures err { IfErr result
        (IsErrorOf (definition_within left (T.table table.now) (def.Sequence sequence.now)
        input.now)) }
{
    let (count, rest) = count(input)?;
    let (values, rest) = items(alloc, table, &sequence.type_param, count, left, rest)?;
    Ok((Value::List(values), rest))
}

/// A value of an array, and the rest.
#[cycle(value)]
#[inline(never)]
fn array_value<'a, T: Definitions>(
    alloc: Global,
    table: &T,
    array: &TypeDefArray<PortableForm>,
    left: u8,
    input: &'a [u8],
) -> Result<(Value, &'a [u8]), ValueError>
    requires { 1 ≤ left }
    ensures ok { IfOk result
        (λ found. definition_within left (T.table table.now) (def.Array array.now) input.now
        ≡ decoded found.0 found.1.now) }
    ensures err { IfErr result
        (IsErrorOf (definition_within left (T.table table.now) (def.Array array.now) input.now)) }
{
    let (values, rest) = items(alloc, table, &array.type_param, array.len, left, input)?;
    Ok((Value::List(values), rest))
}

/// So many values of one type, and the rest. The type is looked up once for all of them.
#[cycle(value)]
#[inline(always)]
fn items<'a, T: Definitions>(
    alloc: Global,
    table: &T,
    ty: &UntrackedSymbol<TypeId>,
    count: u32,
    left: u8,
    input: &'a [u8],
) -> Result<(Items<Value>, &'a [u8]), ValueError>
    requires { 1 ≤ left }
    ensures ok { IfOk result
        (λ found. items_within left (T.table table.now) ty.now count input.now
        ≡ decoded found.0 found.1.now) }
    ensures err { IfErr result
        (IsErrorOf (items_within left (T.table table.now) ty.now count input.now)) }
{
    if count == 0 {
        return Ok((Items::new(alloc), input));
    }
    let definition = definition_of(table, ty.id, left - 1)?;
    items_by(alloc, table, definition, count, left - 1, input)
}

/// So many values by the definition of their type, and the rest.
#[cycle(value)]
#[inline(always)]
fn items_by<'a, T: Definitions>(
    alloc: Global,
    table: &T,
    definition: &TypeDef<PortableForm>,
    count: u32,
    left: u8,
    input: &'a [u8],
) -> Result<(Items<Value>, &'a [u8]), ValueError>
    requires { 1 ≤ left }
    ensures ok { IfOk result
        (λ found.
        in_turn (replicate count (definition_within left (T.table table.now) definition.now))
        input.now ≡ decoded found.0 found.1.now) }
    ensures err { IfErr result (IsErrorOf
        (in_turn (replicate count (definition_within left (T.table table.now) definition.now))
        input.now)) }
{
    if let TypeDef::Primitive(kind) = definition {
        return primitives(alloc, kind, count, input);
    }
    let mut values = Items::new(alloc);
    let mut rest = input;
    for _ in 0..count {
        let (value, after) = value_by(alloc, table, definition, left, rest)?;
        values.push_towards(count as usize, value)?;
        rest = after;
    }
    Ok((values, rest))
}

/// A value of a tuple, and the rest.
#[cycle(value)]
#[inline(never)]
fn tuple_value<'a, T: Definitions>(
    alloc: Global,
    table: &T,
    tuple: &TypeDefTuple<PortableForm>,
    left: u8,
    input: &'a [u8],
) -> Result<(Value, &'a [u8]), ValueError>
    requires { 1 ≤ left }
    ensures ok { IfOk result
        (λ found. definition_within left (T.table table.now) (def.Tuple tuple.now) input.now
        ≡ decoded found.0 found.1.now) }
    ensures err { IfErr result
        (IsErrorOf (definition_within left (T.table table.now) (def.Tuple tuple.now) input.now)) }
{
    let (values, rest) = members(alloc, table, tuple.fields.as_slice(), left, input)?;
    Ok((Value::List(values), rest))
}

/// A value of each type in order, and the rest.
#[cycle(value)]
#[inline(always)]
fn members<'a, T: Definitions>(
    alloc: Global,
    table: &T,
    types: &[UntrackedSymbol<TypeId>],
    left: u8,
    input: &'a [u8],
) -> Result<(Items<Value>, &'a [u8]), ValueError>
    requires { 1 ≤ left }
    ensures ok { IfOk result
        (λ found. members_within left (T.table table.now) types.now input.now
        ≡ decoded found.0 found.1.now) }
    ensures err { IfErr result
        (IsErrorOf (members_within left (T.table table.now) types.now input.now)) }
{
    let mut values = Items::new(alloc);
    let mut rest = input;
    for ty in types {
        let (value, after) = value_within(alloc, table, ty.id, left - 1, rest)?;
        values.push_towards(types.len(), value)?;
        rest = after;
    }
    Ok((values, rest))
}

/// A value of each field's type in order, under the field's name, and the rest.
#[cycle(value)]
#[inline(always)]
fn fields<'a, T: Definitions>(
    alloc: Global,
    table: &T,
    all: &[Field<PortableForm>],
    left: u8,
    input: &'a [u8],
) -> Result<(Items<(Option<Text>, Value)>, &'a [u8]), ValueError>
    requires { 1 ≤ left }
    ensures ok { IfOk result
        (λ found. fields_within left (T.table table.now) all.now input.now
        ≡ decoded found.0 found.1.now) }
    ensures err { IfErr result
        (IsErrorOf (fields_within left (T.table table.now) all.now input.now)) }
{
    let mut values = Items::new(alloc);
    let mut rest = input;
    for field in all {
        let (value, after) = value_within(alloc, table, field.ty.id, left - 1, rest)?;
        values.push_towards(all.len(), (field.name.try_clone(alloc)?, value))?;
        rest = after;
    }
    Ok((values, rest))
}

/// A value of a map, and the rest.
#[cycle(value)]
#[inline(never)]
fn map_value<'a, T: Definitions>(
    alloc: Global,
    table: &T,
    map: &TypeDefMap<PortableForm>,
    left: u8,
    input: &'a [u8],
) -> Result<(Value, &'a [u8]), ValueError>
    requires { 1 ≤ left }
    ensures ok { IfOk result
        (λ found. definition_within left (T.table table.now) (def.Map map.now) input.now
        ≡ decoded found.0 found.1.now) }
    ensures err { IfErr result
        (IsErrorOf (definition_within left (T.table table.now) (def.Map map.now) input.now)) }
{
    let (count, rest) = count(input)?;
    let (values, rest) = pairs(alloc, table, map, count, left, rest)?;
    Ok((Value::List(values), rest))
}

/// So many pairs of a key and a value, each a list of two, and the rest.
#[cycle(value)]
#[inline(always)]
fn pairs<'a, T: Definitions>(
    alloc: Global,
    table: &T,
    map: &TypeDefMap<PortableForm>,
    count: u32,
    left: u8,
    input: &'a [u8],
) -> Result<(Items<Value>, &'a [u8]), ValueError>
    requires { 1 ≤ left }
    ensures ok { IfOk result
        (λ found. pairs_within left (T.table table.now) map.now.key map.now.value count input.now
        ≡ decoded found.0 found.1.now) }
    ensures err { IfErr result
        (IsErrorOf
        (pairs_within left (T.table table.now) map.now.key map.now.value count input.now)) }
{
    let mut values = Items::new(alloc);
    let mut rest = input;
    for _ in 0..count {
        let (pair, after) = pair(alloc, table, map, left, rest)?;
        values.push_towards(count as usize, pair)?;
        rest = after;
    }
    Ok((values, rest))
}

/// The list of a key and a value.
#[inline(never)]
fn list_of_two(alloc: Global, key: Value, value: Value) -> Result<Value, ValueError>
    ensures ok { IfOk result (λ pair. pair ≡ Values.List (key ∷ value ∷ [])) }
    ensures err { IfErr result (λ e. e ≡ error.Memory) }
{
    Ok(Value::list(vec![in alloc; key, value]?))
}

/// A key and a value, and the rest.
#[cycle(value)]
fn pair<'a, T: Definitions>(
    alloc: Global,
    table: &T,
    map: &TypeDefMap<PortableForm>,
    left: u8,
    input: &'a [u8],
) -> Result<(Value, &'a [u8]), ValueError>
    requires { 1 ≤ left }
    ensures ok { IfOk result
        (λ found. pair_within left (T.table table.now) map.now.key map.now.value input.now
        ≡ decoded found.0 found.1.now) }
    ensures err { IfErr result
        (IsErrorOf (pair_within left (T.table table.now) map.now.key map.now.value input.now)) }
{
    let inner = left.saturating_sub(2);
    let (key, rest) = value_within(alloc, table, map.key.id, inner, input)?;
    let (value, rest) = value_within(alloc, table, map.value.id, inner, rest)?;
    Ok((list_of_two(alloc, key, value)?, rest))
}
