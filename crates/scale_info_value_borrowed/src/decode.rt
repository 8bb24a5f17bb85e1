//! Values decoded by the definitions of their types.
ghost use Rattle.std.specs.Prelude.{◌≡◌, ◌≤◌, ◌∷◌, [], IfOk, IfErr, replicate, map};
ghost use Rattle.std.specs.Option.{option_copied};
ghost use Rattle.scale_info_types.specs.declared.ty.TypeDef.TheVariants as def;
ghost use Rattle.scale_info_value.specs.declared.value.Value.TheVariants as Values;
ghost use Rattle.scale_info_value.specs.declared.value.ValueError.TheVariants as error;
ghost use Rattle.scale_info_value.specs.Outcomes.{decoded, in_turn, outcome_map, IsErrorOf};
ghost use Rattle.scale_info_value.specs.Readings.{value_within, definition_within, fields_within};
ghost use Rattle.scale_info_value.specs.Readings.{variant_within, items_within, members_within};
ghost use Rattle.scale_info_value.specs.Readings.{pair_within, pairs_within, reading};
ghost use Rattle.scale_info_value_borrowed.specs.BorrowedValues.{owned_value, field_of};

use crate::borrowed::ValueRef;
use crate::list::{no_items, primitive, primitives};
use scale_info_collections::items::Items;
use scale_info_identities::symbol::UntrackedSymbol;
use scale_info_identities::type_id::TypeId;
use scale_info_types::form::PortableForm;
use scale_info_types::ty::{
    Field, TypeDef, TypeDefArray, TypeDefCompact, TypeDefComposite, TypeDefMap, TypeDefSequence,
    TypeDefTuple, TypeDefVariant,
};
use scale_info_value::compact::compact_within;
use scale_info_value::definition::{Definitions, definition_of};
use scale_info_value::integer::{byte, count};
use scale_info_value::value::ValueError;
use scale_info_value::variants::variant_with_index;
use std::alloc::Global;

/// Decodes one value of the type with this id from the start of the input, and returns it with the
/// rest: a value that borrows names from the table, and texts and lists of integers from the input.
///
/// It decodes what `decode_value` decodes, by the same tables, in the same order, at most 128
/// values deep, and has the same errors; [`ValueRef::to_value`] makes the same value of it.
/// Allocates for the items of lists that are no integers, for fields, members and pairs, as they
/// are decoded, never for an announced count. As there, nothing else bounds the work: values of
/// some types take no bytes, so bound the lengths of arrays in tables from outside first.
///
/// Errors: `TooDeep`, where a value is more than 128 deep; `NoSuchType`, where an id is no index of
/// the table; `Unsupported`, where values of a type are not decoded; `Malformed`, where no prefix
/// of the input is a value of the type; `Memory`, where an allocation failed.
///
/// With a table that has `Vec<u32>` at index 0:
///
/// ```text
/// let input = [8, 1, 0, 0, 0, 2, 0, 0, 0, 255];
/// let (value, rest) = decode_borrowed(alloc, &table, 0, &input)?;   // 1 and 2, and the rest [255]
/// value.len()                                                   // Some(2), and nothing allocated
/// ```
pub fn decode_borrowed<'t, 'i, T: Definitions>(
    alloc: Global,
    table: &'t T,
    id: u32,
    input: &'i [u8],
) -> Result<(ValueRef<'t, 'i>, &'i [u8]), ValueError>
    ensures ok { IfOk result
        (λ found. reading (T.table table.now) id 1 input.now
        ≡ decoded (owned_value found.0) found.1.now) }
    ensures err { IfErr result (IsErrorOf (reading (T.table table.now) id 1 input.now)) }
{
    value_within(alloc, table, id, 128, input)
}

/// A value of the type with this id, and the rest, where so many levels are left.
#[cycle(value)]
#[inline(always)]
fn value_within<'t, 'i, T: Definitions>(
    alloc: Global,
    table: &'t T,
    id: u32,
    left: u8,
    input: &'i [u8],
) -> Result<(ValueRef<'t, 'i>, &'i [u8]), ValueError>
    ensures ok { IfOk result
        (λ found. value_within left (T.table table.now) id input.now
        ≡ decoded (owned_value found.0) found.1.now) }
    ensures err { IfErr result (IsErrorOf (value_within left (T.table table.now) id input.now)) }
{
    let definition = definition_of(table, id, left)?;
    value_by(alloc, table, definition, left, input)
}

/// A value by the definition of its type, and the rest.
///
/// Each kind of definition has a function of its own, which is not inlined, and its loop is inlined
/// into it: so a level of a value takes the stack of its own kind, and not that of all.
#[cycle(value)]
#[inline(never)]
fn value_by<'t, 'i, T: Definitions>(
    alloc: Global,
    table: &'t T,
    definition: &'t TypeDef<PortableForm>,
    left: u8,
    input: &'i [u8],
) -> Result<(ValueRef<'t, 'i>, &'i [u8]), ValueError>
    requires { 1 ≤ left }
    ensures ok { IfOk result
        (λ found. definition_within left (T.table table.now) definition.now input.now
        ≡ decoded (owned_value found.0) found.1.now) }
    ensures err { IfErr result
        (IsErrorOf (definition_within left (T.table table.now) definition.now input.now)) }
{
    match definition {
        TypeDef::Composite(composite) => composite_value(alloc, table, composite, left, input),
        TypeDef::Variant(choice) => variant_value(alloc, table, choice, left, input),
        TypeDef::Sequence(sequence) => sequence_value(alloc, table, sequence, left, input),
        TypeDef::Array(array) => array_value(alloc, table, array, left, input),
        TypeDef::Tuple(tuple) => tuple_value(alloc, table, tuple, left, input),
        TypeDef::Primitive(kind) => primitive(kind, input),
        TypeDef::Compact(compact) => compact_value(table, compact, left, input),
        TypeDef::BitSequence(_) => Err(ValueError::Unsupported),
        TypeDef::Map(map) => map_value(alloc, table, map, left, input),
    }
}

/// A compact integer, and the rest.
#[inline(never)]
fn compact_value<'t, 'i, T: Definitions>(
    table: &'t T,
    compact: &'t TypeDefCompact<PortableForm>,
    left: u8,
    input: &'i [u8],
) -> Result<(ValueRef<'t, 'i>, &'i [u8]), ValueError>
    ensures ok { IfOk result
        (λ found. definition_within left (T.table table.now) (def.Compact compact.now) input.now
        ≡ decoded (owned_value found.0) found.1.now) }
    ensures err { IfErr result
        (IsErrorOf (definition_within left (T.table table.now) (def.Compact compact.now)
        input.now)) }
{
    let (integer, rest) = compact_within(table, compact.type_param.id, left, input)?;
    Ok((ValueRef::Unsigned(integer), rest))
}

/// A value of a struct, and the rest.
#[cycle(value)]
#[inline(never)]
fn composite_value<'t, 'i, T: Definitions>(
    alloc: Global,
    table: &'t T,
    composite: &'t TypeDefComposite<PortableForm>,
    left: u8,
    input: &'i [u8],
) -> Result<(ValueRef<'t, 'i>, &'i [u8]), ValueError>
    requires { 1 ≤ left }
    ensures ok { IfOk result
        (λ found. definition_within left (T.table table.now) (def.Composite composite.now) input.now
        ≡ decoded (owned_value found.0) found.1.now) }
    ensures err { IfErr result
        (IsErrorOf (definition_within left (T.table table.now) (def.Composite composite.now)
        input.now)) }
{
    let (values, rest) = fields(alloc, table, composite.fields.as_slice(), left, input)?;
    Ok((ValueRef::Record(values), rest))
}

/// A value of an enum, and the rest.
#[cycle(value)]
#[inline(never)]
fn variant_value<'t, 'i, T: Definitions>(
    alloc: Global,
    table: &'t T,
    choice: &'t TypeDefVariant<PortableForm>,
    left: u8,
    input: &'i [u8],
) -> Result<(ValueRef<'t, 'i>, &'i [u8]), ValueError>
    requires { 1 ≤ left }
    ensures ok { IfOk result
        (λ found. variant_within left (T.table table.now) choice.now.variants input.now
        ≡ decoded (owned_value found.0) found.1.now) }
    ensures err { IfErr result
        (IsErrorOf (variant_within left (T.table table.now) choice.now.variants input.now)) }
{
    let (index, rest) = byte(input)?;
    match variant_with_index(choice.variants.as_slice(), index) {
        None => Err(ValueError::Malformed),
        Some(variant) => {
            let (fields, rest) = fields(alloc, table, variant.fields.as_slice(), left, rest)?;
            let value = ValueRef::Variant {
                name: variant.name.as_str(),
                index,
                fields,
            };
            Ok((value, rest))
        }
    }
}

/// A value of a sequence, and the rest.
#[cycle(value)]
#[inline(never)]
fn sequence_value<'t, 'i, T: Definitions>(
    alloc: Global,
    table: &'t T,
    sequence: &TypeDefSequence<PortableForm>,
    left: u8,
    input: &'i [u8],
) -> Result<(ValueRef<'t, 'i>, &'i [u8]), ValueError>
    requires { 1 ≤ left }
    ensures ok { IfOk result
        (λ found. definition_within left (T.table table.now) (def.Sequence sequence.now) input.now
        ≡ decoded (owned_value found.0) found.1.now) }
    ensures err { IfErr result
        (IsErrorOf (definition_within left (T.table table.now) (def.Sequence sequence.now)
        input.now)) }
{
    let (count, rest) = count(input)?;
    list(alloc, table, &sequence.type_param, count, left, rest)
}

/// A value of an array, and the rest.
#[cycle(value)]
#[inline(never)]
fn array_value<'t, 'i, T: Definitions>(
    alloc: Global,
    table: &'t T,
    array: &TypeDefArray<PortableForm>,
    left: u8,
    input: &'i [u8],
) -> Result<(ValueRef<'t, 'i>, &'i [u8]), ValueError>
    requires { 1 ≤ left }
    ensures ok { IfOk result
        (λ found. definition_within left (T.table table.now) (def.Array array.now) input.now
        ≡ decoded (owned_value found.0) found.1.now) }
    ensures err { IfErr result
        (IsErrorOf (definition_within left (T.table table.now) (def.Array array.now) input.now)) }
{
    list(alloc, table, &array.type_param, array.len, left, input)
}

/// The list of so many values of one type, and the rest. The type is looked up once for all of
/// them; where there are none, for the kind of list alone.
#[cycle(value)]
#[inline(always)]
fn list<'t, 'i, T: Definitions>(
    alloc: Global,
    table: &'t T,
    ty: &UntrackedSymbol<TypeId>,
    count: u32,
    left: u8,
    input: &'i [u8],
) -> Result<(ValueRef<'t, 'i>, &'i [u8]), ValueError>
    requires { 1 ≤ left }
    ensures ok { IfOk result
        (λ found. outcome_map Values.List (items_within left (T.table table.now) ty.now count
        input.now)
        ≡ decoded (owned_value found.0) found.1.now) }
    ensures err { IfErr result
        (IsErrorOf (items_within left (T.table table.now) ty.now count input.now)) }
{
    if count == 0 {
        let none = no_items(alloc, table.definition(ty.id));
        return Ok((none, input));
    }
    let definition = definition_of(table, ty.id, left - 1)?;
    list_by(alloc, table, definition, count, left - 1, input)
}

/// The list of so many values by the definition of their type, and the rest.
#[cycle(value)]
#[inline(always)]
fn list_by<'t, 'i, T: Definitions>(
    alloc: Global,
    table: &'t T,
    definition: &'t TypeDef<PortableForm>,
    count: u32,
    left: u8,
    input: &'i [u8],
) -> Result<(ValueRef<'t, 'i>, &'i [u8]), ValueError>
    requires { 1 ≤ left }
    ensures ok { IfOk result
        (λ found. outcome_map Values.List
        (in_turn (replicate count (definition_within left (T.table table.now) definition.now))
        input.now)
        ≡ decoded (owned_value found.0) found.1.now) }
    ensures err { IfErr result (IsErrorOf
        (in_turn (replicate count (definition_within left (T.table table.now) definition.now))
        input.now)) }
{
    if let TypeDef::Primitive(kind) = definition {
        return primitives(alloc, kind, count, input);
    }
    let (values, rest) = items(alloc, table, definition, count, left, input)?;
    Ok((ValueRef::List(values), rest))
}

/// So many values by the definition of their type, and the rest.
#[cycle(value)]
#[inline(always)]
fn items<'t, 'i, T: Definitions>(
    alloc: Global,
    table: &'t T,
    definition: &'t TypeDef<PortableForm>,
    count: u32,
    left: u8,
    input: &'i [u8],
) -> Result<(Items<ValueRef<'t, 'i>>, &'i [u8]), ValueError>
    requires { 1 ≤ left }
    ensures ok { IfOk result
        (λ found.
        in_turn (replicate count (definition_within left (T.table table.now) definition.now))
        input.now ≡ decoded (map owned_value found.0) found.1.now) }
    ensures err { IfErr result (IsErrorOf
        (in_turn (replicate count (definition_within left (T.table table.now) definition.now))
        input.now)) }
{
    let mut values = Items::new(alloc);
    let mut rest = input;
    for _ in 0..count {
        let (value, after) = value_by(alloc, table, definition, left, rest)?;
        values.push_towards(count as usize, value)?;
        rest = after;
    }
    Ok((values, rest))
}

/// A value of a tuple, and the rest.
#[cycle(value)]
#[inline(never)]
fn tuple_value<'t, 'i, T: Definitions>(
    alloc: Global,
    table: &'t T,
    tuple: &TypeDefTuple<PortableForm>,
    left: u8,
    input: &'i [u8],
) -> Result<(ValueRef<'t, 'i>, &'i [u8]), ValueError>
    requires { 1 ≤ left }
    ensures ok { IfOk result
        (λ found. definition_within left (T.table table.now) (def.Tuple tuple.now) input.now
        ≡ decoded (owned_value found.0) found.1.now) }
    ensures err { IfErr result
        (IsErrorOf (definition_within left (T.table table.now) (def.Tuple tuple.now) input.now)) }
{
    let (values, rest) = members(alloc, table, tuple.fields.as_slice(), left, input)?;
    Ok((ValueRef::List(values), rest))
}

/// A value of each type in order, and the rest.
#[cycle(value)]
#[inline(always)]
fn members<'t, 'i, T: Definitions>(
    alloc: Global,
    table: &'t T,
    types: &[UntrackedSymbol<TypeId>],
    left: u8,
    input: &'i [u8],
) -> Result<(Items<ValueRef<'t, 'i>>, &'i [u8]), ValueError>
    requires { 1 ≤ left }
    ensures ok { IfOk result
        (λ found. members_within left (T.table table.now) types.now input.now
        ≡ decoded (map owned_value found.0) found.1.now) }
    ensures err { IfErr result
        (IsErrorOf (members_within left (T.table table.now) types.now input.now)) }
{
    let mut values = Items::new(alloc);
    let mut rest = input;
    for ty in types {
        let (value, after) = value_within(alloc, table, ty.id, left - 1, rest)?;
        values.push_towards(types.len(), value)?;
        rest = after;
    }
    Ok((values, rest))
}

/// The name of a field, which stays in the table.
fn name_of(field: &Field<PortableForm>) -> Option<&str>
    ensures { option_copied result ≡ field.now.name }
{
    match &field.name {
        None => None,
        Some(name) => Some(name.as_str()),
    }
}

/// A value of each field's type in order, under the field's name, and the rest.
#[cycle(value)]
#[inline(always)]
fn fields<'t, 'i, T: Definitions>(
    alloc: Global,
    table: &'t T,
    all: &'t [Field<PortableForm>],
    left: u8,
    input: &'i [u8],
) -> Result<(Items<(Option<&'t str>, ValueRef<'t, 'i>)>, &'i [u8]), ValueError>
    requires { 1 ≤ left }
    ensures ok { IfOk result
        (λ found. fields_within left (T.table table.now) all.now input.now
        ≡ decoded (map field_of found.0) found.1.now) }
    ensures err { IfErr result
        (IsErrorOf (fields_within left (T.table table.now) all.now input.now)) }
{
    let mut values = Items::new(alloc);
    let mut rest = input;
    for field in all {
        let (value, after) = value_within(alloc, table, field.ty.id, left - 1, rest)?;
        values.push_towards(all.len(), (name_of(field), value))?;
        rest = after;
    }
    Ok((values, rest))
}

/// A value of a map, and the rest.
#[cycle(value)]
#[inline(never)]
fn map_value<'t, 'i, T: Definitions>(
    alloc: Global,
    table: &'t T,
    map: &TypeDefMap<PortableForm>,
    left: u8,
    input: &'i [u8],
) -> Result<(ValueRef<'t, 'i>, &'i [u8]), ValueError>
    requires { 1 ≤ left }
    ensures ok { IfOk result
        (λ found. definition_within left (T.table table.now) (def.Map map.now) input.now
        ≡ decoded (owned_value found.0) found.1.now) }
    ensures err { IfErr result
        (IsErrorOf (definition_within left (T.table table.now) (def.Map map.now) input.now)) }
{
    let (count, rest) = count(input)?;
    let (values, rest) = pairs(alloc, table, &map.key, &map.value, count, left, rest)?;
    Ok((ValueRef::List(values), rest))
}

/// So many pairs of a key and a value, each a list of two, and the rest.
#[cycle(value)]
#[inline(always)]
fn pairs<'t, 'i, T: Definitions>(
    alloc: Global,
    table: &'t T,
    key: &UntrackedSymbol<TypeId>,
    value: &UntrackedSymbol<TypeId>,
    count: u32,
    left: u8,
    input: &'i [u8],
) -> Result<(Items<ValueRef<'t, 'i>>, &'i [u8]), ValueError>
    requires { 1 ≤ left }
    ensures ok { IfOk result
        (λ found. pairs_within left (T.table table.now) key.now value.now count input.now
        ≡ decoded (map owned_value found.0) found.1.now) }
    ensures err { IfErr result
        (IsErrorOf (pairs_within left (T.table table.now) key.now value.now count input.now)) }
{
    let mut values = Items::new(alloc);
    let mut rest = input;
    for _ in 0..count {
        let (pair, after) = pair(alloc, table, key, value, left, rest)?;
        values.push_towards(count as usize, pair)?;
        rest = after;
    }
    Ok((values, rest))
}

/// The list of a key and a value.
#[inline(never)]
fn list_of_two<'t, 'i>(
    alloc: Global,
    key: ValueRef<'t, 'i>,
    value: ValueRef<'t, 'i>,
) -> Result<ValueRef<'t, 'i>, ValueError>
    ensures ok { IfOk result (λ pair. owned_value pair
        ≡ Values.List (owned_value key.entry ∷ owned_value value.entry ∷ [])) }
    ensures err { IfErr result (λ e. e ≡ error.Memory) }
{
    let mut pair = Items::with_capacity(alloc, 2)?;
    pair.push(key)?;
    pair.push(value)?;
    Ok(ValueRef::List(pair))
}

/// A key and a value, and the rest.
#[cycle(value)]
fn pair<'t, 'i, T: Definitions>(
    alloc: Global,
    table: &'t T,
    key: &UntrackedSymbol<TypeId>,
    value: &UntrackedSymbol<TypeId>,
    left: u8,
    input: &'i [u8],
) -> Result<(ValueRef<'t, 'i>, &'i [u8]), ValueError>
    requires { 1 ≤ left }
    ensures ok { IfOk result
        (λ found. pair_within left (T.table table.now) key.now value.now input.now
        ≡ decoded (owned_value found.0) found.1.now) }
    ensures err { IfErr result
        (IsErrorOf (pair_within left (T.table table.now) key.now value.now input.now)) }
{
    let inner = left.saturating_sub(2);
    let (key, rest) = value_within(alloc, table, key.id, inner, input)?;
    let (value, rest) = value_within(alloc, table, value.id, inner, rest)?;
    Ok((list_of_two(alloc, key, value)?, rest))
}
