//! Values encoded by the definitions of their types.
ghost use Rattle.std.specs.Prelude.{◌≡◌, ◌≤◌, IfErr, OnOk, OnErr, length, map, replicate};
ghost use Rattle.scale_info_bytes.specs.Encodings.{IsPrefix};
ghost use Rattle.scale_info_types.specs.declared.ty.TypeDef.TheVariants as def;
ghost use Rattle.scale_info_value_encode.specs.Writers.{Appends, IsErrorOf, item, in_turn};
ghost use Rattle.scale_info_value_encode.specs.Failures.{Fails};
ghost use Rattle.scale_info_value_encode.specs.DefinitionWriters.{items, members, pairs};
ghost use Rattle.scale_info_value_encode.specs.Writings.{writing, value_within, definition_within};
ghost use Rattle.scale_info_value_encode.specs.Writings.{part_within};
ghost use Rattle.scale_info_value_encode.specs.Writings.{fields_within, pair_within};

use crate::compact::compact_within;
use crate::definition::definition_of;
use crate::error::EncodeValueError;
use crate::failure::{PartError, mismatch, without_parts};
use crate::integer::count;
use crate::path::Step;
use crate::primitive::primitive;
use scale_info_collections::text::Text;
use scale_info_identities::symbol::UntrackedSymbol;
use scale_info_identities::type_id::TypeId;
use scale_info_types::form::PortableForm;
use scale_info_types::ty::{
    Field, TypeDef, TypeDefArray, TypeDefComposite, TypeDefMap, TypeDefSequence, TypeDefTuple,
    TypeDefVariant,
};
use scale_info_value::definition::Definitions;
use scale_info_value::value::Value;
use scale_info_value::variants::variant_with_index;

/// Appends the encoding of a value of the type with this id.
///
/// An id is an index of the table that `table` stands for, which is a table itself or what was
/// loaded of one: see [`Definitions`](scale_info_value::definition::Definitions). What is appended is
/// decoded by `decode_value` as this value, whatever follows it, and a value that `decode_value`
/// gave is encoded to the bytes that it was decoded from. The parts of a value are encoded in
/// order, and the first error is returned; where there is one, the output is as it was before the
/// call.
/// Allocates for the output, and for the path of a mismatch.
///
/// A value has depth 1, and each part of a value is one deeper than the value; at most 128 is
/// encoded. The work is bounded by the value and the bytes.
///
/// Errors: `TooDeep`, where a value is more than 128 deep; `NoSuchType`, where an id is no index of
/// the table; `Unsupported`, where values of a type are not encoded; `Mismatch`, where the value is
/// none of the type, with the [path](crate::path::ValuePath) to the first part that is none of its
/// own; `Memory`, where an allocation failed.
///
/// With a table that has `Vec<u32>` at index 0, and the list of 1 and 2 as `value`:
///
/// ```text
/// encode_value(&table, 0, &value, &mut out)?;   // appends [8, 1, 0, 0, 0, 2, 0, 0, 0]
/// // with `true` in place of 2 the error is `the value does not fit its type at 1`
/// ```
pub fn encode_value<T: Definitions>(
    table: &T,
    id: u32,
    value: &Value,
    out: &mut Vec<u8>,
) -> Result<(), EncodeValueError>
    ensures ok { OnOk result
        (Appends (writing (T.table table.now) id 1 value.now) out.old.items out.new.items) }
    ensures err { IfErr result (IsErrorOf (writing (T.table table.now) id 1 value.now)) }
    ensures same { OnErr result (out.new.items ≡ out.old.items) }
{
    let start = out.len();
    let mut steps = Vec::new(*out.allocator());
    match value_within(table, id, 128, value, out, &mut steps) {
        Ok(()) => Ok(()),
        Err(failure) => {
            out.truncate(start);
            Err(failure.with_steps(steps))
        }
    }
}

/// Appends a value of the type with this id, where so many levels are left. Where that fails, some
/// of its bytes may stand at the end.
#[cycle(value)]
#[inline(always)]
fn value_within<T: Definitions>(
    table: &T,
    id: u32,
    left: u8,
    value: &Value,
    out: &mut Vec<u8>,
    steps: &mut Vec<Step>,
) -> Result<(), PartError>
    ensures ok { OnOk result
        (Appends (value_within left (T.table table.now) id value.now) out.old.items
        out.new.items) }
    ensures err { IfErr result
        (Fails (value_within left (T.table table.now) id value.now) steps.new.items) }
    ensures kept { OnErr result (IsPrefix out.old.items out.new.items) }
{
    let definition = definition_of(table, id, left)?;
    value_by(table, definition, left, value, out, steps)
}

/// Appends a value by the definition of its type.
///
/// Each kind of definition has a function of its own, which is not inlined, and its loop is inlined
/// into it: so a level of a value takes the stack of its own kind, and not that of all.
#[cycle(value)]
#[inline(never)]
fn value_by<T: Definitions>(
    table: &T,
    definition: &TypeDef<PortableForm>,
    left: u8,
    value: &Value,
    out: &mut Vec<u8>,
    steps: &mut Vec<Step>,
) -> Result<(), PartError>
    requires { 1 ≤ left }
    ensures ok { OnOk result
        (Appends (definition_within left (T.table table.now) definition.now value.now)
        out.old.items out.new.items) }
    ensures err { IfErr result
        (Fails (definition_within left (T.table table.now) definition.now value.now)
        steps.new.items) }
    ensures kept { OnErr result (IsPrefix out.old.items out.new.items) }
{
    match definition {
        TypeDef::Composite(composite) => composite_value(table, composite, left, value, out, steps),
        TypeDef::Variant(choice) => variant_value(table, choice, left, value, out, steps),
        TypeDef::Sequence(sequence) => sequence_value(table, sequence, left, value, out, steps),
        TypeDef::Array(array) => array_value(table, array, left, value, out, steps),
        TypeDef::Tuple(tuple) => tuple_value(table, tuple, left, value, out, steps),
        TypeDef::Primitive(kind) => without_parts(primitive(kind, value, out), steps),
        TypeDef::Compact(compact) => {
            let written = compact_within(table, compact.type_param.id, left, value, out);
            without_parts(written, steps)
        }
        TypeDef::BitSequence(_) => Err(PartError::Unsupported),
        TypeDef::Map(map) => map_value(table, map, left, value, out, steps),
    }
}

/// Appends a value of a struct.
#[cycle(value)]
#[inline(never)]
fn composite_value<T: Definitions>(
    table: &T,
    composite: &TypeDefComposite<PortableForm>,
    left: u8,
    value: &Value,
    out: &mut Vec<u8>,
    steps: &mut Vec<Step>,
) -> Result<(), PartError>
    requires { 1 ≤ left }
    ensures ok { OnOk result
        (Appends (definition_within left (T.table table.now)
        (def.Composite composite.now) value.now)
        out.old.items out.new.items) }
    ensures err { IfErr result
        (Fails (definition_within left (T.table table.now)
        (def.Composite composite.now) value.now)
        steps.new.items) }
    ensures kept { OnErr result (IsPrefix out.old.items out.new.items) }
{
    match value {
        Value::Record(values) => {
            fields(
                table,
                composite.fields.as_slice(),
                left,
                values.as_slice(),
                out,
                steps,
            )
        }
        _ => Err(mismatch(steps)),
    }
}

/// Appends a value of an enum.
#[cycle(value)]
#[inline(never)]
fn variant_value<T: Definitions>(
    table: &T,
    choice: &TypeDefVariant<PortableForm>,
    left: u8,
    value: &Value,
    out: &mut Vec<u8>,
    steps: &mut Vec<Step>,
) -> Result<(), PartError>
    requires { 1 ≤ left }
    ensures ok { OnOk result
        (Appends (definition_within left (T.table table.now) (def.Variant choice.now) value.now)
        out.old.items out.new.items) }
    ensures err { IfErr result
        (Fails (definition_within left (T.table table.now) (def.Variant choice.now) value.now)
        steps.new.items) }
    ensures kept { OnErr result (IsPrefix out.old.items out.new.items) }
{
    let Value::Variant {
        name,
        index,
        fields: values,
    } = value
    else {
        return Err(mismatch(steps));
    };
    let Some(variant) = variant_with_index(choice.variants.as_slice(), *index) else {
        return Err(mismatch(steps));
    };
    if variant.name != *name {
        return Err(mismatch(steps));
    }
    out.push(*index)?;
    fields(
        table,
        variant.fields.as_slice(),
        left,
        values.as_slice(),
        out,
        steps,
    )
}

/// Appends a value of a sequence.
#[cycle(value)]
#[inline(never)]
fn sequence_value<T: Definitions>(
    table: &T,
    sequence: &TypeDefSequence<PortableForm>,
    left: u8,
    value: &Value,
    out: &mut Vec<u8>,
    steps: &mut Vec<Step>,
) -> Result<(), PartError>
    requires { 1 ≤ left }
    ensures ok { OnOk result
        (Appends (definition_within left (T.table table.now)
        (def.Sequence sequence.now) value.now)
        out.old.items out.new.items) }
    ensures err { IfErr result
        (Fails (definition_within left (T.table table.now) (def.Sequence sequence.now) value.now)
        steps.new.items) }
    ensures kept { OnErr result (IsPrefix out.old.items out.new.items) }
{
    match value {
        Value::List(values) => {
            let values = values.as_slice();
            without_parts(count(values.len(), out), steps)?;
            items(
                table,
                &sequence.type_param,
                values.len(),
                left,
                values,
                out,
                steps,
            )
        }
        _ => Err(mismatch(steps)),
    }
}

/// Appends a value of an array.
#[cycle(value)]
#[inline(never)]
fn array_value<T: Definitions>(
    table: &T,
    array: &TypeDefArray<PortableForm>,
    left: u8,
    value: &Value,
    out: &mut Vec<u8>,
    steps: &mut Vec<Step>,
) -> Result<(), PartError>
    requires { 1 ≤ left }
    ensures ok { OnOk result
        (Appends (definition_within left (T.table table.now) (def.Array array.now) value.now)
        out.old.items out.new.items) }
    ensures err { IfErr result
        (Fails (definition_within left (T.table table.now) (def.Array array.now) value.now)
        steps.new.items) }
    ensures kept { OnErr result (IsPrefix out.old.items out.new.items) }
{
    match value {
        Value::List(values) => {
            let count = array.len as usize;
            items(
                table,
                &array.type_param,
                count,
                left,
                values.as_slice(),
                out,
                steps,
            )
        }
        _ => Err(mismatch(steps)),
    }
}

/// Appends so many values of one type. The type is looked up once for all of them.
#[cycle(value)]
#[inline(always)]
fn items<T: Definitions>(
    table: &T,
    ty: &UntrackedSymbol<TypeId>,
    count: usize,
    left: u8,
    values: &[Value],
    out: &mut Vec<u8>,
    steps: &mut Vec<Step>,
) -> Result<(), PartError>
    requires { 1 ≤ left }
    ensures ok { OnOk result
        (Appends (items count (part_within left (T.table table.now) ty.now) values.now)
        out.old.items out.new.items) }
    ensures err { IfErr result
        (Fails (items count (part_within left (T.table table.now) ty.now) values.now)
        steps.new.items) }
    ensures kept { OnErr result (IsPrefix out.old.items out.new.items) }
{
    if count == 0 && values.is_empty() {
        return Ok(());
    }
    if count == 0 || values.is_empty() {
        return Err(mismatch(steps));
    }
    let definition = match definition_of(table, ty.id, left - 1) {
        Ok(definition) => definition,
        Err(failure) => return Err(failure.of_whole(&None, 0, steps)),
    };
    items_by(table, definition, count, left - 1, values, out, steps)
}

/// Appends so many values by the definition of their type.
#[cycle(value)]
#[inline(always)]
fn items_by<T: Definitions>(
    table: &T,
    definition: &TypeDef<PortableForm>,
    count: usize,
    left: u8,
    values: &[Value],
    out: &mut Vec<u8>,
    steps: &mut Vec<Step>,
) -> Result<(), PartError>
    requires { 1 ≤ left }
    ensures ok { OnOk result (Appends
        (in_turn 0 (replicate count (item (definition_within left
        (T.table table.now) definition.now)))
        values.now)
        out.old.items out.new.items) }
    ensures err { IfErr result (Fails
        (in_turn 0 (replicate count (item (definition_within left
        (T.table table.now) definition.now)))
        values.now) steps.new.items) }
    ensures kept { OnErr result (IsPrefix out.old.items out.new.items) }
{
    let mut rest = values;
    for place in 0..count {
        let [value, more @ ..] = rest else {
            return Err(mismatch(steps));
        };
        if let Err(failure) = value_by(table, definition, left, value, out, steps) {
            return Err(failure.of_whole(&None, place, steps));
        }
        rest = more;
    }
    if !rest.is_empty() {
        return Err(mismatch(steps));
    }
    Ok(())
}

/// Appends a value of a tuple.
#[cycle(value)]
#[inline(never)]
fn tuple_value<T: Definitions>(
    table: &T,
    tuple: &TypeDefTuple<PortableForm>,
    left: u8,
    value: &Value,
    out: &mut Vec<u8>,
    steps: &mut Vec<Step>,
) -> Result<(), PartError>
    requires { 1 ≤ left }
    ensures ok { OnOk result
        (Appends (definition_within left (T.table table.now) (def.Tuple tuple.now) value.now)
        out.old.items out.new.items) }
    ensures err { IfErr result
        (Fails (definition_within left (T.table table.now) (def.Tuple tuple.now) value.now)
        steps.new.items) }
    ensures kept { OnErr result (IsPrefix out.old.items out.new.items) }
{
    match value {
        Value::List(values) => {
            members(
                table,
                tuple.fields.as_slice(),
                left,
                values.as_slice(),
                out,
                steps,
            )
        }
        _ => Err(mismatch(steps)),
    }
}

/// Appends a value of each type in order.
#[cycle(value)]
#[inline(always)]
fn members<T: Definitions>(
    table: &T,
    types: &[UntrackedSymbol<TypeId>],
    left: u8,
    values: &[Value],
    out: &mut Vec<u8>,
    steps: &mut Vec<Step>,
) -> Result<(), PartError>
    requires { 1 ≤ left }
    ensures ok { OnOk result
        (Appends (members (map (part_within left (T.table table.now)) types.now) values.now)
        out.old.items out.new.items) }
    ensures err { IfErr result
        (Fails (members (map (part_within left (T.table table.now)) types.now) values.now)
        steps.new.items) }
    ensures kept { OnErr result (IsPrefix out.old.items out.new.items) }
{
    let mut rest = values;
    for (place, ty) in types.iter().enumerate() {
        let [value, more @ ..] = rest else {
            return Err(mismatch(steps));
        };
        if let Err(failure) = value_within(table, ty.id, left - 1, value, out, steps) {
            return Err(failure.of_whole(&None, place, steps));
        }
        rest = more;
    }
    if !rest.is_empty() {
        return Err(mismatch(steps));
    }
    Ok(())
}

/// Appends a value of each field's type in order, which is to have the field's name.
#[cycle(value)]
#[inline(always)]
fn fields<T: Definitions>(
    table: &T,
    all: &[Field<PortableForm>],
    left: u8,
    values: &[(Option<Text>, Value)],
    out: &mut Vec<u8>,
    steps: &mut Vec<Step>,
) -> Result<(), PartError>
    requires { 1 ≤ left }
    ensures ok { OnOk result
        (Appends (fields_within left (T.table table.now) all.now values.now) out.old.items
        out.new.items) }
    ensures err { IfErr result
        (Fails (fields_within left (T.table table.now) all.now values.now) steps.new.items) }
    ensures kept { OnErr result (IsPrefix out.old.items out.new.items) }
{
    let mut rest = values;
    for (place, field) in all.iter().enumerate() {
        let [named, more @ ..] = rest else {
            return Err(mismatch(steps));
        };
        if field.name != named.0 {
            let failure = mismatch(steps);
            return Err(failure.of_whole(&named.0, place, steps));
        }
        if let Err(failure) = value_within(table, field.ty.id, left - 1, &named.1, out, steps) {
            return Err(failure.of_whole(&named.0, place, steps));
        }
        rest = more;
    }
    if !rest.is_empty() {
        return Err(mismatch(steps));
    }
    Ok(())
}

/// Appends a value of a map.
#[cycle(value)]
#[inline(never)]
fn map_value<T: Definitions>(
    table: &T,
    map: &TypeDefMap<PortableForm>,
    left: u8,
    value: &Value,
    out: &mut Vec<u8>,
    steps: &mut Vec<Step>,
) -> Result<(), PartError>
    requires { 1 ≤ left }
    ensures ok { OnOk result
        (Appends (definition_within left (T.table table.now) (def.Map map.now) value.now)
        out.old.items out.new.items) }
    ensures err { IfErr result
        (Fails (definition_within left (T.table table.now) (def.Map map.now) value.now)
        steps.new.items) }
    ensures kept { OnErr result (IsPrefix out.old.items out.new.items) }
{
    match value {
        Value::List(entries) => {
            let entries = entries.as_slice();
            without_parts(count(entries.len(), out), steps)?;
            pairs(table, &map.key, &map.value, left, entries, out, steps)
        }
        _ => Err(mismatch(steps)),
    }
}

/// Appends pairs of a key and a value, each a list of two.
#[cycle(value)]
#[inline(always)]
fn pairs<T: Definitions>(
    table: &T,
    key: &UntrackedSymbol<TypeId>,
    value: &UntrackedSymbol<TypeId>,
    left: u8,
    entries: &[Value],
    out: &mut Vec<u8>,
    steps: &mut Vec<Step>,
) -> Result<(), PartError>
    requires { 1 ≤ left }
    ensures ok { OnOk result (Appends
        (pairs (length entries.now) (part_within left (T.table table.now) key.now)
        (part_within left (T.table table.now) value.now) entries.now)
        out.old.items out.new.items) }
    ensures err { IfErr result (Fails
        (pairs (length entries.now) (part_within left (T.table table.now) key.now)
        (part_within left (T.table table.now) value.now) entries.now)
        steps.new.items) }
    ensures kept { OnErr result (IsPrefix out.old.items out.new.items) }
{
    for (place, entry) in entries.iter().enumerate() {
        if let Err(failure) = pair(table, key, value, left, entry, out, steps) {
            return Err(failure.of_whole(&None, place, steps));
        }
    }
    Ok(())
}

/// Appends a key and a value.
#[cycle(value)]
fn pair<T: Definitions>(
    table: &T,
    key: &UntrackedSymbol<TypeId>,
    value: &UntrackedSymbol<TypeId>,
    left: u8,
    entry: &Value,
    out: &mut Vec<u8>,
    steps: &mut Vec<Step>,
) -> Result<(), PartError>
    requires { 1 ≤ left }
    ensures ok { OnOk result
        (Appends (pair_within left (T.table table.now) key.now value.now entry.now)
        out.old.items out.new.items) }
    ensures err { IfErr result
        (Fails (pair_within left (T.table table.now) key.now value.now entry.now) steps.new.items) }
    ensures kept { OnErr result (IsPrefix out.old.items out.new.items) }
{
    let Value::List(both) = entry else {
        return Err(mismatch(steps));
    };
    let inner = left.saturating_sub(2);
    let [first, more @ ..] = both.as_slice() else {
        return Err(mismatch(steps));
    };
    if let Err(failure) = value_within(table, key.id, inner, first, out, steps) {
        return Err(failure.of_whole(&None, 0, steps));
    }
    let [second, more @ ..] = more else {
        return Err(mismatch(steps));
    };
    if let Err(failure) = value_within(table, value.id, inner, second, out, steps) {
        return Err(failure.of_whole(&None, 1, steps));
    }
    if !more.is_empty() {
        return Err(mismatch(steps));
    }
    Ok(())
}
