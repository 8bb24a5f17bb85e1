//! Values taken from trees by the definitions of their types.
ghost use Rattle.std.specs.Prelude.{◌≡◌, ◌≤◌, ◌-◌, ◌∷◌, [], IfOk, IfErr, map};
ghost use Rattle.serde_json.specs.View.{view};
ghost use Rattle.scale_info_types.specs.declared.ty.TypeDef.TheVariants as def;
ghost use Rattle.scale_info_value.specs.declared.value.Value.TheVariants as Values;
ghost use Rattle.scale_info_value_json.specs.declared.error.ValueJsonError.TheVariants as error;
ghost use Rattle.scale_info_value_json.specs.Takers.{IsErrorOf, taken, in_turn};
ghost use Rattle.scale_info_value_json.specs.DefinitionTakers.{each};
ghost use Rattle.scale_info_value_json.specs.Takings.{taking, value_within, definition_within};
ghost use Rattle.scale_info_value_json.specs.Takings.{seen};
ghost use Rattle.scale_info_value_json.specs.Takings.{items_within, fields_within, takers_within};
ghost use Rattle.scale_info_value_json.specs.Takings.{object_fields_within, array_fields_within};
ghost use Rattle.scale_info_value_json.specs.Takings.{variant_fields_within, pair_within};

use crate::compact::{compact_kind, compact_primitive};
use crate::definition::{definition_of, is_byte};
use crate::error::ValueJsonError;
use crate::list::{byte_list, is_count_of};
use crate::names::is_object_of;
use crate::primitive::primitive;
use crate::tree::{has_members, is_nothing, items_of, member_of, variant_parts};
use crate::variant::chosen;
use scale_info_collections::items::Items;
use scale_info_collections::text::Text;
use scale_info_collections::try_clone::TryClone;
use scale_info_identities::symbol::UntrackedSymbol;
use scale_info_identities::type_id::TypeId;
use scale_info_types::form::PortableForm;
use scale_info_types::ty::{
    Field, TypeDef, TypeDefComposite, TypeDefMap, TypeDefTuple, TypeDefVariant,
};
use scale_info_value::definition::Definitions;
use scale_info_value::value::Value;
use scale_info_value::variants::variant_with_index;
use std::alloc::Global;

/// Takes a value of the type with this id from a JSON tree.
///
/// An id is an index of the table, as for [`PortableRegistry::resolve`]. From the tree of the text
/// of a value, as `append_value_json` writes it, that value is taken, unless a name comes twice
/// among the fields of a record or a variant. What people write by hand is taken too:
///
/// - an integer as a number, or as a string of its decimal digits after a minus sign if any;
/// - a list of bytes as a string of two hexadecimal digits for each, in either case, with `0x`
///   before them or without it, or as an array of integers;
/// - another list, a tuple or a map as an array, and a pair of a map as an array of two;
/// - fields that each have a name of their own as an object with these keys and no others, and
///   other fields as an array;
/// - a variant without fields as its name, or as an object of its name with an empty array; one
///   with fields as an object of its name with the fields; where variants share the name, an object
///   of the name with an array of the index and then, if any, the fields.
///
/// A number that the tree holds as a float, as `1.0` or `-0`, is no integer. A value has depth 1,
/// and each part of a value is one deeper than the value; at most 128 is taken. What is taken has
/// an encoding by the same type. The work is bounded by the tree and by the names of the fields,
/// which are compared with one another.
///
/// Errors: `TooDeep`, where a value is more than 128 deep; `NoSuchType`, where an id is no index of
/// the table; `Unsupported`, where values of a type are not taken; `Mismatch`, where the tree is no
/// value of the type; `Memory`, where an allocation failed.
///
/// With a table that has `Vec<u32>` at index 0:
///
/// ```text
/// let tree = serde_json::Value::from_str(alloc, "[1,\"2\"]")?;
/// let value = from_json(alloc, &table, 0, &tree)?;   // the list of 1 and 2
/// ```
pub fn from_json<T: Definitions>(
    alloc: Global,
    table: &T,
    id: u32,
    tree: &serde_json::Value,
) -> Result<Value, ValueJsonError>
    ensures ok { IfOk result (λ value. taking (T.table table.now) id 1
        (view tree.now) ≡ taken value) }
    ensures err { IfErr result (IsErrorOf (taking (T.table table.now) id 1 (view tree.now))) }
{
    value_within(alloc, table, id, 128, tree)
}

/// A value of the type with this id, where so many levels are left.
#[cycle(value)]
#[inline(always)]
fn value_within<T: Definitions>(
    alloc: Global,
    table: &T,
    id: u32,
    left: u8,
    tree: &serde_json::Value,
) -> Result<Value, ValueJsonError>
    ensures ok { IfOk result
        (λ value. value_within left (T.table table.now) id (view tree.now) ≡ taken value) }
    ensures err { IfErr result (IsErrorOf (value_within left (T.table table.now) id
        (view tree.now))) }
{
    let definition = definition_of(table, id, left)?;
    value_by(alloc, table, definition, left, tree)
}

/// A value by the definition of its type.
///
/// Each kind of definition has a function of its own, which is not inlined, and its loop is inlined
/// into it: so a level of a value takes the stack of its own kind, and not that of all.
#[cycle(value)]
#[inline(never)]
fn value_by<T: Definitions>(
    alloc: Global,
    table: &T,
    definition: &TypeDef<PortableForm>,
    left: u8,
    tree: &serde_json::Value,
) -> Result<Value, ValueJsonError>
    requires { 1 ≤ left }
    ensures ok { IfOk result (λ value.
        definition_within left (T.table table.now) definition.now (view tree.now) ≡ taken value) }
    ensures err { IfErr result
        (IsErrorOf (definition_within left (T.table table.now) definition.now (view tree.now))) }
{
    match definition {
        TypeDef::Composite(composite) => composite_value(alloc, table, composite, left, tree),
        TypeDef::Variant(choice) => variant_value(alloc, table, choice, left, tree),
        TypeDef::Sequence(sequence) => list(alloc, table, &sequence.type_param, None, left, tree),
        TypeDef::Array(array) => {
            list(alloc, table, &array.type_param, Some(array.len), left, tree)
        }
        TypeDef::Tuple(tuple) => tuple_value(alloc, table, tuple, left, tree),
        TypeDef::Primitive(kind) => primitive(alloc, kind, tree),
        TypeDef::Compact(compact) => {
            let kind = compact_kind(table, compact.type_param.id, left)?;
            compact_primitive(kind, tree)
        }
        TypeDef::BitSequence(_) => Err(ValueJsonError::Unsupported),
        TypeDef::Map(map) => map_value(alloc, table, map, left, tree),
    }
}

/// A value of a struct.
#[cycle(value)]
#[inline(never)]
fn composite_value<T: Definitions>(
    alloc: Global,
    table: &T,
    composite: &TypeDefComposite<PortableForm>,
    left: u8,
    tree: &serde_json::Value,
) -> Result<Value, ValueJsonError>
    requires { 1 ≤ left }
    ensures ok { IfOk result (λ value.
        definition_within left (T.table table.now) (def.Composite composite.now) (view tree.now)
        ≡ taken value) }
    ensures err { IfErr result (IsErrorOf
        (definition_within left (T.table table.now) (def.Composite composite.now)
        (view tree.now))) }
{
    let values = fields(alloc, table, composite.fields.as_slice(), left, tree)?;
    Ok(Value::Record(values))
}

/// A value of an enum.
#[cycle(value)]
#[inline(never)]
fn variant_value<T: Definitions>(
    alloc: Global,
    table: &T,
    choice: &TypeDefVariant<PortableForm>,
    left: u8,
    tree: &serde_json::Value,
) -> Result<Value, ValueJsonError>
    requires { 1 ≤ left }
    ensures ok { IfOk result (λ value.
        definition_within left (T.table table.now) (def.Variant choice.now) (view tree.now)
        ≡ taken value) }
    ensures err { IfErr result (IsErrorOf
        (definition_within left (T.table table.now) (def.Variant choice.now) (view tree.now))) }
{
    let Some((name, content)) = variant_parts(tree) else {
        return Err(ValueJsonError::Mismatch);
    };
    let Some((index, content)) = chosen(choice.variants.as_slice(), name, content) else {
        return Err(ValueJsonError::Mismatch);
    };
    let Some(variant) = variant_with_index(choice.variants.as_slice(), index) else {
        return Err(ValueJsonError::Mismatch);
    };
    let is_named = variant.name.as_str() == name;
    if !is_named {
        return Err(ValueJsonError::Mismatch);
    }
    let all = variant.fields.as_slice();
    let fields = variant_fields(alloc, table, all, left, content)?;
    let name = variant.name.try_clone(alloc)?;
    Ok(Value::Variant {
        name,
        index,
        fields,
    })
}

/// The fields of a variant, if it has any.
#[cycle(value)]
#[inline(always)]
fn variant_fields<T: Definitions>(
    alloc: Global,
    table: &T,
    all: &[Field<PortableForm>],
    left: u8,
    content: Option<&serde_json::Value>,
) -> Result<Items<(Option<Text>, Value)>, ValueJsonError>
    requires { 1 ≤ left }
    ensures ok { IfOk result (λ values.
        variant_fields_within left (T.table table.now) all.now
        (seen content.entry) ≡ taken values) }
    ensures err { IfErr result
        (IsErrorOf (variant_fields_within left (T.table table.now) all.now (seen content.entry))) }
{
    if all.is_empty() {
        return if is_nothing(content) {
            Ok(Items::new(alloc))
        } else {
            Err(ValueJsonError::Mismatch)
        };
    }
    match content {
        Some(tree) => fields(alloc, table, all, left, tree),
        None => Err(ValueJsonError::Mismatch),
    }
}

/// The values of fields, under the fields' names.
#[cycle(value)]
#[inline(never)]
fn fields<T: Definitions>(
    alloc: Global,
    table: &T,
    all: &[Field<PortableForm>],
    left: u8,
    tree: &serde_json::Value,
) -> Result<Items<(Option<Text>, Value)>, ValueJsonError>
    requires { 1 ≤ left }
    ensures ok { IfOk result
        (λ values. fields_within left (T.table table.now) all.now (view tree.now) ≡ taken values) }
    ensures err { IfErr result
        (IsErrorOf (fields_within left (T.table table.now) all.now (view tree.now))) }
{
    if is_object_of(alloc, all) {
        return object_fields(alloc, table, all, left, tree);
    }
    match items_of(tree) {
        Some(trees) => array_fields(alloc, table, all, left, trees),
        None => Err(ValueJsonError::Mismatch),
    }
}

/// The values of fields, from the members of an object.
#[cycle(value)]
#[inline(always)]
fn object_fields<T: Definitions>(
    alloc: Global,
    table: &T,
    all: &[Field<PortableForm>],
    left: u8,
    tree: &serde_json::Value,
) -> Result<Items<(Option<Text>, Value)>, ValueJsonError>
    requires { 1 ≤ left }
    ensures ok { IfOk result
        (λ values. object_fields_within left (T.table table.now) all.now
        (view tree.now) ≡ taken values) }
    ensures err { IfErr result
        (IsErrorOf (object_fields_within left (T.table table.now) all.now (view tree.now))) }
{
    if !has_members(all.len(), tree) {
        return Err(ValueJsonError::Mismatch);
    }
    let mut values = Items::new(alloc);
    for field in all {
        let Some(content) = member_of(&field.name, tree) else {
            return Err(ValueJsonError::Mismatch);
        };
        let value = value_within(alloc, table, field.ty.id, left - 1, content)?;
        values.push_towards(all.len(), (field.name.try_clone(alloc)?, value))?;
    }
    Ok(values)
}

/// The values of fields, from trees in order.
#[cycle(value)]
#[inline(always)]
fn array_fields<T: Definitions>(
    alloc: Global,
    table: &T,
    all: &[Field<PortableForm>],
    left: u8,
    trees: &[serde_json::Value],
) -> Result<Items<(Option<Text>, Value)>, ValueJsonError>
    requires { 1 ≤ left }
    ensures ok { IfOk result (λ values.
        array_fields_within left (T.table table.now) all.now (map view trees.now) ≡ taken values) }
    ensures err { IfErr result
        (IsErrorOf (array_fields_within left (T.table table.now) all.now (map view trees.now))) }
{
    let mut values = Items::new(alloc);
    let mut rest = trees;
    for field in all {
        let [tree, more @ ..] = rest else {
            return Err(ValueJsonError::Mismatch);
        };
        let value = value_within(alloc, table, field.ty.id, left - 1, tree)?;
        values.push_towards(all.len(), (field.name.try_clone(alloc)?, value))?;
        rest = more;
    }
    if !rest.is_empty() {
        return Err(ValueJsonError::Mismatch);
    }
    Ok(values)
}

/// A list of items of one type: so many, if there is a count.
#[cycle(value)]
#[inline(never)]
fn list<T: Definitions>(
    alloc: Global,
    table: &T,
    ty: &UntrackedSymbol<TypeId>,
    count: Option<u32>,
    left: u8,
    tree: &serde_json::Value,
) -> Result<Value, ValueJsonError>
    requires { 1 ≤ left }
    ensures ok { IfOk result
        (λ value. items_within left (T.table table.now) ty.now count
        (view tree.now) ≡ taken value) }
    ensures err { IfErr result
        (IsErrorOf (items_within left (T.table table.now) ty.now count (view tree.now))) }
{
    if is_byte(table, ty.id) {
        if let Some(text) = tree.as_str() {
            return byte_list(alloc, count, left, text);
        }
    }
    match items_of(tree) {
        Some(trees) if is_count_of(count, trees.len()) => {
            Ok(Value::List(items(alloc, table, ty, left, trees)?))
        }
        _ => Err(ValueJsonError::Mismatch),
    }
}

/// The values of trees, of one type.
#[cycle(value)]
#[inline(always)]
fn items<T: Definitions>(
    alloc: Global,
    table: &T,
    ty: &UntrackedSymbol<TypeId>,
    left: u8,
    trees: &[serde_json::Value],
) -> Result<Items<Value>, ValueJsonError>
    requires { 1 ≤ left }
    ensures ok { IfOk result (λ values.
        each (value_within (left - 1) (T.table table.now) ty.now.id) (map view trees.now)
        ≡ taken values) }
    ensures err { IfErr result (IsErrorOf
        (each (value_within (left - 1) (T.table table.now) ty.now.id) (map view trees.now))) }
{
    let mut values = Items::new(alloc);
    for tree in trees {
        let value = value_within(alloc, table, ty.id, left - 1, tree)?;
        values.push_towards(trees.len(), value)?;
    }
    Ok(values)
}

/// A value of a tuple.
#[cycle(value)]
#[inline(never)]
fn tuple_value<T: Definitions>(
    alloc: Global,
    table: &T,
    tuple: &TypeDefTuple<PortableForm>,
    left: u8,
    tree: &serde_json::Value,
) -> Result<Value, ValueJsonError>
    requires { 1 ≤ left }
    ensures ok { IfOk result (λ value.
        definition_within left (T.table table.now) (def.Tuple tuple.now)
        (view tree.now) ≡ taken value) }
    ensures err { IfErr result
        (IsErrorOf (definition_within left (T.table table.now) (def.Tuple tuple.now)
        (view tree.now))) }
{
    match items_of(tree) {
        Some(trees) => {
            let types = tuple.fields.as_slice();
            Ok(Value::List(members(alloc, table, types, left, trees)?))
        }
        None => Err(ValueJsonError::Mismatch),
    }
}

/// A value of each type in order.
#[cycle(value)]
#[inline(always)]
fn members<T: Definitions>(
    alloc: Global,
    table: &T,
    types: &[UntrackedSymbol<TypeId>],
    left: u8,
    trees: &[serde_json::Value],
) -> Result<Items<Value>, ValueJsonError>
    requires { 1 ≤ left }
    ensures ok { IfOk result (λ values.
        in_turn (takers_within left (T.table table.now) types.now)
        (map view trees.now) ≡ taken values) }
    ensures err { IfErr result
        (IsErrorOf (in_turn (takers_within left (T.table table.now) types.now)
        (map view trees.now))) }
{
    let mut values = Items::new(alloc);
    let mut rest = trees;
    for ty in types {
        let [tree, more @ ..] = rest else {
            return Err(ValueJsonError::Mismatch);
        };
        let value = value_within(alloc, table, ty.id, left - 1, tree)?;
        values.push_towards(types.len(), value)?;
        rest = more;
    }
    if !rest.is_empty() {
        return Err(ValueJsonError::Mismatch);
    }
    Ok(values)
}

/// A value of a map.
#[cycle(value)]
#[inline(never)]
fn map_value<T: Definitions>(
    alloc: Global,
    table: &T,
    map: &TypeDefMap<PortableForm>,
    left: u8,
    tree: &serde_json::Value,
) -> Result<Value, ValueJsonError>
    requires { 1 ≤ left }
    ensures ok { IfOk result (λ value.
        definition_within left (T.table table.now) (def.Map map.now)
        (view tree.now) ≡ taken value) }
    ensures err { IfErr result
        (IsErrorOf (definition_within left (T.table table.now) (def.Map map.now)
        (view tree.now))) }
{
    match items_of(tree) {
        Some(trees) if is_count_of(None, trees.len()) => {
            Ok(Value::List(pairs(alloc, table, &map.key, &map.value, left, trees)?))
        }
        _ => Err(ValueJsonError::Mismatch),
    }
}

/// The pairs of a key and a value that trees are.
#[cycle(value)]
#[inline(always)]
fn pairs<T: Definitions>(
    alloc: Global,
    table: &T,
    key: &UntrackedSymbol<TypeId>,
    value: &UntrackedSymbol<TypeId>,
    left: u8,
    trees: &[serde_json::Value],
) -> Result<Items<Value>, ValueJsonError>
    requires { 1 ≤ left }
    ensures ok { IfOk result (λ values.
        each (pair_within left (T.table table.now) key.now value.now)
        (map view trees.now) ≡ taken values) }
    ensures err { IfErr result (IsErrorOf
        (each (pair_within left (T.table table.now) key.now value.now) (map view trees.now))) }
{
    let mut values = Items::new(alloc);
    for tree in trees {
        let entry = pair(alloc, table, key, value, left, tree)?;
        values.push_towards(trees.len(), entry)?;
    }
    Ok(values)
}

/// A key and a value.
#[cycle(value)]
fn pair<T: Definitions>(
    alloc: Global,
    table: &T,
    key: &UntrackedSymbol<TypeId>,
    value: &UntrackedSymbol<TypeId>,
    left: u8,
    tree: &serde_json::Value,
) -> Result<Value, ValueJsonError>
    requires { 1 ≤ left }
    ensures ok { IfOk result (λ entry.
        pair_within left (T.table table.now) key.now value.now (view tree.now) ≡ taken entry) }
    ensures err { IfErr result
        (IsErrorOf (pair_within left (T.table table.now) key.now value.now (view tree.now))) }
{
    let inner = left.saturating_sub(2);
    let Some(both) = items_of(tree) else {
        return Err(ValueJsonError::Mismatch);
    };
    let [first, more @ ..] = both else {
        return Err(ValueJsonError::Mismatch);
    };
    let key = value_within(alloc, table, key.id, inner, first)?;
    let [second, more @ ..] = more else {
        return Err(ValueJsonError::Mismatch);
    };
    let value = value_within(alloc, table, value.id, inner, second)?;
    if !more.is_empty() {
        return Err(ValueJsonError::Mismatch);
    }
    Ok(list_of_two(alloc, key, value)?)
}

/// The list of a key and a value.
#[inline(never)]
fn list_of_two(alloc: Global, key: Value, value: Value) -> Result<Value, ValueJsonError>
    ensures ok { IfOk result (λ pair. pair ≡ Values.List (key ∷ value ∷ [])) }
    ensures err { IfErr result (λ e. e ≡ error.Memory) }
{
    Ok(Value::list(vec![in alloc; key, value]?))
}
