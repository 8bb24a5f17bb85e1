//! Values shown by the definitions of their types.
ghost use Rattle.std.specs.Prelude.{◌≡◌, ◌≤◌, ◌-◌, ◌∷◌, [], Some, None, false, IfOk, IfErr, OnOk};
ghost use Rattle.std.specs.Prelude.{replicate};
ghost use Rattle.scale_info_value.specs.Readings.{reading};
ghost use Rattle.scale_info_value_visit.specs.Events.{events, all_named, is_byte, is_shared, names};
ghost use Rattle.scale_info_value_visit.specs.Events.{definition_at, pair_of, list_events};
ghost use Rattle.scale_info_value_visit.specs.Events.{begin_list, end_list};
ghost use Rattle.scale_info_value_visit.specs.Reads.{value_read, part_read, record_read};
ghost use Rattle.scale_info_value_visit.specs.Reads.{variant_read, chosen_read};
ghost use Rattle.scale_info_value_visit.specs.Reads.{fields_read, field_read, list_read};
ghost use Rattle.scale_info_value_visit.specs.Reads.{items_read};
ghost use Rattle.scale_info_value_visit.specs.Reads.{tuple_read, members_read, each, between};
ghost use Rattle.scale_info_value_visit.specs.Reads.{events_read, barred};
ghost use Rattle.scale_info_value_visit.specs.Visits.{HasVisited, HasShown, IsVisitErrorOf};
ghost use Rattle.scale_info_value_visit.specs.Visits.{StopsWithin};

use crate::list::{primitive, primitives};
use crate::visitor::{ValueVisitor, VisitError, shown};
use scale_info_identities::symbol::UntrackedSymbol;
use scale_info_identities::type_id::TypeId;
use scale_info_types::form::PortableForm;
use scale_info_types::ty::variant::{TypeDefVariant, Variant};
use scale_info_types::ty::{Field, TypeDef, TypeDefPrimitive};
use scale_info_value::compact::compact_within;
use scale_info_value::definition::Definitions;
use scale_info_value::integer::{byte, bytes, count};
use scale_info_value::value::Failure;
use scale_info_value::variants::variant_with_index;

/// Shows the visitor one value of the type with this id, at the start of the input, and returns the
/// rest. It does not allocate.
///
/// It decodes what `decode_value` decodes, by the same tables, in the same order, and has the same
/// errors. At `Failed` the visitor was shown all events of what is read before the failure, and no
/// others; at `Stopped` it refused one of them, and was shown those before it.
pub fn visit_value<'i, T: Definitions, V: ValueVisitor>(
    table: &T,
    id: u32,
    input: &'i [u8],
    visitor: &mut V,
) -> Result<&'i [u8], VisitError<V::Error>>
    ensures ok { IfOk result (λ rest. HasVisited V.visited
        (events (T.table table.now) id)
        (reading (T.table table.now) id 1 input.now)
        rest.now visitor.old visitor.new) }
    ensures err { IfErr result (IsVisitErrorOf V.visited V.stopped
        (events_read (T.table table.now) id input.now)
        (reading (T.table table.now) id 1 input.now)
        visitor.old visitor.new) }
{
    value_within(table, id, 128, input, visitor)
}

/// The definition of the type with this id, where so many levels are left for a value of it.
///
/// Errors: `TooDeep`, where none is left; `NoSuchType`, where the id is no index.
#[inline(always)]
fn definition_of<T: Definitions>(
    table: &T,
    id: u32,
    left: u8,
) -> Result<&TypeDef<PortableForm>, Failure>
    ensures level { IfOk result (λ _. 1 ≤ left) }
    ensures found { IfOk result (λ found. definition_at (T.table table.now) id ≡ Some found.now) }
    ensures free { IfOk result (λ _. barred left (definition_at (T.table table.now) id) ≡ None) }
    ensures barred { IfErr result
        (λ why. barred left (definition_at (T.table table.now) id) ≡ Some why) }
{
    if left == 0 {
        return Err(Failure::TooDeep);
    }
    table.definition(id).ok_or(Failure::NoSuchType)
}

/// Shows a value of the type with this id, where so many levels are left.
#[cycle(visit)]
fn value_within<'i, T: Definitions, V: ValueVisitor>(
    table: &T,
    id: u32,
    left: u8,
    input: &'i [u8],
    visitor: &mut V,
) -> Result<&'i [u8], VisitError<V::Error>>
    ensures { HasShown V.visited V.stopped
        (value_read left (T.table table.now) (definition_at (T.table table.now) id) input.now)
        visitor.old visitor.new result }
{
    let definition = definition_of(table, id, left)?;
    value_by(table, definition, left, input, visitor)
}

/// Shows a value by the definition of its type.
#[cycle(visit)]
fn value_by<'i, T: Definitions, V: ValueVisitor>(
    table: &T,
    definition: &TypeDef<PortableForm>,
    left: u8,
    input: &'i [u8],
    visitor: &mut V,
) -> Result<&'i [u8], VisitError<V::Error>>
    requires { 1 ≤ left }
    ensures { HasShown V.visited V.stopped
        (value_read left (T.table table.now) (Some definition.now) input.now)
        visitor.old visitor.new result }
{
    match definition {
        TypeDef::Composite(composite) => {
            record(table, composite.fields.as_slice(), left, input, visitor)
        }
        TypeDef::Variant(choice) => variant(table, choice, left, input, visitor),
        TypeDef::Sequence(sequence) => {
            let (count, rest) = count(input)?;
            list(table, &sequence.type_param, count, left, rest, visitor)
        }
        TypeDef::Array(array) => list(table, &array.type_param, array.len, left, input, visitor),
        TypeDef::Tuple(tuple) => members(table, tuple.fields.as_slice(), left, input, visitor),
        TypeDef::Primitive(kind) => primitive(kind, input, visitor),
        TypeDef::Compact(inner) => {
            let (integer, rest) = compact_within(table, inner.type_param.id, left, input)?;
            shown(visitor.unsigned(integer))?;
            Ok(rest)
        }
        TypeDef::BitSequence(_) => Err(VisitError::Failed(Failure::Unsupported)),
        TypeDef::Map(map) => {
            let (count, rest) = count(input)?;
            pairs(table, &map.key, &map.value, count, left, rest, visitor)
        }
    }
}

/// Whether each of the fields has a name.
pub fn all_named(fields: &[Field<PortableForm>]) -> bool
    ensures { result ≡ all_named (names fields.now) }
{
    for field in fields {
        if field.name.is_none() {
            return false;
        }
    }
    true
}

/// Whether more than one of the variants of an enum has this variant's name. The Rust compiler writes
/// no such enum, but a table may come from elsewhere.
pub fn shares_name(choice: &[Variant<PortableForm>], variant: &Variant<PortableForm>) -> bool
    ensures { result ≡ is_shared choice.now variant.now.name }
{
    let mut found = false;
    for other in choice {
        if other.name == variant.name {
            if found {
                return true;
            }
            found = true;
        }
    }
    false
}

/// Shows the record of these fields.
#[cycle(visit)]
fn record<'i, T: Definitions, V: ValueVisitor>(
    table: &T,
    all: &[Field<PortableForm>],
    left: u8,
    input: &'i [u8],
    visitor: &mut V,
) -> Result<&'i [u8], VisitError<V::Error>>
    requires { 1 ≤ left }
    ensures { HasShown V.visited V.stopped
        (record_read (T.table table.now) (part_read left (T.table table.now)) all.now input.now)
        visitor.old visitor.new result }
{
    shown(visitor.begin_record(all))?;
    let rest = fields(table, all, all_named(all), left, input, visitor)?;
    shown(visitor.end_record(all))?;
    Ok(rest)
}

/// Shows a value of an enum.
#[cycle(visit)]
fn variant<'i, T: Definitions, V: ValueVisitor>(
    table: &T,
    choice: &TypeDefVariant<PortableForm>,
    left: u8,
    input: &'i [u8],
    visitor: &mut V,
) -> Result<&'i [u8], VisitError<V::Error>>
    requires { 1 ≤ left }
    ensures { HasShown V.visited V.stopped
        (variant_read (T.table table.now) (part_read left (T.table table.now))
        choice.now.variants input.now)
        visitor.old visitor.new result }
{
    let (index, rest) = byte(input)?;
    let variants = choice.variants.as_slice();
    match variant_with_index(variants, index) {
        None => Err(VisitError::Failed(Failure::Malformed)),
        Some(variant) => chosen(table, variants, variant, left, rest, visitor),
    }
}

/// Shows a value of this variant of the enum, whose fields are at the start of the input.
#[cycle(visit)]
fn chosen<'i, T: Definitions, V: ValueVisitor>(
    table: &T,
    choice: &[Variant<PortableForm>],
    variant: &Variant<PortableForm>,
    left: u8,
    input: &'i [u8],
    visitor: &mut V,
) -> Result<&'i [u8], VisitError<V::Error>>
    requires { 1 ≤ left }
    ensures { HasShown V.visited V.stopped
        (chosen_read (T.table table.now) (part_read left (T.table table.now))
        choice.now (Some variant.now) input.now)
        visitor.old visitor.new result }
{
    let all = variant.fields.as_slice();
    shown(visitor.begin_variant(choice, variant))?;
    let rest = fields(table, all, all_named(all), left, input, visitor)?;
    shown(visitor.end_variant(choice, variant))?;
    Ok(rest)
}

/// Shows a value of each field's type in order, after the field's name.
#[cycle(visit)]
fn fields<'i, T: Definitions, V: ValueVisitor>(
    table: &T,
    all: &[Field<PortableForm>],
    named: bool,
    left: u8,
    input: &'i [u8],
    visitor: &mut V,
) -> Result<&'i [u8], VisitError<V::Error>>
    requires { 1 ≤ left }
    ensures { HasShown V.visited V.stopped
        (fields_read (T.table table.now) (part_read left (T.table table.now))
        named all.now input.now)
        visitor.old visitor.new result }
{
    let mut rest = input;
    for next in all {
        rest = field(table, next, named, left, rest, visitor)?;
    }
    Ok(rest)
}

/// Shows a field's name, and then its value.
#[cycle(visit)]
fn field<'i, T: Definitions, V: ValueVisitor>(
    table: &T,
    next: &Field<PortableForm>,
    named: bool,
    left: u8,
    input: &'i [u8],
    visitor: &mut V,
) -> Result<&'i [u8], VisitError<V::Error>>
    requires { 1 ≤ left }
    ensures { HasShown V.visited V.stopped
        (field_read (T.table table.now) (part_read left (T.table table.now))
        named next.now input.now)
        visitor.old visitor.new result }
{
    shown(visitor.field(next, named))?;
    value_within(table, next.ty.id, left - 1, input, visitor)
}

/// Shows a list of so many values of one type. The type is looked up once for all of them.
#[cycle(visit)]
fn list<'i, T: Definitions, V: ValueVisitor>(
    table: &T,
    ty: &UntrackedSymbol<TypeId>,
    count: u32,
    left: u8,
    input: &'i [u8],
    visitor: &mut V,
) -> Result<&'i [u8], VisitError<V::Error>>
    requires { 1 ≤ left }
    ensures { HasShown V.visited V.stopped
        (list_read (left - 1) (part_read left (T.table table.now))
        (definition_at (T.table table.now) ty.now.id) count input.now)
        visitor.old visitor.new result }
{
    if count == 0 {
        shown(empty_list(table, ty, visitor))?;
        return Ok(input);
    }
    let definition = definition_of(table, ty.id, left - 1)?;
    list_by(table, definition, count, left - 1, input, visitor)
}

/// Whether values of the type are bytes.
fn is_byte(definition: &TypeDef<PortableForm>) -> bool
    ensures { result ≡ is_byte (Some definition.now) }
{
    match definition {
        TypeDef::Primitive(kind) => *kind == TypeDefPrimitive::U8,
        _ => false,
    }
}

/// Whether values of the type with this id are bytes.
fn is_byte_at<T: Definitions>(table: &T, id: u32) -> bool
    ensures { result ≡ is_byte (definition_at (T.table table.now) id) }
{
    match table.definition(id) {
        None => false,
        Some(definition) => is_byte(definition),
    }
}

/// Shows a list of no items, also of a type that is no index.
fn empty_list<T: Definitions, V: ValueVisitor>(
    table: &T,
    ty: &UntrackedSymbol<TypeId>,
    visitor: &mut V,
) -> Result<(), V::Error>
    ensures ok { OnOk result (V.visited
        (list_events (is_byte (definition_at (T.table table.now) ty.now.id)) [])
        visitor.old visitor.new) }
    ensures err { IfErr result (λ e. StopsWithin V.stopped
        (list_events (is_byte (definition_at (T.table table.now) ty.now.id)) [])
        visitor.old e visitor.new) }
{
    if is_byte_at(table, ty.id) {
        return visitor.bytes(&[]);
    }
    visitor.begin_list(0)?;
    visitor.end_list()
}

/// Shows a list of so many values by the definition of their type: bytes at once.
#[cycle(visit)]
fn list_by<'i, T: Definitions, V: ValueVisitor>(
    table: &T,
    definition: &TypeDef<PortableForm>,
    count: u32,
    left: u8,
    input: &'i [u8],
    visitor: &mut V,
) -> Result<&'i [u8], VisitError<V::Error>>
    requires { 1 ≤ left }
    ensures { HasShown V.visited V.stopped
        (items_read (is_byte (Some definition.now)) count
        (value_read left (T.table table.now) (Some definition.now)) input.now)
        visitor.old visitor.new result }
{
    if is_byte(definition) {
        let (all, rest) = bytes(count as usize, input)?;
        shown(visitor.bytes(all))?;
        return Ok(rest);
    }
    list_of_items(table, definition, count, left, input, visitor)
}

/// Shows a list of so many values that are no bytes, by the definition of their type.
#[cycle(visit)]
fn list_of_items<'i, T: Definitions, V: ValueVisitor>(
    table: &T,
    definition: &TypeDef<PortableForm>,
    count: u32,
    left: u8,
    input: &'i [u8],
    visitor: &mut V,
) -> Result<&'i [u8], VisitError<V::Error>>
    requires { 1 ≤ left }
    ensures { HasShown V.visited V.stopped
        (items_read false count
        (value_read left (T.table table.now) (Some definition.now)) input.now)
        visitor.old visitor.new result }
{
    shown(visitor.begin_list(count as usize))?;
    let rest = items(table, definition, count, left, input, visitor)?;
    shown(visitor.end_list())?;
    Ok(rest)
}

/// Shows so many values by the definition of their type.
#[cycle(visit)]
#[inline(never)]
fn items<'i, T: Definitions, V: ValueVisitor>(
    table: &T,
    definition: &TypeDef<PortableForm>,
    count: u32,
    left: u8,
    input: &'i [u8],
    visitor: &mut V,
) -> Result<&'i [u8], VisitError<V::Error>>
    requires { 1 ≤ left }
    ensures { HasShown V.visited V.stopped
        (each (replicate count (value_read left (T.table table.now) (Some definition.now)))
        input.now)
        visitor.old visitor.new result }
{
    if let TypeDef::Primitive(kind) = definition {
        return primitives(kind, count, input, visitor);
    }
    let mut rest = input;
    for _ in 0..count {
        rest = value_by(table, definition, left, rest, visitor)?;
    }
    Ok(rest)
}

/// Shows the list of a value of each type in order.
#[cycle(visit)]
fn members<'i, T: Definitions, V: ValueVisitor>(
    table: &T,
    types: &[UntrackedSymbol<TypeId>],
    left: u8,
    input: &'i [u8],
    visitor: &mut V,
) -> Result<&'i [u8], VisitError<V::Error>>
    requires { 1 ≤ left }
    ensures { HasShown V.visited V.stopped
        (tuple_read (T.table table.now) (part_read left (T.table table.now)) types.now input.now)
        visitor.old visitor.new result }
{
    shown(visitor.begin_list(types.len()))?;
    let rest = each_member(table, types, left, input, visitor)?;
    shown(visitor.end_list())?;
    Ok(rest)
}

/// Shows a value of each type in order.
#[cycle(visit)]
fn each_member<'i, T: Definitions, V: ValueVisitor>(
    table: &T,
    types: &[UntrackedSymbol<TypeId>],
    left: u8,
    input: &'i [u8],
    visitor: &mut V,
) -> Result<&'i [u8], VisitError<V::Error>>
    requires { 1 ≤ left }
    ensures { HasShown V.visited V.stopped
        (members_read (T.table table.now) (part_read left (T.table table.now)) types.now input.now)
        visitor.old visitor.new result }
{
    let mut rest = input;
    for ty in types {
        rest = value_within(table, ty.id, left - 1, rest, visitor)?;
    }
    Ok(rest)
}

/// Shows the list of so many pairs of a key and a value.
#[cycle(visit)]
fn pairs<'i, T: Definitions, V: ValueVisitor>(
    table: &T,
    key: &UntrackedSymbol<TypeId>,
    value: &UntrackedSymbol<TypeId>,
    count: u32,
    left: u8,
    input: &'i [u8],
    visitor: &mut V,
) -> Result<&'i [u8], VisitError<V::Error>>
    requires { 1 ≤ left }
    ensures { HasShown V.visited V.stopped
        (between (begin_list count) (each (replicate count
        (part_read left (T.table table.now) (Some (pair_of key.now value.now)))))
        end_list input.now)
        visitor.old visitor.new result }
{
    shown(visitor.begin_list(count as usize))?;
    let rest = each_pair(table, key, value, count, left, input, visitor)?;
    shown(visitor.end_list())?;
    Ok(rest)
}

/// Shows so many pairs of a key and a value.
#[cycle(visit)]
fn each_pair<'i, T: Definitions, V: ValueVisitor>(
    table: &T,
    key: &UntrackedSymbol<TypeId>,
    value: &UntrackedSymbol<TypeId>,
    count: u32,
    left: u8,
    input: &'i [u8],
    visitor: &mut V,
) -> Result<&'i [u8], VisitError<V::Error>>
    requires { 1 ≤ left }
    ensures { HasShown V.visited V.stopped
        (each (replicate count
        (part_read left (T.table table.now) (Some (pair_of key.now value.now)))) input.now)
        visitor.old visitor.new result }
{
    let mut rest = input;
    for _ in 0..count {
        rest = pair(table, key, value, left - 1, rest, visitor)?;
    }
    Ok(rest)
}

/// Shows the list of a key and a value, where so many levels are left for it.
#[cycle(visit)]
fn pair<'i, T: Definitions, V: ValueVisitor>(
    table: &T,
    key: &UntrackedSymbol<TypeId>,
    value: &UntrackedSymbol<TypeId>,
    left: u8,
    input: &'i [u8],
    visitor: &mut V,
) -> Result<&'i [u8], VisitError<V::Error>>
    ensures { HasShown V.visited V.stopped
        (value_read left (T.table table.now) (Some (pair_of key.now value.now)) input.now)
        visitor.old visitor.new result }
{
    if left == 0 {
        return Err(VisitError::Failed(Failure::TooDeep));
    }
    shown(visitor.begin_list(2))?;
    let rest = key_and_value(table, key, value, left, input, visitor)?;
    shown(visitor.end_list())?;
    Ok(rest)
}

/// Shows a key and a value.
#[cycle(visit)]
fn key_and_value<'i, T: Definitions, V: ValueVisitor>(
    table: &T,
    key: &UntrackedSymbol<TypeId>,
    value: &UntrackedSymbol<TypeId>,
    left: u8,
    input: &'i [u8],
    visitor: &mut V,
) -> Result<&'i [u8], VisitError<V::Error>>
    requires { 1 ≤ left }
    ensures { HasShown V.visited V.stopped
        (members_read (T.table table.now) (part_read left (T.table table.now))
        (key.now ∷ value.now ∷ []) input.now)
        visitor.old visitor.new result }
{
    let rest = value_within(table, key.id, left - 1, input, visitor)?;
    value_within(table, value.id, left - 1, rest, visitor)
}
