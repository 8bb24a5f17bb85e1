//! The name of a type, as the field of another type mentions it.
ghost use Rattle.std.specs.Prelude.{◌≡◌, IfOk, string_bytes, decimal};
ghost use Rattle.scale_info_types.specs.declared.ty.TypeDef.TheVariants as def;
ghost use Rattle.scale_info_table_describe.specs.TypeNames.{Appends, name_within, name_at, named};
ghost use Rattle.scale_info_table_describe.specs.TypeNames.{definition_name, argument, arguments};
ghost use Rattle.scale_info_table_describe.specs.TypeNames.{tuple_name, field_on_line};
ghost use Rattle.scale_info_table_describe.specs.TypeNames.{fields_on_line};
ghost use Rattle.scale_info_table_describe.specs.TypeNames.{variants_on_line};

use crate::fields::has_name;
use itoa::Buffer;
use scale_info_identities::symbol::UntrackedSymbol;
use scale_info_identities::type_id::TypeId;
use scale_info_table::definitions::Definitions;
use scale_info_types::form::PortableForm;
use scale_info_types::ty::variant::Variant;
use scale_info_types::ty::{Field, Type, TypeDef, TypeDefBitSequence, TypeDefMap, TypeParameter};
use std::alloc::{AllocError, Global};

/// How many types deep a name goes, 1 for the type itself. In the place of a type that lies deeper
/// stands `..`.
pub const NAME_DEPTH: u8 = 8;

/// The name of the type with this id, as Rust writes the type of a field.
///
/// A type with a path has its last segment, and the arguments for its parameters behind it; a
/// parameter without a type stands by its own name. Other types are written out, at most
/// [`NAME_DEPTH`] types deep. An id that is no index of the table is `#` and the id.
///
/// Errors: `AllocError`, if an allocation failed.
///
/// ```text
/// name_of(alloc, &table, 3)?  // "BTreeMap<AccountId, Vec<Compact<u128>>>"
/// ```
pub fn name_of<T: Definitions>(alloc: Global, table: &T, id: u32) -> Result<String, AllocError>
    ensures { IfOk result (λ name. string_bytes name ≡ name_at (T.table table.now) id) }
{
    let mut out = String::new(alloc);
    append_name(&mut out, table, id, NAME_DEPTH)?;
    Ok(out)
}

/// Appends a number in decimal digits.
pub(crate) fn append_number(out: &mut String, number: u32) -> Result<(), AllocError>
    ensures { Appends result out.old out.new (decimal number) }
{
    let mut buffer = Buffer::new();
    out.push_str(buffer.format(number))
}

/// Appends the name of the type with this id, which is at most so many types deep.
#[cycle(name)]
pub(crate) fn append_name<T: Definitions>(
    out: &mut String,
    table: &T,
    id: u32,
    left: u8,
) -> Result<(), AllocError>
    ensures { Appends result out.old out.new (name_within left (T.table table.now) id) }
{
    if left == 0 {
        return out.push_str("..");
    }
    match table.description(id) {
        None => {
            out.push_str("#")?;
            append_number(out, id)
        }
        Some(ty) => append_named(out, table, ty, left - 1),
    }
}

/// Appends the name of the type of this description.
#[cycle(name)]
fn append_named<T: Definitions>(
    out: &mut String,
    table: &T,
    ty: &Type<PortableForm>,
    left: u8,
) -> Result<(), AllocError>
    ensures { Appends result out.old out.new (named (name_within left (T.table table.now)) ty.now) }
{
    match ty.path.segments.as_slice().last() {
        None => append_definition(out, table, &ty.type_def, left),
        Some(segment) => {
            out.push_str(segment.as_str())?;
            append_arguments(out, table, ty.type_params.as_slice(), left)
        }
    }
}

/// Appends the arguments for a type's parameters, in angle brackets; nothing where there is no
/// parameter.
#[cycle(name)]
pub(crate) fn append_arguments<T: Definitions>(
    out: &mut String,
    table: &T,
    parameters: &[TypeParameter<PortableForm>],
    left: u8,
) -> Result<(), AllocError>
    ensures { Appends result out.old out.new
        (arguments (name_within left (T.table table.now)) parameters.now) }
{
    let Some((first, others)) = parameters.split_first() else {
        return Ok(());
    };
    out.push_str("<")?;
    append_argument(out, table, first, left)?;
    for parameter in others {
        out.push_str(", ")?;
        append_argument(out, table, parameter, left)?;
    }
    out.push_str(">")
}

/// Appends the argument for a parameter: the name of its type, or else its own.
#[cycle(name)]
fn append_argument<T: Definitions>(
    out: &mut String,
    table: &T,
    parameter: &TypeParameter<PortableForm>,
    left: u8,
) -> Result<(), AllocError>
    ensures { Appends result out.old out.new
        (argument (name_within left (T.table table.now)) parameter.now) }
{
    match &parameter.ty {
        None => out.push_str(parameter.name.as_str()),
        Some(ty) => append_name(out, table, ty.id, left),
    }
}

/// Appends a definition, written out.
#[cycle(name)]
pub(crate) fn append_definition<T: Definitions>(
    out: &mut String,
    table: &T,
    definition: &TypeDef<PortableForm>,
    left: u8,
) -> Result<(), AllocError>
    ensures { Appends result out.old out.new
        (definition_name (name_within left (T.table table.now)) definition.now) }
{
    match definition {
        TypeDef::Composite(composite) => {
            out.push_str("struct")?;
            append_fields_on_line(out, table, composite.fields.as_slice(), left)
        }
        TypeDef::Variant(choice) => append_variants(out, table, choice.variants.as_slice(), left),
        TypeDef::Sequence(sequence) => {
            out.push_str("Vec<")?;
            append_name(out, table, sequence.type_param.id, left)?;
            out.push_str(">")
        }
        TypeDef::Array(array) => {
            out.push_str("[")?;
            append_name(out, table, array.type_param.id, left)?;
            out.push_str("; ")?;
            append_number(out, array.len)?;
            out.push_str("]")
        }
        TypeDef::Tuple(tuple) => append_tuple(out, table, tuple.fields.as_slice(), left),
        TypeDef::Primitive(primitive) => out.push_str(primitive.name()),
        TypeDef::Compact(compact) => {
            out.push_str("Compact<")?;
            append_name(out, table, compact.type_param.id, left)?;
            out.push_str(">")
        }
        TypeDef::BitSequence(bits) => append_bits(out, table, bits, left),
        TypeDef::Map(map) => append_map(out, table, map, left),
    }
}

/// Appends a sequence of bits by the types of its store and its order.
#[cycle(name)]
fn append_bits<T: Definitions>(
    out: &mut String,
    table: &T,
    bits: &TypeDefBitSequence<PortableForm>,
    left: u8,
) -> Result<(), AllocError>
    ensures { Appends result out.old out.new
        (definition_name (name_within left (T.table table.now)) (def.BitSequence bits.now)) }
{
    out.push_str("BitSequence<")?;
    append_name(out, table, bits.bit_store_type.id, left)?;
    out.push_str(", ")?;
    append_name(out, table, bits.bit_order_type.id, left)?;
    out.push_str(">")
}

/// Appends a map by the types of its keys and values.
#[cycle(name)]
fn append_map<T: Definitions>(
    out: &mut String,
    table: &T,
    map: &TypeDefMap<PortableForm>,
    left: u8,
) -> Result<(), AllocError>
    ensures { Appends result out.old out.new
        (definition_name (name_within left (T.table table.now)) (def.Map map.now)) }
{
    out.push_str("BTreeMap<")?;
    append_name(out, table, map.key.id, left)?;
    out.push_str(", ")?;
    append_name(out, table, map.value.id, left)?;
    out.push_str(">")
}

/// Appends a tuple of these types. As in Rust, a comma is behind the one member of a tuple.
#[cycle(name)]
fn append_tuple<T: Definitions>(
    out: &mut String,
    table: &T,
    members: &[UntrackedSymbol<TypeId>],
    left: u8,
) -> Result<(), AllocError>
    ensures { Appends result out.old out.new
        (tuple_name (name_within left (T.table table.now)) members.now) }
{
    let Some((first, others)) = members.split_first() else {
        return out.push_str("()");
    };
    out.push_str("(")?;
    append_name(out, table, first.id, left)?;
    if others.is_empty() {
        return out.push_str(",)");
    }
    for member in others {
        out.push_str(", ")?;
        append_name(out, table, member.id, left)?;
    }
    out.push_str(")")
}

/// Appends fields on one line, in brackets; nothing where there is no field.
#[cycle(name)]
pub(crate) fn append_fields_on_line<T: Definitions>(
    out: &mut String,
    table: &T,
    fields: &[Field<PortableForm>],
    left: u8,
) -> Result<(), AllocError>
    ensures { Appends result out.old out.new
        (fields_on_line (name_within left (T.table table.now)) fields.now) }
{
    let Some((first, others)) = fields.split_first() else {
        return Ok(());
    };
    let named = has_name(fields);
    out.push_str(if named { " { " } else { "(" })?;
    append_field(out, table, first, left)?;
    for field in others {
        out.push_str(", ")?;
        append_field(out, table, field, left)?;
    }
    out.push_str(if named { " }" } else { ")" })
}

/// Appends a field: its name, if it has one, and the name of its type.
#[cycle(name)]
pub(crate) fn append_field<T: Definitions>(
    out: &mut String,
    table: &T,
    field: &Field<PortableForm>,
    left: u8,
) -> Result<(), AllocError>
    ensures { Appends result out.old out.new
        (field_on_line (name_within left (T.table table.now)) field.now) }
{
    if let Some(name) = &field.name {
        out.push_str(name.as_str())?;
        out.push_str(": ")?;
    }
    append_name(out, table, field.ty.id, left)
}

/// Appends an enum without a name: its variants on one line, in braces.
#[cycle(name)]
fn append_variants<T: Definitions>(
    out: &mut String,
    table: &T,
    variants: &[Variant<PortableForm>],
    left: u8,
) -> Result<(), AllocError>
    ensures { Appends result out.old out.new
        (variants_on_line (name_within left (T.table table.now)) variants.now) }
{
    out.push_str("enum {")?;
    for variant in variants {
        out.push_str(" ")?;
        out.push_str(variant.name.as_str())?;
        append_fields_on_line(out, table, variant.fields.as_slice(), left)?;
        out.push_str(",")?;
    }
    out.push_str(" }")
}
