//! A type as Rust declares it.
ghost use Rattle.std.specs.Prelude.{◌≡◌, ◌↔◌, ◌≤◌, [], length, option_map};
ghost use Rattle.std.specs.Prelude.{IfOk, OnErr, IsNone, is_some, string_bytes, unwrap_or};
ghost use Rattle.scale_info_table_describe.specs.TypeNames.{Appends, name_within};
ghost use Rattle.scale_info_table_describe.specs.TypeDeclarations.{description_at, declaration};
ghost use Rattle.scale_info_table_describe.specs.TypeDeclarations.{alias};
ghost use Rattle.scale_info_table_describe.specs.TypeDeclarations.{documentation, fields_on_lines};
ghost use Rattle.scale_info_table_describe.specs.TypeDeclarations.{title};
ghost use Rattle.scale_info_table_describe.specs.TypeDeclarations.{field_line, fields_of};
ghost use Rattle.scale_info_table_describe.specs.TypeDeclarations.{variant_line};
ghost use Rattle.scale_info_table_describe.specs.TypeDeclarations.{declared_enum, declared_struct};

use crate::fields::{has_docs, has_name};
use crate::names::{
    NAME_DEPTH, append_arguments, append_definition, append_field, append_fields_on_line,
    append_number,
};
use scale_info_collections::text::Text;
use scale_info_table::definitions::Definitions;
use scale_info_types::form::PortableForm;
use scale_info_types::ty::variant::Variant;
use scale_info_types::ty::{Field, Type, TypeDef};
use std::alloc::{AllocError, Global};

/// The blanks before a field or a variant.
const FOUR: &str = "    ";

/// The blanks before a field of a variant.
const EIGHT: &str = "        ";

/// The type with this id, as Rust declares it; None, where the id is no index of the table.
///
/// A struct or an enum has its fields and variants one a line, each variant with its index, and its
/// documentation above each of them. Another type that has a path is an alias, and one that has
/// none is written out. Types are mentioned by [`name_of`](crate::names::name_of). The text has no
/// line feed at the end. Texts of the table stand as they are, whatever they hold.
///
/// Only what is written takes time, but the text of a type can be much longer than the table: a
/// tuple of a thousand members, each of which is that tuple, is written eight levels deep. Against
/// tables from outside, bound the lists of the table first.
///
/// Errors: `AllocError`, if an allocation failed.
///
/// ```text
/// describe(alloc, &table, 7)?  // struct Transfer {
///                              //     dest: AccountId,
///                              //     amount: Compact<u128>,
///                              // }
/// ```
pub fn describe<T: Definitions>(
    alloc: Global,
    table: &T,
    id: u32,
) -> Result<Option<String>, AllocError>
    ensures text { IfOk result
        (λ text. option_map string_bytes text ≡ description_at (T.table table.now) id) }
    ensures none { IfOk result (λ text. IsNone text ↔ (length (T.table table.now).types ≤ id)) }
{
    let Some(ty) = table.description(id) else {
        return Ok(None);
    };
    let mut out = String::new(alloc);
    append_declaration(&mut out, table, ty)?;
    Ok(Some(out))
}

/// Appends the text that `describe` makes of the type with this id, and returns whether the id is
/// an index of the table. If not, the output stays as it was.
///
/// Errors: `AllocError`, if an allocation failed. The output is then as it was.
pub fn append_description<T: Definitions>(
    alloc: Global,
    table: &T,
    id: u32,
    out: &mut String,
) -> Result<bool, AllocError>
    ensures found { IfOk result (λ found. found ≡ is_some (description_at (T.table table.now) id)) }
    ensures text { Appends result out.old out.new (unwrap_or (description_at
        (T.table table.now) id) []) }
    ensures keeps { OnErr result (string_bytes out.new ≡ string_bytes out.old) }
{
    match describe(alloc, table, id)? {
        None => Ok(false),
        Some(text) => {
            out.push_str(text.as_str())?;
            Ok(true)
        }
    }
}

/// Appends the declaration of a type, with its documentation.
fn append_declaration<T: Definitions>(
    out: &mut String,
    table: &T,
    ty: &Type<PortableForm>,
) -> Result<(), AllocError>
    ensures { Appends result out.old out.new (declaration (name_within 8
        (T.table table.now)) ty.now) }
{
    append_documentation(out, "", ty.docs.as_slice())?;
    match &ty.type_def {
        TypeDef::Composite(composite) => {
            append_struct(out, table, ty, composite.fields.as_slice())
        }
        TypeDef::Variant(choice) => append_enum(out, table, ty, choice.variants.as_slice()),
        definition => append_alias(out, table, ty, definition),
    }
}

/// Appends lines of documentation, each behind these blanks.
fn append_documentation(out: &mut String, blanks: &str, docs: &[Text]) -> Result<(), AllocError>
    ensures { Appends result out.old out.new (documentation blanks.now docs.now) }
{
    for line in docs {
        out.push_str(blanks)?;
        out.push_str("/// ")?;
        out.push_str(line.as_str())?;
        out.push_str("\n")?;
    }
    Ok(())
}

/// Appends a blank and the type's name, if it has a path.
fn append_title<T: Definitions>(
    out: &mut String,
    table: &T,
    ty: &Type<PortableForm>,
) -> Result<(), AllocError>
    ensures { Appends result out.old out.new (title (name_within 8 (T.table table.now)) ty.now) }
{
    let Some(segment) = ty.path.segments.as_slice().last() else {
        return Ok(());
    };
    out.push_str(" ")?;
    out.push_str(segment.as_str())?;
    append_arguments(out, table, ty.type_params.as_slice(), NAME_DEPTH)
}

/// Appends a struct with these fields.
fn append_struct<T: Definitions>(
    out: &mut String,
    table: &T,
    ty: &Type<PortableForm>,
    fields: &[Field<PortableForm>],
) -> Result<(), AllocError>
    ensures { Appends result out.old out.new
        (declared_struct (name_within 8 (T.table table.now)) ty.now fields.now) }
{
    out.push_str("struct")?;
    append_title(out, table, ty)?;
    append_fields(out, table, "", FOUR, fields)?;
    if has_name(fields) {
        return Ok(());
    }
    out.push_str(";")
}

/// Appends an enum with these variants.
fn append_enum<T: Definitions>(
    out: &mut String,
    table: &T,
    ty: &Type<PortableForm>,
    variants: &[Variant<PortableForm>],
) -> Result<(), AllocError>
    ensures { Appends result out.old out.new
        (declared_enum (name_within 8 (T.table table.now)) ty.now variants.now) }
{
    out.push_str("enum")?;
    append_title(out, table, ty)?;
    out.push_str(" {\n")?;
    for variant in variants {
        append_variant(out, table, variant)?;
    }
    out.push_str("}")
}

/// Appends the lines of a variant: its documentation, its fields and its index.
fn append_variant<T: Definitions>(
    out: &mut String,
    table: &T,
    variant: &Variant<PortableForm>,
) -> Result<(), AllocError>
    ensures { Appends result out.old out.new (variant_line (name_within 8
        (T.table table.now)) variant.now) }
{
    append_documentation(out, FOUR, variant.docs.as_slice())?;
    out.push_str(FOUR)?;
    out.push_str(variant.name.as_str())?;
    append_fields(out, table, FOUR, EIGHT, variant.fields.as_slice())?;
    out.push_str(" = ")?;
    append_number(out, variant.index as u32)?;
    out.push_str(",\n")
}

/// Appends fields: on one line, if none has a name or documentation, and else one a line, behind
/// the inner blanks.
fn append_fields<T: Definitions>(
    out: &mut String,
    table: &T,
    outer: &str,
    inner: &str,
    fields: &[Field<PortableForm>],
) -> Result<(), AllocError>
    ensures { Appends result out.old out.new
        (fields_of (name_within 8 (T.table table.now)) outer.now inner.now fields.now) }
{
    if has_name(fields) || has_docs(fields) {
        return append_field_lines(out, table, outer, inner, fields);
    }
    append_fields_on_line(out, table, fields, NAME_DEPTH)
}

/// Appends fields one a line, in brackets.
fn append_field_lines<T: Definitions>(
    out: &mut String,
    table: &T,
    outer: &str,
    inner: &str,
    fields: &[Field<PortableForm>],
) -> Result<(), AllocError>
    ensures { Appends result out.old out.new
        (fields_on_lines (name_within 8 (T.table table.now)) outer.now inner.now fields.now) }
{
    let named = has_name(fields);
    out.push_str(if named { " {\n" } else { "(\n" })?;
    for field in fields {
        append_field_line(out, table, inner, field)?;
    }
    out.push_str(outer)?;
    out.push_str(if named { "}" } else { ")" })
}

/// Appends the lines of a field: its documentation, and the field.
fn append_field_line<T: Definitions>(
    out: &mut String,
    table: &T,
    blanks: &str,
    field: &Field<PortableForm>,
) -> Result<(), AllocError>
    ensures { Appends result out.old out.new
        (field_line (name_within 8 (T.table table.now)) blanks.now field.now) }
{
    append_documentation(out, blanks, field.docs.as_slice())?;
    out.push_str(blanks)?;
    append_field(out, table, field, NAME_DEPTH)?;
    out.push_str(",\n")
}

/// Appends a type that is neither a struct nor an enum: as an alias, if it has a path, and else
/// written out.
fn append_alias<T: Definitions>(
    out: &mut String,
    table: &T,
    ty: &Type<PortableForm>,
    definition: &TypeDef<PortableForm>,
) -> Result<(), AllocError>
    ensures { Appends result out.old out.new
        (alias (name_within 8 (T.table table.now)) ty.now definition.now) }
{
    if ty.path.segments.is_empty() {
        return append_definition(out, table, definition, NAME_DEPTH);
    }
    out.push_str("type")?;
    append_title(out, table, ty)?;
    out.push_str(" = ")?;
    append_definition(out, table, definition, NAME_DEPTH)?;
    out.push_str(";")
}
