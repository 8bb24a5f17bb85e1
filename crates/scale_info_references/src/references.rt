//! The references of a description, gathered in order.
//!
//! They come in the order in which a reader of the description meets them: the types of its
//! parameters first, then those of its definition.
ghost use Rattle.std.specs.List.{flat_map};
ghost use Rattle.std.specs.Prelude.{◌≡◌, OnOk, IfOk};
ghost use Rattle.scale_info_types.specs.References.{field_references, definition_references};
ghost use Rattle.scale_info_types.specs.References.{parameter_references, references};
ghost use Rattle.scale_info_references.specs.Gathered.{AddsReferences, targets};

use scale_info_types::form::Form;
use scale_info_types::ty::variant::Variant;
use scale_info_types::ty::{Field, Type, TypeDef, TypeParameter};
use std::alloc::{AllocError, AllocFailed, Global};

/// Adds the types of the fields, in order.
fn gather_fields<'a, T: Form>(
    fields: &'a [Field<T>],
    found: &mut Vec<&'a T::Ty>,
) -> Result<(), AllocFailed<&'a T::Ty>>
    ensures { OnOk result (AddsReferences found.old.items
        (field_references fields.now) found.new.items) }
{
    for field in fields {
        found.push(&field.ty)?;
    }
    Ok(())
}

/// Adds the types of the variants' fields, in order.
fn gather_variants<'a, T: Form>(
    variants: &'a [Variant<T>],
    found: &mut Vec<&'a T::Ty>,
) -> Result<(), AllocFailed<&'a T::Ty>>
    ensures { OnOk result (AddsReferences found.old.items
        (flat_map (λ v. field_references v.fields) variants.now) found.new.items) }
{
    for variant in variants {
        gather_fields(variant.fields.as_slice(), found)?;
    }
    Ok(())
}

/// Adds the types of the parameters that aren't skipped, in order.
fn gather_parameters<'a, T: Form>(
    params: &'a [TypeParameter<T>],
    found: &mut Vec<&'a T::Ty>,
) -> Result<(), AllocFailed<&'a T::Ty>>
    ensures { OnOk result (AddsReferences found.old.items
        (parameter_references params.now) found.new.items) }
{
    for param in params {
        if let Some(ty) = &param.ty {
            found.push(ty)?;
        }
    }
    Ok(())
}

/// Adds these types, in order.
fn gather_types<'a, X>(types: &'a [X], found: &mut Vec<&'a X>) -> Result<(), AllocFailed<&'a X>>
    ensures { OnOk result (AddsReferences found.old.items types.now found.new.items) }
{
    for ty in types {
        found.push(ty)?;
    }
    Ok(())
}

/// Adds the references of a definition, in order.
fn gather_definition<'a, T: Form>(
    def: &'a TypeDef<T>,
    found: &mut Vec<&'a T::Ty>,
) -> Result<(), AllocFailed<&'a T::Ty>>
    ensures { OnOk result (AddsReferences found.old.items
        (definition_references def.now) found.new.items) }
{
    match def {
        TypeDef::Composite(d) => gather_fields(d.fields.as_slice(), found),
        TypeDef::Variant(d) => gather_variants(d.variants.as_slice(), found),
        TypeDef::Sequence(d) => found.push(&d.type_param),
        TypeDef::Array(d) => found.push(&d.type_param),
        TypeDef::Tuple(d) => gather_types(d.fields.as_slice(), found),
        TypeDef::Primitive(_) => Ok(()),
        TypeDef::Compact(d) => found.push(&d.type_param),
        TypeDef::BitSequence(d) => {
            found.push(&d.bit_store_type)?;
            found.push(&d.bit_order_type)
        }
        TypeDef::Map(d) => {
            found.push(&d.key)?;
            found.push(&d.value)
        }
    }
}

/// Adds the references of a description, in order.
fn gather_references<'a, T: Form>(
    ty: &'a Type<T>,
    found: &mut Vec<&'a T::Ty>,
) -> Result<(), AllocFailed<&'a T::Ty>>
    ensures { OnOk result (AddsReferences found.old.items
        (references ty.now) found.new.items) }
{
    gather_parameters(ty.type_params.as_slice(), found)?;
    gather_definition(&ty.type_def, found)
}

/// The references of a description, in order: the types of the parameters that aren't skipped, then
/// those of the definition.
///
/// ```text
/// references_of(alloc, &pair)  // of (u8, bool): the types u8 and bool
/// ```
///
/// Errors: `AllocError`, if an allocation failed.
pub fn references_of<'a, T: Form>(
    alloc: Global,
    ty: &'a Type<T>,
) -> Result<Vec<&'a T::Ty>, AllocError>
    ensures { IfOk result (λ found. targets found.items ≡ references ty.now) }
{
    let mut found = Vec::new(alloc);
    match gather_references(ty, &mut found) {
        Ok(()) => Ok(found),
        Err(_) => Err(AllocError),
    }
}

/// The references of a definition, in order.
///
/// Errors: `AllocError`, if an allocation failed.
pub fn references_of_definition<'a, T: Form>(
    alloc: Global,
    def: &'a TypeDef<T>,
) -> Result<Vec<&'a T::Ty>, AllocError>
    ensures { IfOk result (λ found. targets found.items ≡ definition_references def.now) }
{
    let mut found = Vec::new(alloc);
    match gather_definition(def, &mut found) {
        Ok(()) => Ok(found),
        Err(_) => Err(AllocError),
    }
}

/// The types of fields, in order.
///
/// Errors: `AllocError`, if an allocation failed.
pub fn references_of_fields<'a, T: Form>(
    alloc: Global,
    fields: &'a [Field<T>],
) -> Result<Vec<&'a T::Ty>, AllocError>
    ensures { IfOk result (λ found. targets found.items ≡ field_references fields.now) }
{
    let mut found = Vec::new(alloc);
    match gather_fields(fields, &mut found) {
        Ok(()) => Ok(found),
        Err(_) => Err(AllocError),
    }
}

/// The types of the fields of variants, in order.
///
/// Errors: `AllocError`, if an allocation failed.
pub fn references_of_variants<'a, T: Form>(
    alloc: Global,
    variants: &'a [Variant<T>],
) -> Result<Vec<&'a T::Ty>, AllocError>
    ensures { IfOk result (λ found. targets found.items
        ≡ flat_map (λ v. field_references v.fields) variants.now) }
{
    let mut found = Vec::new(alloc);
    match gather_variants(variants, &mut found) {
        Ok(()) => Ok(found),
        Err(_) => Err(AllocError),
    }
}

/// These types, in order.
///
/// Errors: `AllocError`, if an allocation failed.
pub fn references_of_types<'a, X>(alloc: Global, types: &'a [X]) -> Result<Vec<&'a X>, AllocError>
    ensures { IfOk result (λ found. targets found.items ≡ types.now) }
{
    let mut found = Vec::new(alloc);
    match gather_types(types, &mut found) {
        Ok(()) => Ok(found),
        Err(_) => Err(AllocError),
    }
}
