//! Whether every reference of a table leads to an entry.
ghost use Rattle.std.specs.Prelude.{◌↔◌, ◌<◌, IsTrue, IfSome, All};
ghost use Rattle.scale_info_types.specs.References.{references, definition_references};
ghost use Rattle.scale_info_table.specs.ClosedTables.{AreBelow, HasIndicesAsIds};
ghost use Rattle.scale_info_table.specs.ClosedTables.{HasReferencesBelow};

use scale_info_identities::symbol::UntrackedSymbol;
use scale_info_identities::type_id::TypeId;
use scale_info_types::form::PortableForm;
use scale_info_types::ty::variant::Variant;
use scale_info_types::ty::{Field, PortableType, Type, TypeDef, TypeParameter};

/// Whether the `id` of each entry is its index.
pub(super) fn has_indices_as_ids(entries: &[PortableType]) -> bool
    ensures { IsTrue result ↔ HasIndicesAsIds entries.now }
{
    entries
        .iter()
        .enumerate()
        .all(|(index, entry)| entry.id as usize == index)
}

/// Whether each reference of each entry is below `count`.
pub(super) fn has_references_below(count: usize, entries: &[PortableType]) -> bool
    ensures { IsTrue result ↔ HasReferencesBelow count entries.now }
{
    entries
        .iter()
        .all(|entry| has_description_below(count, &entry.ty))
}

/// Whether each reference of the description is below `count`.
fn has_description_below(count: usize, ty: &Type<PortableForm>) -> bool
    ensures { IsTrue result ↔ AreBelow count (references ty.now) }
{
    has_parameters_below(count, &ty.type_params) && has_definition_below(count, &ty.type_def)
}

/// Whether each parameter's type is below `count`; a skipped one has none.
fn has_parameters_below(count: usize, parameters: &[TypeParameter<PortableForm>]) -> bool
    ensures { IsTrue result ↔ All (λ p. IfSome p.ty (λ symbol. symbol.id < count)) parameters.now }
{
    parameters
        .iter()
        .all(|parameter| is_skipped_or_below(count, parameter))
}

/// Whether the parameter's type is below `count` or skipped.
fn is_skipped_or_below(count: usize, parameter: &TypeParameter<PortableForm>) -> bool
    ensures { IsTrue result ↔ IfSome parameter.now.ty (λ symbol. symbol.id < count) }
{
    match &parameter.ty {
        Some(ty) => is_below(count, ty),
        None => true,
    }
}

/// Whether each reference of the definition is below `count`.
fn has_definition_below(count: usize, def: &TypeDef<PortableForm>) -> bool
    ensures { IsTrue result ↔ AreBelow count (definition_references def.now) }
{
    match def {
        TypeDef::Composite(def) => has_fields_below(count, &def.fields),
        TypeDef::Variant(def) => has_variants_below(count, &def.variants),
        TypeDef::Sequence(def) => is_below(count, &def.type_param),
        TypeDef::Array(def) => is_below(count, &def.type_param),
        TypeDef::Tuple(def) => def.fields.iter().all(|member| is_below(count, member)),
        TypeDef::Primitive(_) => true,
        TypeDef::Compact(def) => is_below(count, &def.type_param),
        TypeDef::BitSequence(def) => {
            is_below(count, &def.bit_store_type) && is_below(count, &def.bit_order_type)
        }
        TypeDef::Map(def) => is_below(count, &def.key) && is_below(count, &def.value),
    }
}

/// Whether the type of each field of each variant is below `count`.
fn has_variants_below(count: usize, variants: &[Variant<PortableForm>]) -> bool
    ensures { IsTrue result ↔ All (λ v. All (λ field. field.ty.id < count) v.fields) variants.now }
{
    variants
        .iter()
        .all(|variant| has_fields_below(count, &variant.fields))
}

/// Whether each field's type is below `count`.
fn has_fields_below(count: usize, fields: &[Field<PortableForm>]) -> bool
    ensures { IsTrue result ↔ All (λ field. field.ty.id < count) fields.now }
{
    fields.iter().all(|field| is_below(count, &field.ty))
}

/// Whether the reference is below `count`.
fn is_below(count: usize, reference: &UntrackedSymbol<TypeId>) -> bool
    ensures { IsTrue result ↔ (reference.now.id < count) }
{
    (reference.id as usize) < count
}
