//! Parts of descriptions that have a path of one segment.
ghost use Rattle.std.specs.Prelude.{◌≡◌, ◌++◌, ◌∷◌, [], IfOk, Some, map, option_map};
ghost use Rattle.scale_info_types.specs.MetaDescriptions.{meta_content, meta_definition};
ghost use Rattle.scale_info_type_info.specs.StandardTypes.{kept, meta_field, meta_parameter};
ghost use Rattle.scale_info_type_info.specs.StandardTypes.{meta_variant, standard};
ghost use Rattle.scale_info_type_info.specs.StandardTypes.{documented as whole};
ghost use Rattle.scale_info_types.specs.declared.ty.TypeDef.TheVariants as def;

use scale_info_collections::items::Items;
use scale_info_type_ids::identified::{HasIdentity, Identified};
use scale_info_types::build::IdentityForm;
use scale_info_types::form::MetaForm;
use scale_info_types::meta_type::MetaType;
use scale_info_types::ty::path::Path;
use scale_info_types::ty::variant::Variant;
use scale_info_types::ty::{Field, Type, TypeDef, TypeDefComposite, TypeDefVariant, TypeParameter};
use std::alloc::{AllocError, Global};

/// These parameters and one more, which is given the type `T`.
pub(super) fn with_parameter<T: HasIdentity>(
    mut parameters: Vec<TypeParameter>,
    name: &'static str,
) -> Result<Vec<TypeParameter>, AllocError>
    ensures { IfOk result (λ all. map meta_parameter all.items
        ≡ map meta_parameter parameters.entry.items
        ++ record { name = name.now; ty = Some T.Identity.own } ∷ []) }
{
    let alloc = *parameters.allocator();
    parameters.push(TypeParameter::new(name, Some(MetaType::new::<T>(alloc)?)))?;
    Ok(parameters)
}

/// These fields and one of the type `T`; these alone where `T` is a `PhantomData`.
pub(super) fn with_field<T: HasIdentity>(
    fields: Vec<Field>,
    name: Option<&'static str>,
    type_name: Option<&'static str>,
) -> Result<Vec<Field>, AllocError>
    ensures { IfOk result (λ all. map meta_field all.items
        ≡ map meta_field fields.entry.items ++ kept (record {
          name = option_map (λ text. text.now) name.entry;
          ty = T.Identity.own;
          type_name = option_map (λ text. text.now) type_name.entry;
          docs = [];
        })) }
{
    let alloc = *fields.allocator();
    let ty = MetaType::new::<T>(alloc)?;
    keep(fields, Field::new(name, ty, type_name, Vec::new(alloc)))
}

/// These fields and one more; these alone where its type is a `PhantomData`.
fn keep(mut fields: Vec<Field>, field: Field) -> Result<Vec<Field>, AllocError>
    ensures { IfOk result (λ all. map meta_field all.items
        ≡ map meta_field fields.entry.items ++ kept (meta_field field.entry)) }
{
    if MetaForm::is_phantom(&field.ty) {
        return Ok(fields);
    }
    fields.push(field)?;
    Ok(fields)
}

/// The description of a composite with a path of one segment and without docs.
pub(super) fn composite(
    name: &'static str,
    parameters: Vec<TypeParameter>,
    fields: Vec<Field>,
) -> Result<Type, AllocError>
    ensures { IfOk result (λ d. meta_content d
        ≡ standard name.now (map meta_parameter parameters.entry.items)
        (def.Composite (record { fields = map meta_field fields.entry.items }))) }
{
    let docs = Vec::new(*parameters.allocator());
    documented(
        name,
        parameters,
        TypeDef::Composite(TypeDefComposite::from(fields)),
        docs,
    )
}

/// The description of an enum with a path of one segment and without docs.
pub(super) fn enumeration(
    name: &'static str,
    parameters: Vec<TypeParameter>,
    variants: Vec<Variant>,
) -> Result<Type, AllocError>
    ensures { IfOk result (λ d. meta_content d
        ≡ standard name.now (map meta_parameter parameters.entry.items)
        (def.Variant (record { variants = map meta_variant variants.entry.items }))) }
{
    let docs = Vec::new(*parameters.allocator());
    documented(
        name,
        parameters,
        TypeDef::Variant(TypeDefVariant::from(variants)),
        docs,
    )
}

/// The description with a path of one segment.
pub(super) fn documented(
    name: &'static str,
    parameters: Vec<TypeParameter>,
    definition: TypeDef,
    docs: Vec<&'static str>,
) -> Result<Type, AllocError>
    ensures { IfOk result (λ d. meta_content d
        ≡ whole name.now (map meta_parameter parameters.entry.items)
        (meta_definition definition.entry) (map (λ line. line.now) docs.entry.items)) }
{
    let (path, definition) = with_path(*parameters.allocator(), name, definition)?;
    Ok(Type::from((path, parameters, definition, docs)))
}

/// The path of one segment, and the value as it is given.
///
/// It is generic, since the proof of a function grows with what it drops where it returns early.
fn with_path<T: Drop>(alloc: Global, name: &'static str, value: T) -> Result<(Path, T), AllocError>
    ensures path { IfOk result (λ made. made.0.segments ≡ name.entry ∷ []) }
    ensures value { IfOk result (λ made. made.1 ≡ value) }
{
    let path = Path::from(Items::from(vec![in alloc; name]?));
    Ok((path, value))
}
