//! Structs made of their parts, in the order in which these are encoded.
ghost use Rattle.std.specs.Prelude.{◌≡◌};

use scale_info_collections::items::Items;
use scale_info_types::form::Form;
use scale_info_types::ty::path::Path;
use scale_info_types::ty::variant::Variant;
use scale_info_types::ty::{Description, Field, TypeDef, TypeParameter};

/// The field with this name, type, name of the type and documentation.
#[inline(always)]
pub fn field_of<F: Form>(
    parts: (
        Option<F::String>,
        (F::Ty, (Option<F::String>, Items<F::String>)),
    ),
) -> Field<F>
    ensures { (result.name, (result.ty, (result.type_name, result.docs))) ≡ parts }
{
    let (name, (ty, (type_name, docs))) = parts;
    Field {
        name,
        ty,
        type_name,
        docs,
    }
}

/// The variant with this name, these fields, this index and documentation.
#[inline(always)]
pub fn variant_of<F: Form>(
    parts: (F::String, (Items<Field<F>>, (u8, Items<F::String>))),
) -> Variant<F>
    ensures { (result.name, (result.fields, (result.index, result.docs))) ≡ parts }
{
    let (name, (fields, (index, docs))) = parts;
    Variant {
        name,
        fields,
        index,
        docs,
    }
}

/// The description with this path, these parameters, this definition and documentation.
#[inline(always)]
pub fn description_of<F: Form>(
    parts: (
        Path<F>,
        (Items<TypeParameter<F>>, (TypeDef<F>, Items<F::String>)),
    ),
) -> Description<F>
    ensures { (result.path, (result.type_params, (result.type_def, result.docs))) ≡ parts }
{
    let (path, (type_params, (type_def, docs))) = parts;
    Description {
        path,
        type_params,
        type_def,
        docs,
    }
}
