//! Lists of types and of parameters, one item after another, as the macros of lists make them.
ghost use Rattle.std.specs.Prelude.{◌≡◌, ◌++◌, [], ◌∷◌, Some, IfOk, IsOk, map};
ghost use Rattle.scale_info_types.specs.MetaDescriptions.{type_term};
ghost use Rattle.scale_info_build.specs.Parameters.{parameter_content};

use scale_info_type_ids::identified::HasIdentity;
use scale_info_types::meta_type::MetaType;
use scale_info_types::ty::TypeParameter;
use std::alloc::{AllocError, Global};

/// The list with the type `T` at its end; an Err stays as it is.
///
/// Errors: `AllocError`, if it is handed in, or if an allocation failed.
pub fn with_type<T: HasIdentity>(
    alloc: Global,
    so_far: Result<Vec<MetaType>, AllocError>,
) -> Result<Vec<MetaType>, AllocError>
    ensures more { IfOk result (λ all. IfOk so_far (λ before.
        map type_term all.items ≡ map type_term before.items ++ T.Identity.own ∷ [])) }
    ensures first { IfOk result (λ all. IsOk so_far) }
{
    let mut all = so_far?;
    all.push(MetaType::new::<T>(alloc)?)?;
    Ok(all)
}

/// The list with the parameter of this name at its end, which is given the type `T`; an Err stays
/// as it is.
///
/// Errors: `AllocError`, if it is handed in, or if an allocation failed.
pub fn with_type_param<T: HasIdentity>(
    alloc: Global,
    so_far: Result<Vec<TypeParameter>, AllocError>,
    name: &'static str,
) -> Result<Vec<TypeParameter>, AllocError>
    ensures more { IfOk result (λ all. IfOk so_far.entry (λ before.
        map parameter_content all.items ≡ map parameter_content before.items
        ++ record { name = name.now; ty = Some T.Identity.own } ∷ [])) }
    ensures first { IfOk result (λ all. IsOk so_far.entry) }
{
    let mut all = so_far?;
    all.push(TypeParameter::new(name, Some(MetaType::new::<T>(alloc)?)))?;
    Ok(all)
}
