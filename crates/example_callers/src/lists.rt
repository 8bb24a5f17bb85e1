//! Lists that the macros make, with what they hold.
ghost use Rattle.std.specs.Prelude.{◌≡◌, [], ◌∷◌, Some, IfOk, codes, map};
ghost use Rattle.scale_info.specs.Parameters.{parameter_content};
ghost use Rattle.scale_info.specs.MetaDescriptions.{type_term};

use scale_info::meta_type::HasIdentity;
use scale_info::{MetaType, TypeParameter, named_type_params, tuple_meta_type, type_params};
use std::alloc::{AllocError, Global};

/// The members of the tuple `(T, U, T)`, in order.
pub fn members<T: HasIdentity, U: HasIdentity>(alloc: Global) -> Result<Vec<MetaType>, AllocError>
    ensures { IfOk result (λ all. map type_term all.items
        ≡ T.Identity.own ∷ U.Identity.own ∷ T.Identity.own ∷ []) }
{
    tuple_meta_type!(alloc; T, U, T)
}

/// The parameters of a type that is generic over `T` and `U`, under these names.
pub fn parameters<T: HasIdentity, U: HasIdentity>(
    alloc: Global,
) -> Result<Vec<TypeParameter>, AllocError>
    ensures { IfOk result (λ all. map parameter_content all.items
        ≡ record { name = codes "T"; ty = Some T.Identity.own }
        ∷ record { name = codes "U"; ty = Some U.Identity.own } ∷ []) }
{
    type_params!(alloc; T, U)
}

/// The parameters `Key` and `Value` of a map, which are given `K` and `V`.
pub fn map_parameters<K: HasIdentity, V: HasIdentity>(
    alloc: Global,
) -> Result<Vec<TypeParameter>, AllocError>
    ensures { IfOk result (λ all. map parameter_content all.items
        ≡ record { name = codes "Key"; ty = Some K.Identity.own }
        ∷ record { name = codes "Value"; ty = Some V.Identity.own } ∷ []) }
{
    named_type_params!(alloc; (Key, K), (Value, V))
}
