//! Texts.
ghost use Rattle.std.specs.Prelude.{◌≡◌, None, Some, IfOk, IsErrOf};
ghost use Rattle.scale_info_types.specs.MetaDescriptions.{meta_content};
ghost use Rattle.scale_info_type_info.specs.StandardTypes.{str_description};

use super::primitives::primitive_info;
use crate::type_info::{InfoError, TypeInfo};
use scale_info_type_ids::impls::StrType;
use scale_info_types::ty::{Type, TypeDefPrimitive};
use std::alloc::Global;

impl TypeInfo for StrType {
    ghost description = { str_description };

    fn type_info(alloc: Global) -> Result<Type, InfoError> {
        Ok(primitive_info(alloc, TypeDefPrimitive::Str))
    }
}

impl TypeInfo for String {
    ghost description = { str_description };

    fn type_info(alloc: Global) -> Result<Type, InfoError> {
        StrType::type_info(alloc)
    }
}

impl TypeInfo for &str {
    ghost description = { str_description };

    fn type_info(alloc: Global) -> Result<Type, InfoError>
        ensures ok { IfOk result (λ d. str_description ≡ Some (meta_content d)) }
        ensures too_long { IsErrOf result InfoError.TooLong → str_description ≡ None }
    {
        StrType::type_info(alloc)
    }
}
