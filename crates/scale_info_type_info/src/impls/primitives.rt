//! Built-in types: `bool`, `char` and the integers.
ghost use Rattle.std.specs.Prelude.{◌≡◌, Some};
ghost use Rattle.scale_info_types.specs.MetaDescriptions.{meta_content};
ghost use Rattle.scale_info_type_info.specs.StandardTypes.{primitive_description};
ghost use Rattle.scale_info_primitives.specs.declared.primitive.TypeDefPrimitive.TheVariants as kind;

use super::built_in;
use crate::type_info::{InfoError, TypeInfo};
use scale_info_types::ty::{Type, TypeDef, TypeDefPrimitive};
use std::alloc::Global;

/// The description of the built-in type.
pub(super) fn primitive_info(alloc: Global, primitive: TypeDefPrimitive) -> Type
    ensures { Some (meta_content result) ≡ primitive_description primitive }
{
    built_in(alloc, TypeDef::Primitive(primitive))
}

impl TypeInfo for bool {
    ghost description = { primitive_description kind.Bool };

    fn type_info(alloc: Global) -> Result<Type, InfoError> {
        Ok(primitive_info(alloc, TypeDefPrimitive::Bool))
    }
}

impl TypeInfo for char {
    ghost description = { primitive_description kind.Char };

    fn type_info(alloc: Global) -> Result<Type, InfoError> {
        Ok(primitive_info(alloc, TypeDefPrimitive::Char))
    }
}

impl TypeInfo for u8 {
    ghost description = { primitive_description kind.U8 };

    fn type_info(alloc: Global) -> Result<Type, InfoError> {
        Ok(primitive_info(alloc, TypeDefPrimitive::U8))
    }
}

impl TypeInfo for u16 {
    ghost description = { primitive_description kind.U16 };

    fn type_info(alloc: Global) -> Result<Type, InfoError> {
        Ok(primitive_info(alloc, TypeDefPrimitive::U16))
    }
}

impl TypeInfo for u32 {
    ghost description = { primitive_description kind.U32 };

    fn type_info(alloc: Global) -> Result<Type, InfoError> {
        Ok(primitive_info(alloc, TypeDefPrimitive::U32))
    }
}

impl TypeInfo for u64 {
    ghost description = { primitive_description kind.U64 };

    fn type_info(alloc: Global) -> Result<Type, InfoError> {
        Ok(primitive_info(alloc, TypeDefPrimitive::U64))
    }
}

impl TypeInfo for u128 {
    ghost description = { primitive_description kind.U128 };

    fn type_info(alloc: Global) -> Result<Type, InfoError> {
        Ok(primitive_info(alloc, TypeDefPrimitive::U128))
    }
}

impl TypeInfo for i8 {
    ghost description = { primitive_description kind.I8 };

    fn type_info(alloc: Global) -> Result<Type, InfoError> {
        Ok(primitive_info(alloc, TypeDefPrimitive::I8))
    }
}

impl TypeInfo for i16 {
    ghost description = { primitive_description kind.I16 };

    fn type_info(alloc: Global) -> Result<Type, InfoError> {
        Ok(primitive_info(alloc, TypeDefPrimitive::I16))
    }
}

impl TypeInfo for i32 {
    ghost description = { primitive_description kind.I32 };

    fn type_info(alloc: Global) -> Result<Type, InfoError> {
        Ok(primitive_info(alloc, TypeDefPrimitive::I32))
    }
}

impl TypeInfo for i64 {
    ghost description = { primitive_description kind.I64 };

    fn type_info(alloc: Global) -> Result<Type, InfoError> {
        Ok(primitive_info(alloc, TypeDefPrimitive::I64))
    }
}

impl TypeInfo for i128 {
    ghost description = { primitive_description kind.I128 };

    fn type_info(alloc: Global) -> Result<Type, InfoError> {
        Ok(primitive_info(alloc, TypeDefPrimitive::I128))
    }
}
