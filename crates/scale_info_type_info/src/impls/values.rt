//! Numbers that are not zero, and lengths of time.
ghost use Rattle.std.specs.Prelude.{◌≡◌, Some, IfOk, IfErr, codes};
ghost use Rattle.scale_info_types.specs.MetaDescriptions.{meta_content};
ghost use Rattle.scale_info_type_info.specs.declared.type_info.InfoError.TheVariants as info_error;
ghost use Rattle.scale_info_type_ids.specs.StandardTerms.{primitive_term};
ghost use Rattle.scale_info_type_info.specs.StandardTypes.{duration_description};
ghost use Rattle.scale_info_type_info.specs.StandardTypes.{non_zero_description};

use super::parts::{composite, with_field};
use crate::type_info::{InfoError, TypeInfo};
use scale_info_type_ids::identified::{HasIdentity, Identified};
use scale_info_types::ty::Type;
use std::alloc::Global;
use std::num::{
    NonZeroI8, NonZeroI16, NonZeroI32, NonZeroI64, NonZeroI128, NonZeroU8, NonZeroU16, NonZeroU32,
    NonZeroU64, NonZeroU128,
};
use std::time::Duration;

/// The description of the numbers of the type `T` that are not zero.
fn non_zero<T: HasIdentity>(alloc: Global, name: &'static str) -> Result<Type, InfoError>
    ensures ok { IfOk result (λ d. non_zero_description name.now T.Identity.own
        ≡ Some (meta_content d)) }
    ensures err { IfErr result (λ e. e ≡ info_error.Memory) }
{
    let fields = with_field::<T>(Vec::new(alloc), None, None)?;
    Ok(composite(name, Vec::new(alloc), fields)?)
}

impl TypeInfo for NonZeroU8 {
    ghost description = { non_zero_description (codes "NonZeroU8") (primitive_term (codes "u8")) };

    fn type_info(alloc: Global) -> Result<Type, InfoError> {
        non_zero::<u8>(alloc, "NonZeroU8")
    }
}

impl TypeInfo for NonZeroU16 {
    ghost description = { non_zero_description (codes "NonZeroU16")
        (primitive_term (codes "u16")) };

    fn type_info(alloc: Global) -> Result<Type, InfoError> {
        non_zero::<u16>(alloc, "NonZeroU16")
    }
}

impl TypeInfo for NonZeroU32 {
    ghost description = { non_zero_description (codes "NonZeroU32")
        (primitive_term (codes "u32")) };

    fn type_info(alloc: Global) -> Result<Type, InfoError> {
        non_zero::<u32>(alloc, "NonZeroU32")
    }
}

impl TypeInfo for NonZeroU64 {
    ghost description = { non_zero_description (codes "NonZeroU64")
        (primitive_term (codes "u64")) };

    fn type_info(alloc: Global) -> Result<Type, InfoError> {
        non_zero::<u64>(alloc, "NonZeroU64")
    }
}

impl TypeInfo for NonZeroU128 {
    ghost description = { non_zero_description (codes "NonZeroU128")
        (primitive_term (codes "u128")) };

    fn type_info(alloc: Global) -> Result<Type, InfoError> {
        non_zero::<u128>(alloc, "NonZeroU128")
    }
}

impl TypeInfo for NonZeroI8 {
    ghost description = { non_zero_description (codes "NonZeroI8") (primitive_term (codes "i8")) };

    fn type_info(alloc: Global) -> Result<Type, InfoError> {
        non_zero::<i8>(alloc, "NonZeroI8")
    }
}

impl TypeInfo for NonZeroI16 {
    ghost description = { non_zero_description (codes "NonZeroI16")
        (primitive_term (codes "i16")) };

    fn type_info(alloc: Global) -> Result<Type, InfoError> {
        non_zero::<i16>(alloc, "NonZeroI16")
    }
}

impl TypeInfo for NonZeroI32 {
    ghost description = { non_zero_description (codes "NonZeroI32")
        (primitive_term (codes "i32")) };

    fn type_info(alloc: Global) -> Result<Type, InfoError> {
        non_zero::<i32>(alloc, "NonZeroI32")
    }
}

impl TypeInfo for NonZeroI64 {
    ghost description = { non_zero_description (codes "NonZeroI64")
        (primitive_term (codes "i64")) };

    fn type_info(alloc: Global) -> Result<Type, InfoError> {
        non_zero::<i64>(alloc, "NonZeroI64")
    }
}

impl TypeInfo for NonZeroI128 {
    ghost description = { non_zero_description (codes "NonZeroI128")
        (primitive_term (codes "i128")) };

    fn type_info(alloc: Global) -> Result<Type, InfoError> {
        non_zero::<i128>(alloc, "NonZeroI128")
    }
}

impl TypeInfo for Duration {
    ghost description = { duration_description };

    fn type_info(alloc: Global) -> Result<Type, InfoError> {
        let fields = with_field::<u64>(Vec::new(alloc), None, Some("u64"))?;
        let fields = with_field::<u32>(fields, None, Some("u32"))?;
        Ok(composite("Duration", Vec::new(alloc), fields)?)
    }
}
