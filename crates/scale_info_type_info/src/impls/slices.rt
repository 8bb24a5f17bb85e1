//! Arrays and slices.
ghost use Rattle.scale_info_type_info.specs.StandardTypes.{array_description, slice_description};

use super::built_in;
use crate::type_info::{InfoError, TypeInfo};
use scale_info_type_ids::identified::{HasIdentity, Identified};
use scale_info_type_ids::impls::SliceOf;
use scale_info_types::meta_type::meta_type;
use scale_info_types::ty::{Type, TypeDef, TypeDefArray, TypeDefSequence};
use std::alloc::Global;

impl<T: TypeInfo, const N: usize> TypeInfo for [T; N] {
    ghost description = { array_description N T.Identity.own };

    fn type_info(alloc: Global) -> Result<Type, InfoError> {
        if N > 4294967295 {
            return Err(InfoError::TooLong);
        }
        let array = TypeDefArray::new(N as u32, meta_type::<T>(alloc)?);
        Ok(built_in(alloc, TypeDef::from(array)))
    }
}

impl<T: TypeInfo> TypeInfo for SliceOf<T> {
    ghost description = { slice_description T.Identity.own };

    fn type_info(alloc: Global) -> Result<Type, InfoError> {
        let items = TypeDefSequence::of::<T>(alloc)?;
        Ok(built_in(alloc, TypeDef::from(items)))
    }
}

impl<T: TypeInfo> TypeInfo for &[T] {
    ghost description = { slice_description T.Identity.own };

    fn type_info(alloc: Global) -> Result<Type, InfoError> {
        SliceOf::<T>::type_info(alloc)
    }
}
