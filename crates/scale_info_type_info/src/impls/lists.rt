//! Lists of any length.
ghost use Rattle.scale_info_type_info.specs.StandardTypes.{slice_description};

use crate::type_info::{InfoError, TypeInfo};
use scale_info_type_ids::identified::{HasIdentity, Identified};
use scale_info_type_ids::impls::SliceOf;
use scale_info_types::ty::Type;
use std::alloc::Global;
use std::collections::VecDeque;

impl<T: TypeInfo> TypeInfo for Vec<T> {
    ghost description = { slice_description T.Identity.own };

    fn type_info(alloc: Global) -> Result<Type, InfoError> {
        SliceOf::<T>::type_info(alloc)
    }
}

impl<T: TypeInfo> TypeInfo for VecDeque<T> {
    ghost description = { slice_description T.Identity.own };

    fn type_info(alloc: Global) -> Result<Type, InfoError> {
        SliceOf::<T>::type_info(alloc)
    }
}
