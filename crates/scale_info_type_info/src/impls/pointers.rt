//! Pointers to one value: a pointer is described as what it points to.
ghost use Rattle.scale_info_type_info.specs.StandardTypes.{pointer_description};

use crate::type_info::{InfoError, TypeInfo};
use scale_info_types::ty::Type;
use std::alloc::Global;
use std::rc::Rc;

impl<T: TypeInfo> TypeInfo for Box<T> {
    ghost description = { pointer_description T.description };

    fn type_info(alloc: Global) -> Result<Type, InfoError> {
        T::type_info(alloc)
    }
}

impl<T: TypeInfo> TypeInfo for Rc<T> {
    ghost description = { pointer_description T.description };

    fn type_info(alloc: Global) -> Result<Type, InfoError> {
        T::type_info(alloc)
    }
}

impl<T: TypeInfo> TypeInfo for &T {
    ghost description = { pointer_description T.description };

    fn type_info(alloc: Global) -> Result<Type, InfoError> {
        T::type_info(alloc)
    }
}

impl<T: TypeInfo> TypeInfo for &mut T {
    ghost description = { pointer_description T.description };

    fn type_info(alloc: Global) -> Result<Type, InfoError> {
        T::type_info(alloc)
    }
}
