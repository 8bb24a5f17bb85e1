//! Pointers to one value: a pointer is known by what it points to.
ghost use Rattle.scale_info_type_ids.specs.StandardTerms.{box_term, mutable_reference_term};
ghost use Rattle.scale_info_type_ids.specs.StandardTerms.{rc_term, reference_term};

use super::applied_type;
use crate::identified::{HasIdentity, Identified};
use scale_info_identities::type_id::TypeId;
use std::alloc::{AllocError, Global};
use std::rc::Rc;

impl<T: Identified> Identified for Box<T> {
    ghost own = { box_term T.own };

    fn type_id(alloc: Global) -> Result<TypeId, AllocError> {
        applied_type::<T>(alloc, "Box")
    }
}

impl<T: Identified> HasIdentity for Box<T> {
    type Identity = T;
}

impl<T: Identified> Identified for Rc<T> {
    ghost own = { rc_term T.own };

    fn type_id(alloc: Global) -> Result<TypeId, AllocError> {
        applied_type::<T>(alloc, "Rc")
    }
}

impl<T: Identified> HasIdentity for Rc<T> {
    type Identity = T;
}

impl<T: Identified> Identified for &T {
    ghost own = { reference_term T.own };

    fn type_id(alloc: Global) -> Result<TypeId, AllocError> {
        applied_type::<T>(alloc, "&")
    }
}

impl<T: Identified> HasIdentity for &T {
    type Identity = T;
}

impl<T: Identified> Identified for &mut T {
    ghost own = { mutable_reference_term T.own };

    fn type_id(alloc: Global) -> Result<TypeId, AllocError> {
        applied_type::<T>(alloc, "&mut")
    }
}

impl<T: Identified> HasIdentity for &mut T {
    type Identity = T;
}
