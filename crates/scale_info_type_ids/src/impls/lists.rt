//! Lists of any length: a list is known as a sequence of its items.
ghost use Rattle.scale_info_type_ids.specs.StandardTerms.{vec_deque_term, vec_term};

use super::{SliceOf, applied_type};
use crate::identified::{HasIdentity, Identified};
use scale_info_identities::type_id::TypeId;
use std::alloc::{AllocError, Global};
use std::collections::VecDeque;

impl<T: Identified> Identified for Vec<T> {
    ghost own = { vec_term T.own };

    fn type_id(alloc: Global) -> Result<TypeId, AllocError> {
        applied_type::<T>(alloc, "Vec")
    }
}

impl<T: Identified> HasIdentity for Vec<T> {
    type Identity = SliceOf<T>;
}

impl<T: Identified> Identified for VecDeque<T> {
    ghost own = { vec_deque_term T.own };

    fn type_id(alloc: Global) -> Result<TypeId, AllocError> {
        applied_type::<T>(alloc, "VecDeque")
    }
}

impl<T: Identified> HasIdentity for VecDeque<T> {
    type Identity = SliceOf<T>;
}
