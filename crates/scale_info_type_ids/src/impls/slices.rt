//! Arrays and slices.
ghost use Rattle.scale_info_type_ids.specs.StandardTerms.{array_term, reference_term, slice_term};

use super::{SliceOf, applied_type};
use crate::identified::{HasIdentity, Identified};
use scale_info_identities::type_id::TypeId;
use std::alloc::{AllocError, Global};

impl<T: Identified, const N: usize> Identified for [T; N] {
    ghost own = { array_term N T.own };

    fn type_id(alloc: Global) -> Result<TypeId, AllocError> {
        let args = vec![in alloc; T::type_id(alloc)?]?;
        Ok(TypeId::new("array", vec![in alloc; N]?, args))
    }
}

impl<T: Identified, const N: usize> HasIdentity for [T; N] {
    type Identity = [T; N];
}

impl<T: Identified> Identified for SliceOf<T> {
    ghost own = { slice_term T.own };

    fn type_id(alloc: Global) -> Result<TypeId, AllocError> {
        applied_type::<T>(alloc, "slice")
    }
}

impl<T: Identified> HasIdentity for SliceOf<T> {
    type Identity = SliceOf<T>;
}

impl<T: Identified> Identified for &[T] {
    ghost own = { reference_term (slice_term T.own) };

    fn type_id(alloc: Global) -> Result<TypeId, AllocError> {
        applied_type::<SliceOf<T>>(alloc, "&")
    }
}

impl<T: Identified> HasIdentity for &[T] {
    type Identity = SliceOf<T>;
}
