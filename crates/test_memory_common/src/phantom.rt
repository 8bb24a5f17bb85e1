//! A program's own types with the terms of `()` and of `PhantomData<T>`.
ghost use Rattle.std.specs.Prelude.{codes};
ghost use Rattle.scale_info_type_ids.specs.StandardTerms.{applied};
ghost use Rattle.scale_info_types.specs.Phantoms.{unit_term};

use scale_info::TypeId;
use scale_info::meta_type::{HasIdentity, Identified};
use std::alloc::{AllocError, Global};
use std::marker::PhantomData;

/// It has the term of `()`.
pub struct Nothing;

impl Identified for Nothing {
    ghost own = { unit_term };

    fn type_id(alloc: Global) -> Result<TypeId, AllocError> {
        Ok(TypeId::new("tuple", Vec::new(alloc), Vec::new(alloc)))
    }
}

/// It has the term of `PhantomData<T>`, and is known as that of `()`.
pub struct Phantom<T>(PhantomData<T>);

impl<T: Identified> Identified for Phantom<T> {
    ghost own = { applied (codes "PhantomData") T.own };

    fn type_id(alloc: Global) -> Result<TypeId, AllocError> {
        let args = vec![in alloc; T::type_id(alloc)?]?;
        Ok(TypeId::new("PhantomData", Vec::new(alloc), args))
    }
}

impl<T: Identified> HasIdentity for Phantom<T> {
    type Identity = Phantom<Nothing>;
}
