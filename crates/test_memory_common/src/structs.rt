//! A generic struct of a program's own.
ghost use Rattle.std.specs.Prelude.{codes};
ghost use Rattle.scale_info_type_ids.specs.StandardTerms.{applied};

use scale_info::TypeId;
use scale_info::meta_type::{HasIdentity, Identified};
use std::alloc::{AllocError, Global};
use std::marker::PhantomData;

/// A struct with the field `data` of type `T`.
pub struct MyStruct<T>(PhantomData<T>);

impl<T: Identified> Identified for MyStruct<T> {
    ghost own = { applied (codes "scale_info::tests::MyStruct") T.own };

    fn type_id(alloc: Global) -> Result<TypeId, AllocError> {
        let name = "scale_info::tests::MyStruct";
        Ok(TypeId::new(name, Vec::new(alloc), vec![in alloc; T::type_id(alloc)?]?))
    }
}

impl<T: Identified> HasIdentity for MyStruct<T> {
    type Identity = MyStruct<T>;
}
