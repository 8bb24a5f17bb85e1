//! Built-in types: `bool`, `char` and the integers.
ghost use Rattle.std.specs.Prelude.{codes};
ghost use Rattle.scale_info_type_ids.specs.StandardTerms.{primitive_term};

use super::named_type;
use crate::identified::{HasIdentity, Identified};
use scale_info_identities::type_id::TypeId;
use std::alloc::{AllocError, Global};

impl Identified for bool {
    ghost own = { primitive_term (codes "bool") };

    fn type_id(alloc: Global) -> Result<TypeId, AllocError> {
        Ok(named_type(alloc, "bool"))
    }
}

impl HasIdentity for bool {
    type Identity = bool;
}

impl Identified for char {
    ghost own = { primitive_term (codes "char") };

    fn type_id(alloc: Global) -> Result<TypeId, AllocError> {
        Ok(named_type(alloc, "char"))
    }
}

impl HasIdentity for char {
    type Identity = char;
}

impl Identified for u8 {
    ghost own = { primitive_term (codes "u8") };

    fn type_id(alloc: Global) -> Result<TypeId, AllocError> {
        Ok(named_type(alloc, "u8"))
    }
}

impl HasIdentity for u8 {
    type Identity = u8;
}

impl Identified for u16 {
    ghost own = { primitive_term (codes "u16") };

    fn type_id(alloc: Global) -> Result<TypeId, AllocError> {
        Ok(named_type(alloc, "u16"))
    }
}

impl HasIdentity for u16 {
    type Identity = u16;
}

impl Identified for u32 {
    ghost own = { primitive_term (codes "u32") };

    fn type_id(alloc: Global) -> Result<TypeId, AllocError> {
        Ok(named_type(alloc, "u32"))
    }
}

impl HasIdentity for u32 {
    type Identity = u32;
}

impl Identified for u64 {
    ghost own = { primitive_term (codes "u64") };

    fn type_id(alloc: Global) -> Result<TypeId, AllocError> {
        Ok(named_type(alloc, "u64"))
    }
}

impl HasIdentity for u64 {
    type Identity = u64;
}

impl Identified for u128 {
    ghost own = { primitive_term (codes "u128") };

    fn type_id(alloc: Global) -> Result<TypeId, AllocError> {
        Ok(named_type(alloc, "u128"))
    }
}

impl HasIdentity for u128 {
    type Identity = u128;
}

impl Identified for i8 {
    ghost own = { primitive_term (codes "i8") };

    fn type_id(alloc: Global) -> Result<TypeId, AllocError> {
        Ok(named_type(alloc, "i8"))
    }
}

impl HasIdentity for i8 {
    type Identity = i8;
}

impl Identified for i16 {
    ghost own = { primitive_term (codes "i16") };

    fn type_id(alloc: Global) -> Result<TypeId, AllocError> {
        Ok(named_type(alloc, "i16"))
    }
}

impl HasIdentity for i16 {
    type Identity = i16;
}

impl Identified for i32 {
    ghost own = { primitive_term (codes "i32") };

    fn type_id(alloc: Global) -> Result<TypeId, AllocError> {
        Ok(named_type(alloc, "i32"))
    }
}

impl HasIdentity for i32 {
    type Identity = i32;
}

impl Identified for i64 {
    ghost own = { primitive_term (codes "i64") };

    fn type_id(alloc: Global) -> Result<TypeId, AllocError> {
        Ok(named_type(alloc, "i64"))
    }
}

impl HasIdentity for i64 {
    type Identity = i64;
}

impl Identified for i128 {
    ghost own = { primitive_term (codes "i128") };

    fn type_id(alloc: Global) -> Result<TypeId, AllocError> {
        Ok(named_type(alloc, "i128"))
    }
}

impl HasIdentity for i128 {
    type Identity = i128;
}
