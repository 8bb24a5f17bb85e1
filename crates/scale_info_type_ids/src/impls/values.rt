//! Numbers that are not zero, and lengths of time.
ghost use Rattle.std.specs.Prelude.{codes};
ghost use Rattle.scale_info_type_ids.specs.StandardTerms.{standard_term};

use super::named_type;
use crate::identified::{HasIdentity, Identified};
use scale_info_identities::type_id::TypeId;
use std::alloc::{AllocError, Global};
use std::num::{
    NonZeroI8, NonZeroI16, NonZeroI32, NonZeroI64, NonZeroI128, NonZeroU8, NonZeroU16, NonZeroU32,
    NonZeroU64, NonZeroU128,
};
use std::time::Duration;

impl Identified for NonZeroU8 {
    ghost own = { standard_term (codes "NonZeroU8") };

    fn type_id(alloc: Global) -> Result<TypeId, AllocError> {
        Ok(named_type(alloc, "NonZeroU8"))
    }
}

impl HasIdentity for NonZeroU8 {
    type Identity = NonZeroU8;
}

impl Identified for NonZeroU16 {
    ghost own = { standard_term (codes "NonZeroU16") };

    fn type_id(alloc: Global) -> Result<TypeId, AllocError> {
        Ok(named_type(alloc, "NonZeroU16"))
    }
}

impl HasIdentity for NonZeroU16 {
    type Identity = NonZeroU16;
}

impl Identified for NonZeroU32 {
    ghost own = { standard_term (codes "NonZeroU32") };

    fn type_id(alloc: Global) -> Result<TypeId, AllocError> {
        Ok(named_type(alloc, "NonZeroU32"))
    }
}

impl HasIdentity for NonZeroU32 {
    type Identity = NonZeroU32;
}

impl Identified for NonZeroU64 {
    ghost own = { standard_term (codes "NonZeroU64") };

    fn type_id(alloc: Global) -> Result<TypeId, AllocError> {
        Ok(named_type(alloc, "NonZeroU64"))
    }
}

impl HasIdentity for NonZeroU64 {
    type Identity = NonZeroU64;
}

impl Identified for NonZeroU128 {
    ghost own = { standard_term (codes "NonZeroU128") };

    fn type_id(alloc: Global) -> Result<TypeId, AllocError> {
        Ok(named_type(alloc, "NonZeroU128"))
    }
}

impl HasIdentity for NonZeroU128 {
    type Identity = NonZeroU128;
}

impl Identified for NonZeroI8 {
    ghost own = { standard_term (codes "NonZeroI8") };

    fn type_id(alloc: Global) -> Result<TypeId, AllocError> {
        Ok(named_type(alloc, "NonZeroI8"))
    }
}

impl HasIdentity for NonZeroI8 {
    type Identity = NonZeroI8;
}

impl Identified for NonZeroI16 {
    ghost own = { standard_term (codes "NonZeroI16") };

    fn type_id(alloc: Global) -> Result<TypeId, AllocError> {
        Ok(named_type(alloc, "NonZeroI16"))
    }
}

impl HasIdentity for NonZeroI16 {
    type Identity = NonZeroI16;
}

impl Identified for NonZeroI32 {
    ghost own = { standard_term (codes "NonZeroI32") };

    fn type_id(alloc: Global) -> Result<TypeId, AllocError> {
        Ok(named_type(alloc, "NonZeroI32"))
    }
}

impl HasIdentity for NonZeroI32 {
    type Identity = NonZeroI32;
}

impl Identified for NonZeroI64 {
    ghost own = { standard_term (codes "NonZeroI64") };

    fn type_id(alloc: Global) -> Result<TypeId, AllocError> {
        Ok(named_type(alloc, "NonZeroI64"))
    }
}

impl HasIdentity for NonZeroI64 {
    type Identity = NonZeroI64;
}

impl Identified for NonZeroI128 {
    ghost own = { standard_term (codes "NonZeroI128") };

    fn type_id(alloc: Global) -> Result<TypeId, AllocError> {
        Ok(named_type(alloc, "NonZeroI128"))
    }
}

impl HasIdentity for NonZeroI128 {
    type Identity = NonZeroI128;
}

impl Identified for Duration {
    ghost own = { standard_term (codes "Duration") };

    fn type_id(alloc: Global) -> Result<TypeId, AllocError> {
        Ok(named_type(alloc, "Duration"))
    }
}

impl HasIdentity for Duration {
    type Identity = Duration;
}
