//! Texts.
ghost use Rattle.std.specs.Prelude.{◌≡◌, IfOk};
ghost use Rattle.scale_info_identities.specs.TypeIds.{term_of};
ghost use Rattle.scale_info_type_ids.specs.StandardTerms.{reference_term, str_term, string_term};

use super::{StrType, applied_type, named_type};
use crate::identified::{HasIdentity, Identified};
use scale_info_identities::type_id::TypeId;
use std::alloc::{AllocError, Global};

impl Identified for StrType {
    ghost own = { str_term };

    fn type_id(alloc: Global) -> Result<TypeId, AllocError> {
        Ok(named_type(alloc, "str"))
    }
}

impl HasIdentity for StrType {
    type Identity = StrType;
}

impl Identified for String {
    ghost own = { string_term };

    fn type_id(alloc: Global) -> Result<TypeId, AllocError> {
        Ok(named_type(alloc, "String"))
    }
}

impl HasIdentity for String {
    type Identity = StrType;
}

impl Identified for &str {
    ghost own = { reference_term str_term };

    fn type_id(alloc: Global) -> Result<TypeId, AllocError>
        ensures { IfOk result (λ id. term_of id ≡ reference_term str_term) }
    {
        applied_type::<StrType>(alloc, "&")
    }
}

impl HasIdentity for &str {
    type Identity = StrType;
}
