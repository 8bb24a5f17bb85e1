//! Types of the program, by their identities.
ghost use Rattle.std.specs.Prelude.{◌≡◌, Option, IfOk};
ghost use Rattle.std.specs.Option.{option_copied};
ghost use Rattle.scale_info_identities.specs.TypeIds.{Term, term_of};
ghost use Rattle.scale_info_types.specs.MetaDescriptions.{MetaDescription, type_term};

use crate::ty::Type;
use scale_info_collections::try_clone::TryClone;
pub use scale_info_identities::type_id::TypeId;
use scale_info_type_ids::identified::{HasIdentity, Identified};
use std::alloc::{AllocError, Global};

/// What keeps descriptions by identity, such as a catalogue.
///
/// Any type may implement it. An implementor states which description each term has, and owes the
/// contract of `get`.
pub trait Describes {
    /// The description that each term has.
    ghost describes: { Self → Term → Option MetaDescription };

    /// The description of this identity; None if there is none. Does not allocate.
    fn get(&self, identity: &TypeId) -> Option<&Type>
        ensures { option_copied result ≡ describes self.now (term_of identity.now) };
}

/// The type `T`, by its identity.
///
/// Errors: `AllocError`, if an allocation failed.
pub fn meta_type<T: HasIdentity>(alloc: Global) -> Result<MetaType, AllocError>
    ensures { IfOk result (λ ty. type_term ty ≡ T.Identity.own) }
{
    MetaType::new::<T>(alloc)
}

/// A type of the program, by its identity.
#[derive(Drop, PartialEq, Eq, PartialOrd, Ord, Hash)]
pub struct MetaType {
    identity: TypeId,
}

impl MetaType {
    /// The type `T`, by its identity.
    ///
    /// Errors: `AllocError`, if an allocation failed.
    pub fn new<T: HasIdentity>(alloc: Global) -> Result<MetaType, AllocError>
        ensures { IfOk result (λ ty. type_term ty ≡ T.Identity.own) }
    {
        Ok(MetaType {
            identity: T::Identity::type_id(alloc)?,
        })
    }

    /// The type's identity.
    pub fn type_id(&self) -> &TypeId
        ensures { result.now ≡ self.now.identity }
    {
        &self.identity
    }

    /// The type's description in a catalogue; None if it has none there. Does not allocate.
    pub fn type_info<'c, C: Describes>(&self, catalogue: &'c C) -> Option<&'c Type>
        ensures { option_copied result ≡ C.describes catalogue.now (type_term self.now) }
    {
        catalogue.get(&self.identity)
    }
}

impl TryClone for MetaType {
    fn try_clone(&self, alloc: Global) -> Result<MetaType, AllocError> {
        Ok(MetaType {
            identity: self.identity.try_clone(alloc)?,
        })
    }
}
