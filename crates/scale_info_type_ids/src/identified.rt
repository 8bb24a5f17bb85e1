//! Types with an identity: what a type's own identity is, and which type it is known by.
ghost use Rattle.std.specs.Prelude.{◌≡◌, IfOk};
ghost use Rattle.scale_info_identities.specs.TypeIds.{Term, term_of};

use scale_info_identities::type_id::TypeId;
use std::alloc::{AllocError, Global};

/// A type that has a term of its own.
///
/// A type has one term: `type_id` always returns an identity with this term. Types with one term
/// are one type to descriptions and catalogues, so a program's own type takes a head that contains
/// `::`, such as `shapes::Point`. Nothing checks it.
///
/// Any type may implement it. An implementor states its term, and owes the contract of `type_id`.
pub trait Identified {
    /// The type's own term.
    ghost own: { Term };

    /// The type's own identity, which is not always the one that descriptions refer to it by: see
    /// [`HasIdentity`].
    ///
    /// Errors: `AllocError`, if an allocation failed.
    fn type_id(alloc: Global) -> Result<TypeId, AllocError>
        ensures { IfOk result (λ id. term_of id ≡ own) };
}

/// A type with the type whose own identity descriptions refer to it by.
///
/// `Box<u8>` is described as `u8` is, so its identity is that of `u8`; the identity of a type that
/// stands for itself is its own.
///
/// Any type with a term may implement it, and owes nothing more.
pub trait HasIdentity: Identified {
    /// The type whose own identity this type is known by.
    type Identity: Identified;
}
