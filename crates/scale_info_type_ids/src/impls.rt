//! Types of this library that descriptions speak of, and the identities of standard types.
ghost use Rattle.std.specs.Prelude.{◌≡◌, IfOk};
ghost use Rattle.scale_info_identities.specs.TypeIds.{term_of};
ghost use Rattle.scale_info_type_ids.specs.StandardTerms.{applied, compact_term, named};

use crate::identified::{HasIdentity, Identified};
use scale_info_identities::type_id::TypeId;
use std::alloc::{AllocError, Global};
use std::marker::PhantomData;

mod generics;
mod lists;
mod pointers;
mod primitives;
mod slices;
mod texts;
mod tuples;
mod values;

/// A number in SCALE's compact encoding, which takes as few bytes as the number needs.
///
/// The rule is that of the SCALE codec's "compact/general integers".
#[derive(Clone, Copy, PartialEq, Eq, PartialOrd, Ord, Hash)]
pub struct Compact<T>(pub T);

/// The identity of every type that is described as a sequence of `T`, such as `Vec<T>` or `&[T]`.
pub struct SliceOf<T>(PhantomData<T>);

/// The identity of every type that is described as a text: `String` and `&str`.
pub struct StrType;

impl<T: Identified> Identified for Compact<T> {
    ghost own = { compact_term T.own };

    fn type_id(alloc: Global) -> Result<TypeId, AllocError> {
        applied_type::<T>(alloc, "Compact")
    }
}

impl<T: Identified> HasIdentity for Compact<T> {
    type Identity = Compact<T>;
}

/// The identity of a type without parameters.
fn named_type(alloc: Global, head: &'static str) -> TypeId
    ensures { term_of result ≡ named head.now }
{
    TypeId::new(head, Vec::new(alloc), Vec::new(alloc))
}

/// The identity of a type with the one parameter `T`.
fn applied_type<T: Identified>(alloc: Global, head: &'static str) -> Result<TypeId, AllocError>
    ensures { IfOk result (λ id. term_of id ≡ applied head.now T.own) }
{
    let args = vec![in alloc; T::type_id(alloc)?]?;
    Ok(TypeId::new(head, Vec::new(alloc), args))
}
