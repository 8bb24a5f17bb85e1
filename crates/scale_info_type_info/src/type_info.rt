//! Types that can be described.
ghost use Rattle.std.specs.Prelude.{◌≡◌, Option, Some, None, IfOk, IsErrOf};
ghost use Rattle.scale_info_types.specs.MetaDescriptions.{MetaContent, meta_content};
ghost use Rattle.scale_info_type_info.specs.declared.type_info.InfoError.TheVariants as info_error;

use scale_info_collections::failure::AllocationFailure;
use scale_info_type_ids::identified::HasIdentity;
use scale_info_types::ty::Type;
use std::alloc::Global;
use thiserror::Error;

/// Why a type could not be described.
#[derive(Debug, Drop, PartialEq, Eq, Error)]
pub enum InfoError {
    /// The type is an array of more than 4294967295 items.
    #[error("an array has more than 4294967295 items")]
    TooLong,
    /// An allocation failed.
    #[error("out of memory")]
    Memory,
}

impl<F: AllocationFailure> From<F> for InfoError {
    ghost from_gives = { λ _ e. e ≡ info_error.Memory };

    fn from(_failure: F) -> InfoError {
        InfoError::Memory
    }
}

/// A type that can be described.
///
/// A type has one description, or none: that is so for an array that is too long alone. Any type
/// with an identity may implement it. An implementor states its description by contents, and owes
/// the contract of `type_info`. A type may lead back to itself:
///
/// ```text
/// struct Tree(Vec<Box<Tree>>);
///
/// impl Identified for Tree {
///     ghost own = { named (codes "demo::Tree") };
///
///     fn type_id(alloc: Global) -> Result<TypeId, AllocError> {
///         Ok(TypeId::new("demo::Tree", Vec::new(alloc), Vec::new(alloc)))
///     }
/// }
///
/// impl HasIdentity for Tree {
///     type Identity = Tree;
/// }
///
/// impl TypeInfo for Tree {
///     ghost description = { slice_description ⟦<Tree as Identified>⟧.own };
///
///     fn type_info(alloc: Global) -> Result<Type, InfoError> {
///         let items = TypeDefSequence::of::<Box<Tree>>(alloc)?;
///         Ok(Type::from_def(alloc, items.into()))
///     }
/// }
/// ```
pub trait TypeInfo: HasIdentity {
    /// What the type is described as.
    ghost description: { Option MetaContent };

    /// The type's description.
    ///
    /// Errors: `TooLong`, if the type is an array of more than 4294967295 items, or is described as
    /// one; `Memory`, if an allocation failed.
    fn type_info(alloc: Global) -> Result<Type, InfoError>
        ensures ok { IfOk result (λ d. description ≡ Some (meta_content d)) }
        ensures too_long { IsErrOf result InfoError.TooLong → description ≡ None };
}

/// A described type that borrows nothing for less than the whole run. It holds for every such type.
pub trait StaticTypeInfo: TypeInfo + 'static {}

impl<T: TypeInfo + 'static> StaticTypeInfo for T {}
