//! A type of a program's own, which leads back to itself.
ghost use Rattle.std.specs.Prelude.{codes};
ghost use Rattle.scale_info_type_info.specs.StandardTypes.{slice_description};
ghost use Rattle.scale_info_type_ids.specs.StandardTerms.{named};

use scale_info::meta_type::{HasIdentity, Identified, InfoError};
use scale_info::{Type, TypeDefSequence, TypeId, TypeInfo};
use std::alloc::{AllocError, Global};

/// A tree is the list of its branches.
pub struct Tree(Vec<Box<Tree>>);

impl Identified for Tree {
    ghost own = { named (codes "demo::Tree") };

    fn type_id(alloc: Global) -> Result<TypeId, AllocError> {
        Ok(TypeId::new("demo::Tree", Vec::new(alloc), Vec::new(alloc)))
    }
}

impl HasIdentity for Tree {
    type Identity = Tree;
}

impl TypeInfo for Tree {
    ghost description = { slice_description ⟦<Tree as Identified>⟧.own };

    fn type_info(alloc: Global) -> Result<Type, InfoError> {
        Ok(Type::from_def(alloc, TypeDefSequence::of::<Box<Tree>>(alloc)?.into()))
    }
}
