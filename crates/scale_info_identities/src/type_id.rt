//! Identities of types, by structure.
ghost use Rattle.std.specs.Prelude.{◌≡◌};
ghost use Rattle.scale_info_identities.specs.TypeIds.{term, term_of, terms_of};
ghost use Rattle.scale_info_identities.specs.declared.type_id.TypeId.{out-TypeId};

use scale_info_collections::items::Items;
use scale_info_collections::try_clone::TryClone;
use std::alloc::{AllocError, Global};

/// The identity of a type, by its structure: a head, numbers and the identities of its arguments.
///
/// Eq decides whether two identities have one structure; Ord goes by head, numbers and arguments,
/// in this order; Hash agrees with Eq.
#[derive(Debug, Drop, PartialEq, Eq, PartialOrd, Ord, Hash)]
pub struct TypeId {
    head: &'static str,
    nums: Items<usize>,
    args: Items<TypeId>,
}

impl TypeId {
    /// The identity with these parts; only moves.
    #[tactic(auto, using(crate::specs::TypeIdLaws::term_of_roll))]
    pub fn new(head: &'static str, nums: Vec<usize>, args: Vec<TypeId>) -> TypeId
        ensures { term_of result ≡ term head.now nums.items (terms_of args.items) }
    {
        TypeId {
            head,
            nums: Items::from(nums),
            args: Items::from(args),
        }
    }

    /// The head, such as the type's name.
    pub fn head(&self) -> &'static str
        ensures { result.now ≡ (out-TypeId self.now).head.now }
    {
        self.head
    }

    /// The numbers, such as an array's length.
    pub fn nums(&self) -> &[usize]
        ensures { result.now ≡ (out-TypeId self.now).nums }
    {
        self.nums.as_slice()
    }

    /// The identities of the arguments, in order.
    pub fn args(&self) -> &[TypeId]
        ensures { result.now ≡ (out-TypeId self.now).args }
    {
        self.args.as_slice()
    }
}

impl TryClone for TypeId {
    fn try_clone(&self, alloc: Global) -> Result<TypeId, AllocError> {
        let mut args = Items::with_capacity(alloc, self.args.len())?;
        for arg in self.args.as_slice() {
            args.push(arg.try_clone(alloc)?)?;
        }
        Ok(TypeId {
            head: self.head,
            nums: self.nums.try_clone(alloc)?,
            args,
        })
    }
}
