//! What a walk goes over: anything that has references at each of its indices.
ghost use Rattle.std.specs.Prelude.{◌≡◌, ◌<◌, ◌≤◌, ◌^◌, ◌++◌, ℕ, Some, None, OnOk, length};
ghost use Rattle.scale_info_numberings.specs.Systems.{Entry, System};
ghost use Rattle.scale_info_types.specs.Shapes as shapes;
ghost use Rattle.scale_info_walk.specs.SystemLaws.{nothing_past};
ghost use Rattle.scale_info_walk.specs.TypeSystems.{types_system};

use crate::refs::Refs;
use scale_info_types::ty::PortableType;
use std::alloc::{AllocError, Global};

/// Something that has references at each index from 0 up to a count: the entries of a table, or an
/// index of its bytes. A walk asks for nothing else.
///
/// Any type may implement it. An implementor states the system that it stands for, and owes the
/// contracts of both functions.
pub trait References {
    /// What stands at an index beside its references.
    ghost Shape: { Type 0 };

    /// What stands at each index.
    ghost system: { Self → System Shape ℕ };

    /// The number of indices.
    ghost count: { Self → ℕ };

    /// Nothing stands at what is no index.
    ghost outside: { (entries : Self) (id : ℕ) → count entries ≤ id → system entries id ≡ None };

    /// The number of indices.
    fn len(&self) -> usize
        ensures { result ≡ count self.now };

    /// Puts the references at an index before those that are left.
    ///
    /// Errors: `AllocError`, if an allocation failed.
    fn prepend_refs(&self, alloc: Global, id: u32, refs: &mut Refs) -> Result<(), AllocError>
        requires { id < count self.now }
        ensures refs { OnOk result ((d : Entry Shape ℕ) × (system self.now id ≡ Some d)
            × (refs.new ≡ d.refs ++ refs.old)) }
        ensures few { OnOk result (length refs.new < 2 ^ 63) };
}

/// The entries of a table, whose references are those of their descriptions.
#[derive(Drop)]
pub struct TypeReferences<'a> {
    /// The entries, by index.
    pub types: &'a [PortableType],
}

impl<'a> References for TypeReferences<'a> {
    ghost Shape = { shapes.Shape };

    ghost system = { λ entries. types_system entries.types.now };

    ghost count = { λ entries. length entries.types.now };

    ghost outside = { λ entries id past. nothing_past entries.types.now id past };

    fn len(&self) -> usize {
        self.types.len()
    }

    fn prepend_refs(&self, alloc: Global, id: u32, refs: &mut Refs) -> Result<(), AllocError> {
        refs.prepend_of(alloc, &self.types[id as usize].ty)
    }
}
