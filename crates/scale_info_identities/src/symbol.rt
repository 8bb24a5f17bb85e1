//! Symbols: indices of values in an interner.
ghost use Rattle.std.specs.Prelude.{◌≡◌};

use scale_info_collections::try_clone::TryClone;
use std::alloc::{AllocError, Global};
use std::marker::PhantomData;

/// The index of a value in an interner, apart from the interner that gave it.
///
/// Copy, Eq and Ord hold for every `T` and compare the index.
#[derive(Drop)]
#[derive_where(Clone, Copy, PartialEq, Eq, PartialOrd, Ord)]
pub struct UntrackedSymbol<T> {
    /// The index, counted from 0.
    pub id: u32,
    marker: PhantomData<T>,
}

impl<T> UntrackedSymbol<T> {
    /// The index.
    pub fn id(&self) -> u32
        ensures { result ≡ self.now.id }
    {
        self.id
    }
}

impl<T> From<u32> for UntrackedSymbol<T> {
    ghost from_gives = { λ id symbol. symbol.id ≡ id };

    fn from(id: u32) -> UntrackedSymbol<T> {
        UntrackedSymbol {
            id,
            marker: PhantomData,
        }
    }
}

impl<T> TryClone for UntrackedSymbol<T> {
    fn try_clone(&self, _alloc: Global) -> Result<UntrackedSymbol<T>, AllocError> {
        Ok(*self)
    }
}
