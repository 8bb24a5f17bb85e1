//! Copies that allocate and may fail.
ghost use Rattle.std.specs.Prelude.{◌≡◌, IfOk};

use crate::items::Items;
use crate::text::Text;
use std::alloc::{AllocError, Global};

/// A value that can be copied. In Rust this is `Clone`, which can't report a failed allocation.
///
/// Any type may implement it. An implementor owes the contract of `try_clone`: an Ok equals the
/// source in the sense of contracts, so a type that holds a `Vec` or a `String` must hold them as
/// `Items` or `Text`.
pub trait TryClone: Drop {
    /// A copy, which equals the value.
    ///
    /// Errors: `AllocError`, if an allocation failed.
    fn try_clone(&self, alloc: Global) -> Result<Self, AllocError>
        ensures { IfOk result (λ copy. copy ≡ self.now) };
}

impl TryClone for u8 {
    fn try_clone(&self, _alloc: Global) -> Result<u8, AllocError> {
        Ok(*self)
    }
}

impl TryClone for u32 {
    fn try_clone(&self, _alloc: Global) -> Result<u32, AllocError> {
        Ok(*self)
    }
}

impl TryClone for usize {
    fn try_clone(&self, _alloc: Global) -> Result<usize, AllocError> {
        Ok(*self)
    }
}

impl TryClone for &'static str {
    fn try_clone(&self, _alloc: Global) -> Result<&'static str, AllocError> {
        Ok(*self)
    }
}

impl TryClone for Text {
    fn try_clone(&self, alloc: Global) -> Result<Text, AllocError> {
        Text::from_str(alloc, self.as_str())
    }
}

impl<T: TryClone> TryClone for Option<T> {
    fn try_clone(&self, alloc: Global) -> Result<Option<T>, AllocError> {
        match self {
            None => Ok(None),
            Some(value) => Ok(Some(value.try_clone(alloc)?)),
        }
    }
}

impl<T: TryClone> TryClone for Items<T> {
    fn try_clone(&self, alloc: Global) -> Result<Items<T>, AllocError> {
        let mut copy = Items::with_capacity(alloc, self.len())?;
        for value in self.as_slice() {
            copy.push(value.try_clone(alloc)?)?;
        }
        Ok(copy)
    }
}
