//! What says that an allocation failed.

use std::alloc::{AllocError, AllocFailed};

/// A failed allocation: what std's calls return where there is no memory.
///
/// An error enum of this repository is made of any of them, by one `From`, so that `?` works after
/// each call that allocates.
pub trait AllocationFailure: Drop {}

impl AllocationFailure for AllocError {}

impl<T: Drop> AllocationFailure for AllocFailed<T> {}
