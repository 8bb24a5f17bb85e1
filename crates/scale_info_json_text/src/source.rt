//! What a text is read from.
use crate::stop::Stop;
use json::Reader;
use std::alloc::Global;

/// A text that is being read, and where the values that it means are made.
#[derive(Drop)]
pub struct TextSource<'a> {
    /// What is left of the text.
    pub reader: Reader<'a>,
    /// The allocator of the values.
    pub alloc: Global,
}

/// The value that a tree of the text means, None where it means none; or why reading stopped.
pub type Reading<T> = Result<Option<T>, Stop>;
