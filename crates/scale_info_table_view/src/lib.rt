//! Tables of types that stay bytes.
//!
//! A program that reads a few values by a table needs few of its descriptions. [`view::TableView`]
//! finds where the entries are in one pass over the bytes, and decodes an entry when it is asked
//! for.
#![tactic(auto)]

mod closed;
pub mod entries;
pub mod laws;
mod numbering;
mod offsets;
mod path;
pub mod view;
