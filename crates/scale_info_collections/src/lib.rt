//! Lists and texts that contracts see by their contents, and copies that may want memory.
#![tactic(auto)]

pub mod failure;
pub mod items;
pub mod marker;
pub mod text;
pub mod try_clone;
