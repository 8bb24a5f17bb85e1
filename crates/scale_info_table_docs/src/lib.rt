//! Tables without docs.
//!
//! [`docs::append_without_docs`] writes a table again with all docs left out, from bytes to bytes:
//! no description is made.
#![tactic(auto)]

pub mod docs;
mod list;
mod pair;
mod part;
mod ty;
