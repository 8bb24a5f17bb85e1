//! Tables of descriptions as JSON trees and as JSON text.
//!
//! [`to_json`] and [`from_json`] go between a table and a tree of `serde_json`; [`append_json`]
//! writes the text of that tree without making it.
#![tactic(auto)]

mod error;
mod id;
pub mod laws;
mod list;
mod members;
mod number;
mod portable;
mod read_members;
mod text;
mod tree;
mod ty;

pub use error::JsonError;
pub use portable::{append_json, from_json, to_json};
pub use tree::Json;
pub use ty::primitive_named;
