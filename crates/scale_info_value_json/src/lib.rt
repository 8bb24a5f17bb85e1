//! Values taken from JSON trees by a table of types.
//!
//! [`take::from_json`] takes a [`scale_info_value::value::Value`] from a tree of `serde_json`, by a
//! table that has its type: the inverse of the JSON text of a value. It takes the forms that people
//! write by hand, too.
#![tactic(auto)]

mod compact;
mod definition;
pub mod error;
pub mod laws;
mod list;
pub mod names;
mod number;
mod primitive;
pub mod take;
mod tree;
mod variant;
