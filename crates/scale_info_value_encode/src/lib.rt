//! Values encoded as SCALE bytes by a table of types.
//!
//! [`encode::encode_value`] appends the encoding of a [`scale_info_value::value::Value`] of a type
//! that the program knows only from a table.
#![tactic(auto)]

mod compact;
mod definition;
pub mod encode;
pub mod error;
mod failure;
mod integer;
pub mod laws;
pub mod path;
mod primitive;
