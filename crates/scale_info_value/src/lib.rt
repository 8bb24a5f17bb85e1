//! Values decoded from SCALE bytes by a table of types.
//!
//! [`value::decode_value`] decodes a value of a type that the program knows only from a table, and
//! returns it as a [`value::Value`]. A program makes values of its own by the functions of `Value`,
//! as `Value::record`.
#![tactic(auto)]

mod build;
pub mod compact;
mod decode;
pub mod definition;
pub mod integer;
pub mod laws;
mod list;
pub mod primitive;
pub mod value;
pub mod variants;
