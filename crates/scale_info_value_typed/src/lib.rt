//! Values of a program's own types, decoded from SCALE bytes and encoded as such by a table.
//!
//! [`decode::decode_as`] decodes a number, a text, a list, an option or a tuple by the definition
//! that a table has, and [`encode::encode_as`] encodes one.
#![tactic(auto)]

pub mod decode;
pub mod encode;
pub mod error;
mod integer;
pub mod laws;
mod list;
mod members;
mod option;
pub mod place;
pub mod shown;
mod text;
mod tuple;
