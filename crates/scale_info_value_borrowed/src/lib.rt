//! Values decoded from SCALE bytes by a table of types, which borrow from both.
//!
//! [`borrowed::decode_borrowed`] decodes a value of a type that the program knows only from a
//! table, and returns it as a [`borrowed::ValueRef`]: names stay in the table, texts and lists of
//! integers in the input.
#![tactic(auto)]

pub mod borrowed;
mod decode;
mod integers;
mod list;
mod owned;
