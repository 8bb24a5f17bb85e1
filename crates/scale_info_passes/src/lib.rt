//! Passes over SCALE bytes that make no values.
//!
//! A pass goes over the encoding of a value and shows a visitor its pieces: each reference to
//! another type, and the bytes between references. It does not allocate. So a table can be checked,
//! its references listed, and its entries written with new numbers, with no description in memory.
#![tactic(auto)]

pub mod entries;
mod id;
mod integer;
mod list;
mod option;
mod pair;
pub mod pass;
mod text;
pub mod ty;
pub mod visitors;
