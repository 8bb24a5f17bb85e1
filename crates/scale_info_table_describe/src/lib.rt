//! Types of a table for people: found by their paths, and written as Rust declares types.
//!
//! [`search::find_by_path`] and [`search::find_containing`] find ids by paths;
//! [`describe::describe`] writes a type, and [`names::name_of`] its name.
#![tactic(auto)]

pub mod describe;
mod fields;
pub mod laws;
pub mod names;
pub mod search;
