//! Calls that make paths and descriptions, by constructors, builders and macros, each made once
//! between marks.
#![tactic(auto)]

pub mod constructors;
pub mod descriptions;
pub mod fields;
pub mod macros;
pub mod paths;
pub mod variants;
