//! Registration: types of a program become a table of descriptions, each with an id.
#![tactic(auto)]

pub mod laws;
pub mod registry;
