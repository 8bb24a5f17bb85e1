//! What the libraries of refused requests share: marks around a call, outcomes, inputs and types.
#![tactic(auto)]

pub mod answers;
pub mod by_name;
mod described;
pub mod inputs;
pub mod marks;
pub mod outcomes;
pub mod own;
mod parts;
mod phantom;
mod structs;
pub mod texts;
mod tree;
pub mod types;
