//! Tables that are pruned as bytes, with no descriptions made.
#![tactic(auto)]

mod byte_references;
pub mod indexed;
pub mod laws;
mod new_ids;
pub mod prune;
mod roots;
pub mod same_types;
mod table_index;
