//! Walks along the references of a table: what is reached from some entries, and in which order.
#![tactic(auto)]

pub mod laws;
pub mod numbers;
pub mod references;
pub mod refs;
pub mod walk;
