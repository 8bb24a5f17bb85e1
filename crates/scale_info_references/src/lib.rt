//! References of descriptions: gathered in order.
#![tactic(auto)]

pub mod closed;
pub mod laws;
pub mod references;
