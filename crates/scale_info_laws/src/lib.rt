//! Laws of comparisons: where two values are equal, and which of two values comes first.
//!
//! A law does nothing when it runs: its contract is the law, and a caller whose own proof needs it
//! calls it.
#![tactic(auto)]

pub mod equalities;
pub mod examples;
pub mod orders;
