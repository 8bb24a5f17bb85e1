//! Interners: lists of distinct values, each known by its index, and found by the order of all.
#![tactic(auto)]

mod bounds;
pub mod interner;
pub mod laws;
mod order;
mod rooms;
