//! From types of the program to the bytes of a table of what some of them reach.
#![tactic(auto)]

mod borrowed;
pub mod export;
pub mod laws;
