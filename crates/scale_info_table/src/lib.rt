//! Portable registries: tables of types that are read from bytes, put together and written.
#![tactic(auto)]

pub mod chosen;
pub mod definitions;
pub mod laws;
pub mod portable;
mod renumbering;
mod retain;
