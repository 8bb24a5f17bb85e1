//! The types that some ids of a table reach, in memory.
//!
//! A program that reads many values of a few types needs these types and those that they refer to.
//! [`loaded::LoadedTypes`] decodes them out of a view, each once, and values are read by it as by
//! the whole table.
#![tactic(auto)]

pub mod loaded;
