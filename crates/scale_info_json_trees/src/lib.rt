//! The JSON trees of descriptions: how each part of a table is written, and what a tree means.
//!
//! The crate has no code that works on data: its definitions are what reading and writing of trees
//! and of JSON text promise.
#![tactic(auto)]
