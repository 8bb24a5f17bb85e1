//! Tables of types as graphs, for people who would rather look.
//!
//! [`graph::append_graph`] writes what some types reach in the DOT language of Graphviz.
#![tactic(auto)]

pub mod error;
pub mod graph;
mod lines;
mod pieces;
