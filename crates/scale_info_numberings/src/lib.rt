//! Depth-first numberings of directed graphs whose edges are in order.
//!
//! A table of types is such a graph: each type refers to others, in an order. The crate has no code
//! that works on data: it defines systems, numberings, extensions and matches, and proves their
//! laws ([`laws`]), on which registration and pruning of tables rest.
#![tactic(auto)]

pub mod laws;
