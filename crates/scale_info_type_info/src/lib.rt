//! Descriptions of types: which types can be described, and what standard types are described as.
#![tactic(auto)]

pub mod impls;
pub mod laws;
pub mod type_info;
