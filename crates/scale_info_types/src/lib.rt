//! Types described as data: descriptions, and the two forms they come in.
#![tactic(auto)]

pub mod build;
pub mod form;
pub mod laws;
pub mod meta_type;
pub mod ty;
