//! Segments of paths: a module path cut at `::`, segments replaced, and segments tested, since each
//! must be an identifier.
#![tactic(auto)]

pub mod laws;
pub mod segments;
pub mod utils;
