//! Built-in types, which descriptions call primitives: `bool`, `char`, `str`, and numbers.
#![tactic(auto)]

pub mod laws;
pub mod primitive;
