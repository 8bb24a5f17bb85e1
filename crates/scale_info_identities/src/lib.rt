//! Identities of types, and the symbols that stand for them in a table.
#![tactic(auto)]

pub mod laws;
pub mod symbol;
pub mod type_id;
