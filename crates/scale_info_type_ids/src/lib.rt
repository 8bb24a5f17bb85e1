//! Identities of types: the term that each type has of its own, and the type that descriptions know
//! it by. `Box<u8>` has a term of its own and is known as `u8`.
#![tactic(auto)]

pub mod identified;
pub mod impls;
pub mod laws;
