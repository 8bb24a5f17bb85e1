//! Catalogues, which keep descriptions of types by identity, and discovery: the identities that a
//! registration under a catalogue adds, with their numbers.
#![tactic(auto)]

pub mod catalogue;
pub mod discovery;
pub mod laws;
pub mod number_cache;
