//! Integers and strings as SCALE bytes, and what an encoding is.
//!
//! The functions here know nothing of descriptions. The trait `Scale` of the crate above is built
//! on them: a value's parts are integers, strings, and lists and options of values.
#![tactic(auto)]

pub mod error;
pub mod integer;
pub mod text;
pub mod utf8;
