//! What a caller outside Rattle asks of tables of types: bytes in, and a number and what is written
//! into the caller's room out.
//!
//! Each call is given a table as the bytes of its SCALE encoding, and the room for what it gives. It
//! returns how much of the room that takes, or an [`error::CallError`]; the room is then as before.
//! [`error::CallError::NoRoom`] says how much is wanted. [`answer::answer`] makes a status and a
//! count of what a call returns, as C takes them.
#![tactic(auto)]

pub mod answer;
pub mod changes;
pub mod check;
pub mod describe;
pub mod encode;
pub mod error;
pub mod find;
pub mod json;
pub mod prune;
mod pruning;
mod room;
pub mod same;
pub mod strip;
pub mod table;
mod tables;
pub mod value;
