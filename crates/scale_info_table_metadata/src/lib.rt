//! The table inside a node's metadata.
//!
//! [`metadata::table_of`] finds the bytes of the table in metadata of the versions 14 to 16, also
//! in the byte strings that runtimes return; [`hexadecimal::bytes_of_text`] takes the bytes out of
//! what a node returns as text.
#![tactic(auto)]

pub mod hexadecimal;
pub mod laws;
pub mod metadata;
