//! Values as JSON text, straight from their SCALE bytes.
//!
//! [`value_text::append_value_json`] writes the text of a value of a type that the program knows
//! only from a table, and makes no value on the way.
#![tactic(auto)]

pub mod value_text;
mod writer;
