//! The lines of an input, each converted as one value of a type: from hexadecimal digits to JSON
//! text, or back.
//!
//! The type is given by a table and an id.
#![tactic(auto)]

mod convert;
mod encode;
mod lines;
mod reading;
mod value;

pub use convert::Converter;
pub use lines::convert_lines;
