//! Tables read straight from JSON text, with no tree of the text being made.
#![tactic(auto)]

mod definition;
mod description;
mod error;
mod found;
mod integer;
mod json_text;
pub mod laws;
mod list;
mod member;
mod number;
mod object;
mod option;
mod part;
mod pass;
mod portable;
mod primitive;
mod source;
mod stop;
mod text;

pub use error::JsonTextError;
pub use portable::from_json_text;
