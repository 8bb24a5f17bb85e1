//! The grammar of descriptions in SCALE: which bytes encode which part, and that each text is one.
//!
//! What makes values of bytes, what goes over bytes and makes none, and what writes bytes as JSON
//! all promise by these relations, and know nothing of each other.
#![tactic(auto)]

mod parts;
mod primitive;

pub use parts::{description_of, field_of, variant_of};
pub use primitive::{decode_primitive, primitive_of};
