//! Descriptions of types as SCALE bytes, in every form: one encoder, and one decoder.
//!
//! The grammar has a rule for each part of a description. Here is what stands behind each rule: how
//! the part is appended to bytes, and how it is read from them. How a form names types and holds
//! strings is the form's own.
#![tactic(auto)]

pub mod decode;
pub mod encode;
pub mod form;
mod leaf;
mod list;
mod option;
pub mod part;
mod tuple;
mod ty;

pub use decode::{DecodePart, decode_description};
pub use encode::{EncodePart, append_part, encode_description};
pub use form::{DecodeForm, EncodeForm, GivesIds, IdForm, OwnIds};
pub use part::Part;
pub use scale_info_bytes::error::{DecodeError, EncodeError};
