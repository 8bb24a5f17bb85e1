//! Descriptions whose strings stay in the bytes that they were decoded from.
#![tactic(auto)]

pub mod decode;
pub mod form;
pub mod laws;
pub mod owned;

pub use decode::decode_type;
pub use form::BorrowedForm;
pub use owned::owned_type;
pub use scale_info_bytes::error::DecodeError;
