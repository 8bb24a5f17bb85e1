//! Descriptions whose strings stay in the bytes that they were decoded from.

pub use scale_info_borrowed_form::decode::decode_type;
pub use scale_info_borrowed_form::form::BorrowedForm;
pub use scale_info_borrowed_form::owned::owned_type;
