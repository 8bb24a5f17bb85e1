//! Values of a program's own types, decoded from bytes and encoded by a table.

pub use scale_info_value_typed::decode::{DecodeAs, decode_as};
pub use scale_info_value_typed::encode::{EncodeAs, encode_as};
pub use scale_info_value_typed::error::{ConvertError, DecodeAsError, EncodeAsError};
pub use scale_info_value_typed::place::Place;
pub use scale_info_value_typed::shown::Shown;
