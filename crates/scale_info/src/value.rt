//! Values of types that a table describes: decoded, made, encoded, and taken from JSON.

pub use scale_info_value::definition::Definitions;
pub use scale_info_value::value::{Failure, Value, ValueError, decode_value};
pub use scale_info_value::variants::variant_index;
pub use scale_info_value_encode::encode::encode_value;
pub use scale_info_value_encode::error::EncodeValueError;
pub use scale_info_value_encode::path::{Step, ValuePath};
pub use scale_info_value_json::error::ValueJsonError;
pub use scale_info_value_json::names::has_own_names;
pub use scale_info_value_json::take::from_json;
