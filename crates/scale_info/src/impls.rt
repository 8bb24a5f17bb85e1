//! Types of this library that descriptions speak of, and a type by its identity.
pub use scale_info_type_ids::impls::{Compact, SliceOf, StrType};
pub use scale_info_types::meta_type::meta_type;
