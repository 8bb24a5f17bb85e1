//! The table inside a node's metadata.

pub use scale_info_table_metadata::hexadecimal::bytes_of_text;
pub use scale_info_table_metadata::metadata::{MetadataError, Source, table_of};
