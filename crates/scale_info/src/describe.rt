//! Types of a table for people: found by their paths, and written as Rust declares types.

pub use scale_info_table_describe::describe::{append_description, describe};
pub use scale_info_table_describe::names::{NAME_DEPTH, name_of};
pub use scale_info_table_describe::search::{find_by_path, find_containing};
