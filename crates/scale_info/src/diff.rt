//! What changed between two tables, each read once.

pub use scale_info_table_diff::change::Change;
pub use scale_info_table_diff::declarations::{declared_change_of, first_declared_change};
pub use scale_info_table_diff::first::first_difference;
pub use scale_info_table_diff::named::NamedTable;
pub use scale_info_table_diff::tables::{changes, without_docs};
pub use scale_info_table_prune::indexed::IndexedTable;
