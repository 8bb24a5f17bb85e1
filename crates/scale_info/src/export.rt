//! From types of the program, or from bytes of a table, to the bytes of a pruned table.

pub use scale_info_export::export::{ExportError, Exported, export};
pub use scale_info_table_prune::prune::{PruneError, append_pruned, prune};
