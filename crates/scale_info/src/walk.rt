//! Numberings of tables: what is reached from some entries, in depth-first order of discovery.

pub use scale_info_walk::refs::Refs;
pub use scale_info_walk::walk::{Numbering, RetainError, number, number_recursive};
