//! Why a graph could not be written.
ghost use Rattle.std.specs.Prelude.{◌≡◌};
ghost use Rattle.scale_info_table_dot.specs.declared.error.GraphError.TheVariants as graph_error;

use scale_info_collections::failure::AllocationFailure;
use thiserror::Error;

/// Why a graph could not be written.
#[derive(Debug, Drop, PartialEq, Eq, Error)]
pub enum GraphError {
    /// An id is reached that is no index of the table.
    #[error("dangling id {id}")]
    Dangling {
        /// The first such id that the walk came to.
        id: u32,
    },
    /// The table has more than 4294967295 entries.
    #[error("the table has more than 4294967295 types")]
    TooManyTypes,
    /// An allocation failed.
    #[error("out of memory")]
    Memory,
}

impl<F: AllocationFailure> From<F> for GraphError {
    ghost from_gives = { λ _ e. e ≡ graph_error.Memory };

    fn from(_failure: F) -> GraphError {
        GraphError::Memory
    }
}
