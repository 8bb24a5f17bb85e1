//! Why no value is read from a tree.
ghost use Rattle.std.specs.Prelude.{◌≡◌};
ghost use Rattle.scale_info_json_tree.specs.declared.error.JsonError.TheVariants as error;

use scale_info_collections::failure::AllocationFailure;
use thiserror::Error;

/// Why no value is read from a tree.
#[derive(Debug, Drop, PartialEq, Eq, Error)]
pub enum JsonError {
    /// The tree means no value.
    #[error("the JSON is no table")]
    Shape,
    /// An allocation failed.
    #[error("out of memory")]
    Memory,
}

impl<F: AllocationFailure> From<F> for JsonError {
    ghost from_gives = { λ _ e. e ≡ error.Memory };

    fn from(_failure: F) -> JsonError {
        JsonError::Memory
    }
}
