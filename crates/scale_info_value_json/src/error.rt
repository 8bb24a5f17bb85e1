//! Why no value was taken from a tree.
ghost use Rattle.std.specs.Prelude.{◌≡◌};
ghost use Rattle.scale_info_value_json.specs.declared.error.ValueJsonError.TheVariants as error;

use scale_info_collections::failure::AllocationFailure;
use thiserror::Error;

/// Why no value was taken from a tree.
#[derive(Debug, Drop, PartialEq, Eq, Error)]
pub enum ValueJsonError {
    /// An id is no index of the table.
    #[error("no such type")]
    NoSuchType,
    /// A type whose values are not taken: `char`, `u256`, `i256`, bit sequences, and compact
    /// types that are no unsigned integer of up to 128 bits.
    #[error("values of the type are not taken from JSON")]
    Unsupported,
    /// A value more than 128 deep.
    #[error("the value is more than 128 deep")]
    TooDeep,
    /// The tree is no value of the type.
    #[error("the JSON is no value of the type")]
    Mismatch,
    /// An allocation failed.
    #[error("out of memory")]
    Memory,
}

impl<F: AllocationFailure> From<F> for ValueJsonError {
    ghost from_gives = { λ _ e. e ≡ error.Memory };

    fn from(_failure: F) -> ValueJsonError {
        ValueJsonError::Memory
    }
}
