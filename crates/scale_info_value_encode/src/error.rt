//! Why a value could not be encoded.
ghost use Rattle.std.specs.Prelude.{◌≡◌};
ghost use Rattle.scale_info_value_encode.specs.declared.error.EncodeValueError.TheVariants as error;

use crate::path::ValuePath;
use scale_info_collections::failure::AllocationFailure;
use thiserror::Error;

/// Why a value could not be encoded.
#[derive(Debug, Drop, PartialEq, Eq, Error)]
pub enum EncodeValueError {
    /// An id is no index of the table.
    #[error("no such type")]
    NoSuchType,
    /// A type whose values are not encoded: `char`, `u256`, `i256`, bit sequences, and compact
    /// types that are no unsigned integer of up to 128 bits.
    #[error("values of the type are not encoded")]
    Unsupported,
    /// A value more than 128 deep.
    #[error("the value is more than 128 deep")]
    TooDeep,
    /// The value is none of the type, and this is the path to the first part that is none of its
    /// own: to the list or the record, where it has too many parts, or too few; to the field, where
    /// it has another name than the type says; to the variant, where its name and index are those
    /// of none.
    #[error("the value does not fit its type at {0}")]
    Mismatch(ValuePath),
    /// An allocation failed.
    #[error("out of memory")]
    Memory,
}

impl<F: AllocationFailure> From<F> for EncodeValueError {
    ghost from_gives = { λ _ e. e ≡ error.Memory };

    fn from(_failure: F) -> EncodeValueError {
        EncodeValueError::Memory
    }
}
