//! Why a call gives nothing.
ghost use Rattle.std.specs.Prelude.{◌≡◌};
ghost use Rattle.scale_info_calls.specs.Statuses.{count_of_error, status_of_error};
ghost use Rattle.scale_info_calls.specs.declared.error.CallError.TheVariants as call_error;

use scale_info_collections::failure::AllocationFailure;
use thiserror::Error;

/// Why a call gives nothing.
#[derive(Clone, Copy, Debug, Drop, PartialEq, Eq, Error)]
pub enum CallError {
    /// No prefix of the bytes is a table.
    #[error("malformed")]
    Malformed,
    /// Bytes come after the table.
    #[error("trailing bytes")]
    TrailingBytes,
    /// This id, which was given, is no index of the table, or values of its type lead to one that
    /// is none.
    #[error("no such type {0}")]
    NoSuchType(u32),
    /// This id is reached from those that were given, and is no index of the table.
    #[error("dangling id {0}")]
    Dangling(u32),
    /// An allocation failed.
    #[error("out of memory")]
    Memory,
    /// The room is too short: so much is wanted.
    #[error("no room for {0}")]
    NoRoom(usize),
    /// The bytes are metadata of this version, which is none of 14, 15 and 16.
    #[error("metadata of version {0}")]
    Version(u8),
    /// A path is not UTF-8.
    #[error("no text")]
    NoText,
    /// What is to be JSON is none.
    #[error("no JSON")]
    NoJson,
    /// Values of a type are neither read nor written: `char`, `u256`, `i256`, bit sequences, and
    /// compact types that are no unsigned integer of up to 128 bits.
    #[error("unsupported")]
    Unsupported,
    /// A value is more than 128 deep.
    #[error("too deep")]
    TooDeep,
    /// No prefix of the bytes is a value of the type.
    #[error("malformed value")]
    MalformedValue,
    /// Bytes come after the value.
    #[error("trailing bytes after the value")]
    TrailingValue,
    /// The JSON is no value of the type.
    #[error("mismatch")]
    Mismatch,
}

impl<F: AllocationFailure> From<F> for CallError {
    ghost from_gives = { λ _ e. e ≡ call_error.Memory };

    fn from(_failure: F) -> CallError {
        CallError::Memory
    }
}

impl CallError {
    /// The status of a call with this error, from 1 on.
    pub fn status(self) -> u8
        ensures { result ≡ status_of_error self }
    {
        match self {
            CallError::Malformed => 1,
            CallError::TrailingBytes => 2,
            CallError::NoSuchType(_) => 3,
            CallError::Dangling(_) => 4,
            CallError::Memory => 5,
            CallError::NoRoom(_) => 6,
            CallError::Version(_) => 7,
            CallError::NoText => 8,
            CallError::NoJson => 9,
            CallError::Unsupported => 10,
            CallError::TooDeep => 11,
            CallError::MalformedValue => 12,
            CallError::TrailingValue => 13,
            CallError::Mismatch => 14,
        }
    }

    /// The number that goes with this error: the id, the version, or the room that is wanted; else 0.
    pub fn count(self) -> usize
        ensures { result ≡ count_of_error self }
    {
        match self {
            CallError::NoSuchType(id) => id as usize,
            CallError::Dangling(id) => id as usize,
            CallError::NoRoom(wanted) => wanted,
            CallError::Version(version) => version as usize,
            _ => 0,
        }
    }
}
