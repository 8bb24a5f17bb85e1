//! Why a command is refused.
ghost use Rattle.std.specs.Prelude.{◌≡◌};
ghost use Rattle.type_reader_io.specs.declared.error.LineError.TheVariants as line_error;
ghost use Rattle.type_reader_io.specs.declared.error.ReaderError.TheVariants as error;

use scale_info_collections::failure::AllocationFailure;
use scale_info_collections::text::Text;
use thiserror::Error;

/// Why a text gives no value of a type.
#[derive(Clone, Copy, Debug, PartialEq, Eq, Error)]
pub enum ValueFault {
    /// The text is no even number of hexadecimal digits.
    #[error("no hexadecimal digits")]
    NoDigits,
    /// The text is no JSON.
    #[error("no JSON")]
    NoJson,
    /// An id is no index of the table.
    #[error("no such type")]
    NoSuchType,
    /// A type whose values are neither read nor written.
    #[error("unsupported")]
    Unsupported,
    /// A value more than 128 deep.
    #[error("too deep")]
    TooDeep,
    /// The bytes do not begin with a value of the type.
    #[error("malformed")]
    Malformed,
    /// Bytes come after the value.
    #[error("trailing bytes")]
    TrailingBytes,
    /// The JSON is no value of the type.
    #[error("mismatch")]
    Mismatch,
}

/// Why a command is refused. It is displayed as in its line, without the program's name.
#[derive(Debug, Drop, PartialEq, Eq, Error)]
pub enum ReaderError {
    /// There is no table in the input.
    #[error("malformed")]
    Malformed,
    /// The input is metadata of this version, of which no table is read.
    #[error("metadata of version {0}")]
    Version(u8),
    /// The input is no metadata, and bytes come after its table.
    #[error("trailing bytes")]
    TrailingBytes,
    /// This id is no index of the table.
    #[error("no such type {0}")]
    NoSuchType(u32),
    /// No type of the table has this path, or none of two tables that are compared.
    #[error("no such path {0}")]
    NoSuchPath(Text),
    /// Several types of the table have this path, where one is to be given.
    #[error("several types with path {0}")]
    SharedPath(Text),
    /// The given text gives no value of the given type.
    #[error("no value: {0}")]
    NoValue(ValueFault),
    /// This id is reached from the given types, or a table that is compared refers to it, and it is
    /// no index of the table.
    #[error("dangling id {0}")]
    Dangling(u32),
    /// The input could not be read to its end.
    #[error("input failed")]
    Input,
    /// The output could not be written whole.
    #[error("output failed")]
    Output,
    /// An allocation failed.
    #[error("out of memory")]
    Memory,
}

impl<F: AllocationFailure> From<F> for ReaderError {
    ghost from_gives = { λ _ e. e ≡ error.Memory };

    fn from(_failure: F) -> ReaderError {
        ReaderError::Memory
    }
}

/// Why a text is not converted.
#[derive(Clone, Copy, Debug, Drop, PartialEq, Eq, Error)]
pub enum LineError {
    /// An allocation failed.
    #[error("out of memory")]
    Memory,
    /// It gives no value of the type.
    #[error("no value: {0}")]
    Fault(ValueFault),
}

impl<F: AllocationFailure> From<F> for LineError {
    ghost from_gives = { λ _ e. e ≡ line_error.Memory };

    fn from(_failure: F) -> LineError {
        LineError::Memory
    }
}
