//! Why a command is refused.
use thiserror::Error;

/// Why a command is refused. It is displayed as in its line, without the program's name.
#[derive(Debug, Drop, PartialEq, Eq, Error)]
pub enum RunError {
    /// No prefix of the input is a table.
    #[error("malformed")]
    Malformed,
    /// Bytes come after the table.
    #[error("trailing bytes")]
    TrailingBytes,
    /// This given id, the first such, is no index of the table.
    #[error("no such type {0}")]
    NoSuchType(u32),
    /// This id is reached from the given ones, and is no index of the table.
    #[error("dangling id {0}")]
    Dangling(u32),
    /// An allocation failed.
    #[error("out of memory")]
    Memory,
    /// The input could not be read to its end.
    #[error("input failed")]
    Input,
    /// The output could not be written whole.
    #[error("output failed")]
    Output,
}
