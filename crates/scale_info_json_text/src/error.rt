//! Why no table is read from a text.
ghost use Rattle.std.specs.Prelude.{◌≡◌};
ghost use Rattle.scale_info_json_text.specs.TextTables.{stop_error};

use crate::stop::Stop;
use thiserror::Error;

/// Why no table is read from a JSON text.
#[derive(Debug, Drop, PartialEq, Eq, Error)]
pub enum JsonTextError {
    /// The text is no JSON that `serde_json` reads.
    #[error("the text is no JSON")]
    Syntax,
    /// The text is JSON, and means no table.
    #[error("the JSON is no table")]
    Shape,
    /// An allocation failed.
    #[error("out of memory")]
    Memory,
}

impl From<Stop> for JsonTextError {
    ghost from_gives = { λ stop e. e ≡ stop_error stop };

    fn from(stop: Stop) -> JsonTextError {
        match stop {
            Stop::Syntax => JsonTextError::Syntax,
            Stop::Memory => JsonTextError::Memory,
        }
    }
}
