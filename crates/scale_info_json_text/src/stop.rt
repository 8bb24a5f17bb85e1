//! Why reading a text stops.
ghost use Rattle.std.specs.Prelude.{◌≡◌};
ghost use Rattle.scale_info_json_text.specs.declared.stop.Stop.TheVariants as stop;

use json::Invalid;
use std::alloc::{AllocError, AllocFailed};

/// Why reading a text stops before its end.
#[derive(Debug, Drop, PartialEq, Eq)]
pub enum Stop {
    /// The text is no JSON, or a number in it is too large for a float.
    Syntax,
    /// An allocation failed.
    Memory,
}

impl From<Invalid> for Stop {
    ghost from_gives = { λ _ e. e ≡ stop.Syntax };

    fn from(_e: Invalid) -> Stop {
        Stop::Syntax
    }
}

impl From<AllocError> for Stop {
    ghost from_gives = { λ _ e. e ≡ stop.Memory };

    fn from(_e: AllocError) -> Stop {
        Stop::Memory
    }
}

impl<T: Drop> From<AllocFailed<T>> for Stop {
    ghost from_gives = { λ _ e. e ≡ stop.Memory };

    fn from(_e: AllocFailed<T>) -> Stop {
        Stop::Memory
    }
}
