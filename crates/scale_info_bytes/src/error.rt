//! Why a value could not be encoded or decoded.
ghost use Rattle.std.specs.Prelude.{◌≡◌, OnOk, OnErr, take};
ghost use Rattle.scale_info_bytes.specs.declared.error.EncodeError.TheVariants as encode;
ghost use Rattle.scale_info_bytes.specs.declared.error.DecodeError.TheVariants as decode;

use scale_info_collections::failure::AllocationFailure;
use thiserror::Error;

/// Why a value could not be encoded.
#[derive(Debug, Drop, PartialEq, Eq, Error)]
pub enum EncodeError {
    /// A list or a text has more than 4294967295 items or bytes.
    #[error("a list or a text has more than 4294967295 items or bytes")]
    TooLong,
    /// An allocation failed.
    #[error("out of memory")]
    Memory,
}

/// Why no value could be decoded.
#[derive(Debug, Drop, PartialEq, Eq, Error)]
pub enum DecodeError {
    /// No prefix of the input encodes a value.
    #[error("the bytes encode no value")]
    Malformed,
    /// An allocation failed.
    #[error("out of memory")]
    Memory,
}

impl<F: AllocationFailure> From<F> for EncodeError {
    ghost from_gives = { λ _ e. e ≡ encode.Memory };

    fn from(_failure: F) -> EncodeError {
        EncodeError::Memory
    }
}

impl<F: AllocationFailure> From<F> for DecodeError {
    ghost from_gives = { λ _ e. e ≡ decode.Memory };

    fn from(_failure: F) -> DecodeError {
        DecodeError::Memory
    }
}

/// Takes back what was appended since the start, where writing failed.
pub fn truncate_on_err(
    out: &mut Vec<u8>,
    start: usize,
    written: Result<(), EncodeError>,
) -> Result<(), EncodeError>
    ensures same { result ≡ written }
    ensures ok { OnOk result (out.new.items ≡ out.old.items) }
    ensures err { OnErr result (out.new.items ≡ take start out.old.items) }
{
    if written.is_err() {
        out.truncate(start);
    }
    written
}
