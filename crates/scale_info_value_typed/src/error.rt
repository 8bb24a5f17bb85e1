//! Why a value of a program's type is not decoded or not encoded.
ghost use Rattle.std.specs.Prelude.{◌≡◌};
ghost use Rattle.scale_info_value_typed.specs.ConvertErrors.{decoding_error};
ghost use Rattle.scale_info_value_typed.specs.TypedEncodings.{encoding_error};
ghost use Rattle.scale_info_value_typed.specs.declared.error.ConvertError.TheVariants as convert;

use scale_info_collections::failure::AllocationFailure;
use scale_info_value::value::ValueError;
use scale_info_value_encode::error::EncodeValueError;
use thiserror::Error;

/// Why a value is not converted.
#[derive(Debug, Drop, PartialEq, Eq, Error)]
pub enum ConvertError {
    /// The value is none of the type.
    #[error("the value is none of the type")]
    Mismatch,
    /// An allocation failed.
    #[error("out of memory")]
    Memory,
}

impl<F: AllocationFailure> From<F> for ConvertError {
    ghost from_gives = { λ _ e. e ≡ convert.Memory };

    fn from(_failure: F) -> ConvertError {
        ConvertError::Memory
    }
}

/// Why bytes are not decoded as a value of a program's type.
#[derive(Debug, Drop, PartialEq, Eq, Error)]
pub enum DecodeAsError {
    /// No value is decoded from the input by the table, for this reason; or an allocation failed.
    #[error("{0}")]
    Decode(ValueError),
    /// A value is decoded, and is none of the program's type.
    #[error("the value is none of the type")]
    Mismatch,
}

impl From<ConvertError> for DecodeAsError {
    ghost from_gives = { λ why e. e ≡ decoding_error why };

    fn from(why: ConvertError) -> DecodeAsError {
        match why {
            ConvertError::Mismatch => DecodeAsError::Mismatch,
            ConvertError::Memory => DecodeAsError::Decode(ValueError::Memory),
        }
    }
}

/// Why a value of a program's type is not encoded.
#[derive(Debug, Drop, PartialEq, Eq, Error)]
pub enum EncodeAsError {
    /// What stands for the value is not encoded by the table, for this reason; or an allocation
    /// failed.
    #[error("{0}")]
    Encode(EncodeValueError),
    /// Nothing stands for the value at the type of the table.
    #[error("no value of the type stands for this one")]
    Mismatch,
}

impl From<ConvertError> for EncodeAsError {
    ghost from_gives = { λ why e. e ≡ encoding_error why };

    fn from(why: ConvertError) -> EncodeAsError {
        match why {
            ConvertError::Mismatch => EncodeAsError::Mismatch,
            ConvertError::Memory => EncodeAsError::Encode(EncodeValueError::Memory),
        }
    }
}
