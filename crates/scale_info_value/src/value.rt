//! Values decoded by a table, and why there is none.
ghost use Rattle.std.specs.Prelude.{◌≡◌};
ghost use Rattle.scale_info_value.specs.declared.value.ValueError.TheVariants as error;
ghost use Rattle.scale_info_value.specs.Outcomes.{error_of};

pub use crate::decode::decode_value;
use scale_info_collections::failure::AllocationFailure;
use scale_info_collections::items::Items;
use scale_info_collections::text::Text;
use thiserror::Error;

/// A value of some type, without the type.
#[derive(Drop, PartialEq, Eq)]
pub enum Value {
    /// A truth value.
    Bool(bool),
    /// An integer of an unsigned type, compact or not.
    Unsigned(u128),
    /// An integer of a signed type.
    Signed(i128),
    /// A text.
    Text(Text),
    /// The items of a sequence or an array, the members of a tuple, or the pairs of a map, each a
    /// list of a key and a value.
    List(Items<Value>),
    /// The fields of a composite, each with its name, if it has one.
    Record(Items<(Option<Text>, Value)>),
    /// A variant of an enum.
    Variant {
        /// The variant's name.
        name: Text,
        /// The variant's index.
        index: u8,
        /// The variant's fields, each with its name, if it has one.
        fields: Items<(Option<Text>, Value)>,
    },
}

/// Why bytes are no value of a type.
#[derive(Clone, Copy, Debug, PartialEq, Eq, Error)]
pub enum Failure {
    /// An id is no index of the table.
    #[error("no such type")]
    NoSuchType,
    /// A type whose values are not decoded: `char`, `u256`, `i256`, bit sequences, and compact
    /// types that are no unsigned integer of up to 128 bits.
    #[error("values of the type are not decoded")]
    Unsupported,
    /// A value more than 128 deep.
    #[error("the value is more than 128 deep")]
    TooDeep,
    /// No prefix of the input is a value of the type.
    #[error("the bytes are no value of the type")]
    Malformed,
}

/// Why no value could be decoded.
#[derive(Debug, Drop, PartialEq, Eq, Error)]
pub enum ValueError {
    /// An id is no index of the table.
    #[error("no such type")]
    NoSuchType,
    /// A type whose values are not decoded: `char`, `u256`, `i256`, bit sequences, and compact
    /// types that are no unsigned integer of up to 128 bits.
    #[error("values of the type are not decoded")]
    Unsupported,
    /// A value more than 128 deep.
    #[error("the value is more than 128 deep")]
    TooDeep,
    /// No prefix of the input is a value of the type.
    #[error("the bytes are no value of the type")]
    Malformed,
    /// An allocation failed.
    #[error("out of memory")]
    Memory,
}

impl From<Failure> for ValueError {
    ghost from_gives = { λ why e. e ≡ error_of why };

    fn from(why: Failure) -> ValueError {
        match why {
            Failure::NoSuchType => ValueError::NoSuchType,
            Failure::Unsupported => ValueError::Unsupported,
            Failure::TooDeep => ValueError::TooDeep,
            Failure::Malformed => ValueError::Malformed,
        }
    }
}

impl<F: AllocationFailure> From<F> for ValueError {
    ghost from_gives = { λ _ e. e ≡ error.Memory };

    fn from(_failure: F) -> ValueError {
        ValueError::Memory
    }
}
