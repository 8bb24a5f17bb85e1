//! Values of a program's types, decoded from bytes by a table.
ghost use Rattle.std.specs.Prelude.{◌≡◌, Some, IfOk, IfErr};
ghost use Rattle.scale_info_value.specs.Outcomes.{decoded, outcome_map};
ghost use Rattle.scale_info_value.specs.Readings.{reading};
ghost use Rattle.scale_info_value_borrowed.specs.BorrowedValues.{owned_value};
ghost use Rattle.scale_info_value_typed.specs.ConvertErrors.{IsMissing, IsErrorOf};

use crate::error::{ConvertError, DecodeAsError};
use crate::shown::Shown;
use scale_info_value::definition::Definitions;
use scale_info_value_borrowed::borrowed::{ValueRef, decode_borrowed};
use std::alloc::Global;

/// A type of a program that decoded values are converted to.
///
/// | Type | Values that are one |
/// |---|---|
/// | `u8` to `u128` | integers of unsigned types, compact or not, that fit it |
/// | `i8` to `i128` | integers of signed types that fit it |
/// | `bool`, `Text`, `String` | truth values, texts |
/// | `Vec<T>`, `Items<T>` | lists, each of whose items is a `T`; a `TypeDef::Map` is a list of pairs |
/// | `[T; N]` | such lists of `N` items |
/// | `(A, B, ..)` | lists of just these members |
/// | `Option<T>` | the variant `None` with no field, and `Some` with one field that is a `T` |
///
/// A composite is none of these, also where it has one field: a `BTreeMap`, a bounded list or an
/// account as the Rust crate describes it, a composite around a list. A struct of a program
/// implements it by the fields of the value: see [`ValueRef::field`].
pub trait DecodeAs: Shown + Drop {
    /// The value of this type that a decoded value is.
    ///
    /// Errors: `Mismatch`, where it is none; `Memory`, where an allocation failed.
    fn from_value(alloc: Global, value: &ValueRef<'_, '_>) -> Result<Self, ConvertError>
        ensures ok { IfOk result (λ own. Self.meant (owned_value value.now)
            ≡ Some (Self.seen own)) }
        ensures err { IfErr result (IsMissing (Self.meant (owned_value value.now))) };
}

/// Decodes a value of the type with this id from the start of the input, as a value of the type
/// `T`, and returns it with the rest.
///
/// It decodes what `decode_value` decodes by the same [`Definitions`], a table or what was loaded of
/// one, and converts that value: see [`DecodeAs`]. So a `u32` is decoded by each unsigned width, as
/// far as the integer fits.
///
/// Errors: `Decode` with the error of `decode_value`: `TooDeep`, where a value is more than 128
/// deep; `NoSuchType`, where an id is no index of the table; `Unsupported`, where values of a type
/// are not decoded; `Malformed`, where no prefix of the input is a value of the type of the table.
/// `Memory`, where an allocation failed. `Mismatch`, where a value is decoded, and is no `T`.
///
/// With a table that has `Vec<u16>` at index 0:
///
/// ```text
/// let (all, rest) = decode_as::<Vec<u32>, _>(alloc, &table, 0, &[8, 1, 0, 2, 0, 255])?;
/// // all is [1, 2], and the rest [255]
/// ```
pub fn decode_as<'i, T: DecodeAs, D: Definitions>(
    alloc: Global,
    table: &D,
    id: u32,
    input: &'i [u8],
) -> Result<(T, &'i [u8]), DecodeAsError>
    ensures ok { IfOk result
        (λ found. outcome_map T.meant (reading (D.table table.now) id 1 input.now)
        ≡ decoded (Some (T.seen found.0)) found.1.now) }
    ensures err { IfErr result
        (IsErrorOf T.meant (reading (D.table table.now) id 1 input.now)) }
{
    let (value, rest) = decode_borrowed(alloc, table, id, input).map_err(DecodeAsError::Decode)?;
    let own = T::from_value(alloc, &value)?;
    Ok((own, rest))
}
