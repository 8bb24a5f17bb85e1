//! Values of a program's types, encoded as bytes by a table.
ghost use Rattle.std.specs.Prelude.{◌≡◌, [], Option, Some, IfOk, IfErr, OnOk, OnErr};
ghost use Rattle.scale_info_bytes.specs.Encodings.{AppendsEncoding};
ghost use Rattle.scale_info_table.specs.declared.portable.PortableRegistry as tables;
ghost use Rattle.scale_info_value.specs.declared.value.Value.{Value};
ghost use Rattle.scale_info_value.specs.Outcomes.{decoded, outcome_map};
ghost use Rattle.scale_info_value.specs.Readings.{reading};
ghost use Rattle.scale_info_value_encode.specs.Writers.{Appends};
ghost use Rattle.scale_info_value_typed.specs.declared.place.Place as places;
ghost use Rattle.scale_info_value_typed.specs.declared.place.Place.TheVariants as place;
ghost use Rattle.scale_info_value_typed.specs.ConvertErrors.{IsMissing};
ghost use Rattle.scale_info_value_typed.specs.TypedEncodings.{writing_of, IsErrorOf};

use crate::error::{ConvertError, EncodeAsError};
use crate::place::Place;
use crate::shown::Shown;
use scale_info_value::definition::Definitions;
use scale_info_value::value::Value;
use scale_info_value_encode::encode::encode_value;
use std::alloc::Global;

/// A type of a program whose values are encoded by the types of a table.
///
/// What stands for an integer, a truth value or a text is that value; for a list or a tuple, the
/// list of what stands for its parts; and for an option the first variant named `None`, or the
/// first named `Some`, of the type of the table. It is implemented as
/// [`DecodeAs`](crate::decode::DecodeAs) is, but for tuples of up to 8 members, and for `&str` and
/// slices.
pub trait EncodeAs: Shown {
    /// The value at a place of a table that stands for a value of this type; None where there is
    /// none.
    ghost value_at: { tables.PortableRegistry → places.Place → Self → Option Value };

    /// The value at this place of the table that stands for this one.
    ///
    /// Errors: `Mismatch`, where there is none; `Memory`, where an allocation failed.
    fn to_value<D: Definitions>(
        &self,
        alloc: Global,
        table: &D,
        place: Place,
    ) -> Result<Value, ConvertError>
        ensures ok { IfOk result
            (λ value. value_at (D.table table.now) place self.now ≡ Some value) }
        ensures shown { IfOk result (λ value. Self.meant value ≡ Some (Self.seen self.now)) }
        ensures err { IfErr result (IsMissing (value_at (D.table table.now) place self.now)) };
}

/// Appends the encoding of a value of a program's type, by the type with this id.
///
/// `decode_as` decodes what was appended to the same value, and leaves nothing. On an Err the
/// output is as before.
///
/// Errors: `Mismatch`, where nothing stands for this value at the type of the table, as for an
/// option at an enum without a variant `Some`. `Encode` with the error of `encode_value` of what
/// stands for it: `Mismatch` with the path to a part that is none of its type, as for a `u32` that
/// is more than 255 at `u8`; `TooDeep`, where a value is more than 128 deep; `NoSuchType`, where an
/// id is no index of the table; `Unsupported`, where values of a type are not encoded; `Memory`,
/// where an allocation failed.
///
/// With a table that has `Vec<u16>` at index 0:
///
/// ```text
/// encode_as(alloc, &table, 0, &[1u32, 2], &mut out)?;   // appends [8, 1, 0, 2, 0]
/// ```
pub fn encode_as<T: EncodeAs, D: Definitions>(
    alloc: Global,
    table: &D,
    id: u32,
    value: &T,
    out: &mut Vec<u8>,
) -> Result<(), EncodeAsError>
    ensures ok { OnOk result
        (Appends (writing_of (D.table table.now) id
        (T.value_at (D.table table.now) (place.Type id) value.now))
        out.old.items out.new.items) }
    ensures read { OnOk result
        (AppendsEncoding (λ bytes. outcome_map T.meant (reading (D.table table.now) id 1 bytes)
        ≡ decoded (Some (T.seen value.now)) []) out.old.items out.new.items) }
    ensures err { IfErr result
        (IsErrorOf (D.table table.now) id
        (T.value_at (D.table table.now) (place.Type id) value.now)) }
    ensures same { OnErr result (out.new.items ≡ out.old.items) }
{
    let standing = value.to_value(alloc, table, Place::Type(id))?;
    encode_value(table, id, &standing, out).map_err(EncodeAsError::Encode)
}
