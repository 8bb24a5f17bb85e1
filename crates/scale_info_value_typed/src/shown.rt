//! What a value of a program's type is to contracts, and which decoded values are one.
ghost use Rattle.std.specs.Prelude.{Option};
ghost use Rattle.scale_info_value.specs.declared.value.Value.{Value};

/// A type of a program whose values stand for values of types of a table.
///
/// Any type may implement it: an implementor says what contracts see of a value (a `Vec` and an
/// `Items` of equal items are one list to them), and what a decoded value is as a value of the
/// type. It owes nothing; [`DecodeAs`](crate::decode::DecodeAs) and
/// [`EncodeAs`](crate::encode::EncodeAs) add the functions that keep to it.
///
/// Implemented for `u8` to `u128`, `i8` to `i128`, `bool`, `Text`, `String`, `&str`, `Vec`,
/// `Items`, arrays, slices, `Option`, and tuples of up to 12 members.
pub trait Shown {
    /// What contracts see of a value.
    ghost Seen: { Type 0 };

    /// The value, as contracts see it.
    ghost seen: { Self → Seen };

    /// What a decoded value is as a value of this type; None where it is none.
    ghost meant: { Value → Option Seen };
}
