//! The integers of a list, in the bytes that encode them.
ghost use Rattle.std.specs.Prelude.{◌≡◌, ◌<◌, length, option_map, slice_get, Some};
ghost use Rattle.scale_info_value_borrowed.specs.IntegerLists.{integers_of, value_of_integer};
ghost use Rattle.scale_info_value_borrowed.specs.BorrowedValues.{owned_value};

use crate::borrowed::ValueRef;
pub use scale_info_value::integer::IntegerWidth;
use scale_info_value::integer::{little_endian, with_sign};

/// The integers of a list, which are read from the input when they are asked for.
#[derive(Clone, Copy)]
pub struct Integers<'i> {
    /// The bytes of all items, one item after another, each with its lowest byte first.
    pub bytes: &'i [u8],
    /// How many bytes an item takes.
    pub width: IntegerWidth,
    /// Whether an item has a sign, and is in two's complement.
    pub signed: bool,
}

/// An integer, as it is read.
#[derive(Clone, Copy)]
pub(crate) enum Integer {
    /// An integer without a sign.
    Unsigned(u128),
    /// An integer with a sign.
    Signed(i128),
}

impl Integers<'_> {
    /// The number of items.
    pub fn len(&self) -> usize
        ensures { result ≡ length (integers_of self.now) }
    {
        self.bytes.len() / self.width.bytes()
    }

    /// The item at this index, counted from 0; None past the end.
    pub fn at<'t, 'i>(&self, index: usize) -> Option<ValueRef<'t, 'i>>
        ensures { option_map owned_value result ≡ slice_get (integers_of self.now) index }
    {
        if index >= self.len() {
            return None;
        }
        match self.item(index) {
            Integer::Unsigned(integer) => Some(ValueRef::Unsigned(integer)),
            Integer::Signed(integer) => Some(ValueRef::Signed(integer)),
        }
    }

    /// The item at this index, where there is one.
    pub(crate) fn item(&self, index: usize) -> Integer
        requires { index < length (integers_of self.now) }
        ensures { slice_get (integers_of self.now) index ≡ Some (value_of_integer result) }
    {
        let all = self.bytes;
        let width = self.width.bytes();
        let (_, rest) = all.split_at(index * width);
        let (bytes, _) = rest.split_at(width);
        let integer = little_endian(bytes);
        if self.signed {
            Integer::Signed(with_sign(self.width, integer))
        } else {
            Integer::Unsigned(integer)
        }
    }
}
