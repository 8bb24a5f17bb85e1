//! Values that borrow names from a table, and texts and lists of integers from bytes.
ghost use Rattle.std.specs.Prelude.{◌≡◌, map, length, option_map, IfOk, IfSome};
ghost use Rattle.std.specs.Option.{option_copied};
ghost use Rattle.scale_info_value.specs.declared.value.Value.TheVariants as Values;
ghost use Rattle.scale_info_value_borrowed.specs.BorrowedValues.{owned_value, value_of, field_of};
ghost use Rattle.scale_info_value_borrowed.specs.ValueParts.{truth_in, unsigned_in, signed_in};
ghost use Rattle.scale_info_value_borrowed.specs.ValueParts.{text_in};
ghost use Rattle.scale_info_value_borrowed.specs.ValueParts.{bytes_in, items_in, item_in};
ghost use Rattle.scale_info_value_borrowed.specs.ValueParts.{value_under};
ghost use Rattle.scale_info_value_borrowed.specs.ValueParts.{field_in, variant_in};

pub use crate::decode::decode_borrowed;
pub use crate::integers::{IntegerWidth, Integers};
use crate::owned::owned;
use scale_info_collections::items::Items;
use scale_info_value::value::Value;
use std::alloc::{AllocError, Global};

/// A value of some type, without the type. It borrows from the table and from the input that it was
/// decoded by.
#[derive(Drop)]
pub enum ValueRef<'t, 'i> {
    /// A truth value.
    Bool(bool),
    /// An integer of an unsigned type, compact or not.
    Unsigned(u128),
    /// An integer of a signed type.
    Signed(i128),
    /// A text.
    Text(&'i str),
    /// The items of a sequence or an array of `u8`.
    Bytes(&'i [u8]),
    /// The items of a sequence or an array of another type of integers.
    Integers(Integers<'i>),
    /// The items of another sequence or array, the members of a tuple, or the pairs of a map, each
    /// a list of a key and a value.
    List(Items<ValueRef<'t, 'i>>),
    /// The fields of a composite, each with its name, if it has one.
    Record(Items<(Option<&'t str>, ValueRef<'t, 'i>)>),
    /// A variant of an enum.
    Variant {
        /// The variant's name.
        name: &'t str,
        /// The variant's index.
        index: u8,
        /// The variant's fields, each with its name, if it has one.
        fields: Items<(Option<&'t str>, ValueRef<'t, 'i>)>,
    },
}

/// An item of a list.
#[derive(Drop)]
pub enum Item<'v, 't, 'i> {
    /// An item that the list holds.
    Held(&'v ValueRef<'t, 'i>),
    /// An integer that was read from the bytes of the list.
    Read(ValueRef<'t, 'i>),
}

impl<'t, 'i> Item<'_, 't, 'i> {
    /// The value.
    pub fn value(&self) -> &ValueRef<'t, 'i>
        ensures { owned_value result.now ≡ value_of self.now }
    {
        match self {
            Item::Held(value) => value,
            Item::Read(value) => value,
        }
    }
}

impl<'t, 'i> ValueRef<'t, 'i> {
    /// The truth value; None where the value is another.
    pub fn as_bool(&self) -> Option<bool>
        ensures { result ≡ truth_in (owned_value self.now) }
    {
        match self {
            ValueRef::Bool(truth) => Some(*truth),
            _ => None,
        }
    }

    /// The integer of an unsigned type, compact or not; None where the value is another.
    pub fn as_u128(&self) -> Option<u128>
        ensures { result ≡ unsigned_in (owned_value self.now) }
    {
        match self {
            ValueRef::Unsigned(integer) => Some(*integer),
            _ => None,
        }
    }

    /// The integer of a signed type; None where the value is another.
    pub fn as_i128(&self) -> Option<i128>
        ensures { result ≡ signed_in (owned_value self.now) }
    {
        match self {
            ValueRef::Signed(integer) => Some(*integer),
            _ => None,
        }
    }

    /// The text, which stays in the input; None where the value is another.
    pub fn as_str(&self) -> Option<&'i str>
        ensures { option_copied result ≡ text_in (owned_value self.now) }
    {
        match self {
            ValueRef::Text(text) => Some(*text),
            _ => None,
        }
    }

    /// The items of a sequence or an array of `u8`, which stay in the input; None where the value
    /// is another. That `decode_borrowed` keeps such a list in one piece is tested, and promised by
    /// no clause: a value of it may hold each byte by itself, and has none here.
    pub fn as_bytes(&self) -> Option<&'i [u8]>
        ensures bytes { result ≡ bytes_in self.now }
        ensures items { IfSome result
            (λ bytes. owned_value self.now ≡ Values.List (map Values.Unsigned bytes.now)) }
    {
        match self {
            ValueRef::Bytes(bytes) => Some(*bytes),
            _ => None,
        }
    }

    /// How many items a list has; None where the value is no list.
    pub fn len(&self) -> Option<usize>
        ensures { result ≡ option_map length (items_in (owned_value self.now)) }
    {
        match self {
            ValueRef::Bytes(bytes) => Some(bytes.len()),
            ValueRef::Integers(integers) => Some(integers.len()),
            ValueRef::List(items) => Some(items.len()),
            _ => None,
        }
    }

    /// The item of a list at this index, counted from 0; None past the end, and where the value is
    /// no list.
    ///
    /// ```text
    /// value.at(1)?.value().as_u128()   // of the list 7, 8: Some(8)
    /// ```
    pub fn at(&self, index: usize) -> Option<Item<'_, 't, 'i>>
        ensures { option_map value_of result ≡ item_in index (owned_value self.now) }
    {
        match self {
            ValueRef::Bytes(bytes) => {
                let byte = bytes.get(index)?;
                Some(Item::Read(ValueRef::Unsigned(*byte as u128)))
            }
            ValueRef::Integers(integers) => Some(Item::Read(integers.at(index)?)),
            ValueRef::List(items) => Some(Item::Held(items.as_slice().get(index)?)),
            _ => None,
        }
    }

    /// The value of the first field with this name, of a record or of a variant; None where there
    /// is no such field.
    ///
    /// ```text
    /// value.field("nonce")?.as_u128()   // of the record { nonce: 7 }: Some(7)
    /// ```
    pub fn field(&self, name: &str) -> Option<&ValueRef<'t, 'i>>
        ensures { option_map (λ v. owned_value v.now) result
            ≡ field_in name.now (owned_value self.now) }
    {
        match self {
            ValueRef::Record(fields) => first_named(fields.as_slice(), name),
            ValueRef::Variant { fields, .. } => first_named(fields.as_slice(), name),
            _ => None,
        }
    }

    /// The name of the variant, which stays in the table; None where the value is of no enum.
    pub fn variant(&self) -> Option<&'t str>
        ensures { option_copied result ≡ variant_in (owned_value self.now) }
    {
        match self {
            ValueRef::Variant { name, .. } => Some(*name),
            _ => None,
        }
    }

    /// A copy that owns all that it holds: the value that `decode_value` gives.
    ///
    /// Errors: `AllocError`, if an allocation failed.
    pub fn to_value(&self, alloc: Global) -> Result<Value, AllocError>
        ensures { IfOk result (λ copy. copy ≡ owned_value self.now) }
    {
        owned(alloc, self)
    }
}

/// The value of the first field with this name.
fn first_named<'v, 't, 'i>(
    fields: &'v [(Option<&'t str>, ValueRef<'t, 'i>)],
    name: &str,
) -> Option<&'v ValueRef<'t, 'i>>
    ensures { option_map (λ v. owned_value v.now) result
        ≡ value_under name.now (map field_of fields.now) }
{
    for field in fields {
        if let Some(own) = field.0
            && own == name
        {
            return Some(&field.1);
        }
    }
    None
}
