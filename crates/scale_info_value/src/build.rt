//! Values made by a program.
//!
//! An integer, a truth value and a text become a value by `into`; records, variants and lists are
//! made of their parts:
//!
//! ```text
//! let dest = Value::bytes(alloc, &account)?;
//! let fields = vec![in alloc; ("dest", dest), ("amount", 5u128.into())]?;
//! let call = Value::variant("transfer", 3, fields)?;
//! ```
ghost use Rattle.std.specs.Prelude.{◌≡◌, IfOk, map, string_bytes};
ghost use Rattle.scale_info_value.specs.declared.value.Value.TheVariants as Values;
ghost use Rattle.scale_info_value.specs.BuiltValues.{named, unnamed};

use crate::value::Value;
use scale_info_collections::items::Items;
use scale_info_collections::text::Text;
use std::alloc::{AllocError, Global};

/// The fields of a record or a variant, each with its name, if it has one.
type Fields = Items<(Option<Text>, Value)>;

/// Fields under copies of their names.
fn named_fields(fields: Vec<(&str, Value)>) -> Result<Fields, AllocError>
    ensures { IfOk result (λ all. all ≡ named fields.entry.items) }
{
    let alloc = *fields.allocator();
    let mut all = Items::with_capacity(alloc, fields.len())?;
    for (name, value) in fields {
        all.push((Some(Text::from_str(alloc, name)?), value))?;
    }
    Ok(all)
}

/// Fields without names.
fn unnamed_fields(values: Vec<Value>) -> Result<Fields, AllocError>
    ensures { IfOk result (λ all. all ≡ unnamed values.items) }
{
    let mut all = Items::with_capacity(*values.allocator(), values.len())?;
    for value in values {
        all.push((None, value))?;
    }
    Ok(all)
}

impl Value {
    /// A value of a struct whose fields have names, in the order of the type's fields.
    ///
    /// Errors: `AllocError`, if an allocation failed.
    ///
    /// ```text
    /// let point = Value::record(vec![in alloc; ("x", 1u32.into()), ("y", 2u32.into())]?)?;
    /// ```
    pub fn record(fields: Vec<(&str, Value)>) -> Result<Value, AllocError>
        ensures { IfOk result (λ value. value ≡ Values.Record (named fields.entry.items)) }
    {
        Ok(Value::Record(named_fields(fields)?))
    }

    /// A value of a struct whose fields have no names, as `struct Pair(u32, bool)`.
    ///
    /// Errors: `AllocError`, if an allocation failed.
    ///
    /// ```text
    /// let pair = Value::unnamed(vec![in alloc; 1u32.into(), true.into()]?)?;
    /// ```
    pub fn unnamed(values: Vec<Value>) -> Result<Value, AllocError>
        ensures { IfOk result (λ value. value ≡ Values.Record (unnamed values.items)) }
    {
        Ok(Value::Record(unnamed_fields(values)?))
    }

    /// A variant whose fields have names, or that has none: then `fields` is `Vec::new(alloc)`.
    ///
    /// It takes the index as well as the name, since a value knows no type and its bytes begin with
    /// the index: [`variant_index`](crate::variants::variant_index) finds it by the name. Where the
    /// two do not belong together by the type, the value is none of it.
    ///
    /// Errors: `AllocError`, if an allocation failed.
    ///
    /// ```text
    /// let fields = vec![in alloc; ("dest", dest), ("amount", 5u128.into())]?;
    /// let call = Value::variant("transfer", 3, fields)?;
    /// ```
    pub fn variant(name: &str, index: u8, fields: Vec<(&str, Value)>) -> Result<Value, AllocError>
        ensures { IfOk result
            (λ value. value ≡ Values.Variant name.now index (named fields.entry.items)) }
    {
        Ok(Value::Variant {
            name: Text::from_str(*fields.allocator(), name)?,
            index,
            fields: named_fields(fields)?,
        })
    }

    /// A variant whose fields have no names, as `Some(5)`. It takes the index as
    /// [`variant`](Value::variant) does.
    ///
    /// Errors: `AllocError`, if an allocation failed.
    ///
    /// ```text
    /// let some = Value::unnamed_variant("Some", 1, vec![in alloc; 5u32.into()]?)?;
    /// ```
    pub fn unnamed_variant(name: &str, index: u8, values: Vec<Value>) -> Result<Value, AllocError>
        ensures { IfOk result
            (λ value. value ≡ Values.Variant name.now index (unnamed values.items)) }
    {
        Ok(Value::Variant {
            name: Text::from_str(*values.allocator(), name)?,
            index,
            fields: unnamed_fields(values)?,
        })
    }

    /// A list: a value of a sequence, an array or a tuple; of a map, if each item is the list of a
    /// key and a value.
    ///
    /// ```text
    /// let pair = Value::list(vec![in alloc; 1u32.into(), true.into()]?);
    /// ```
    pub fn list(values: Vec<Value>) -> Value
        ensures { result ≡ Values.List values.items }
    {
        Value::List(Items::from(values))
    }

    /// A text.
    ///
    /// Errors: `AllocError`, if an allocation failed.
    ///
    /// ```text
    /// let name = Value::text(alloc, "Alice")?;
    /// ```
    pub fn text(alloc: Global, text: &str) -> Result<Value, AllocError>
        ensures { IfOk result (λ value. value ≡ Values.Text text.now) }
    {
        Ok(Value::Text(Text::from_str(alloc, text)?))
    }

    /// Bytes: the list of their integers, as a value of `Vec<u8>` or `[u8; 32]` is.
    ///
    /// Errors: `AllocError`, if an allocation failed.
    ///
    /// ```text
    /// let account = Value::bytes(alloc, &[1; 32])?;
    /// ```
    pub fn bytes(alloc: Global, bytes: &[u8]) -> Result<Value, AllocError>
        ensures { IfOk result (λ value. value ≡ Values.List (map Values.Unsigned bytes.now)) }
    {
        let mut values = Items::with_capacity(alloc, bytes.len())?;
        for byte in bytes {
            values.push(Value::from(*byte))?;
        }
        Ok(Value::List(values))
    }
}

impl From<bool> for Value {
    ghost from_gives = { λ truth value. value ≡ Values.Bool truth };

    fn from(truth: bool) -> Value {
        Value::Bool(truth)
    }
}

impl From<u8> for Value {
    ghost from_gives = { λ n value. value ≡ Values.Unsigned n };

    fn from(n: u8) -> Value {
        Value::Unsigned(u128::from(n))
    }
}

impl From<u16> for Value {
    ghost from_gives = { λ n value. value ≡ Values.Unsigned n };

    fn from(n: u16) -> Value {
        Value::Unsigned(u128::from(n))
    }
}

impl From<u32> for Value {
    ghost from_gives = { λ n value. value ≡ Values.Unsigned n };

    fn from(n: u32) -> Value {
        Value::Unsigned(u128::from(n))
    }
}

impl From<u64> for Value {
    ghost from_gives = { λ n value. value ≡ Values.Unsigned n };

    fn from(n: u64) -> Value {
        Value::Unsigned(u128::from(n))
    }
}

impl From<u128> for Value {
    ghost from_gives = { λ n value. value ≡ Values.Unsigned n };

    fn from(n: u128) -> Value {
        Value::Unsigned(n)
    }
}

impl From<i8> for Value {
    ghost from_gives = { λ n value. value ≡ Values.Signed n };

    fn from(n: i8) -> Value {
        Value::Signed(i128::from(n))
    }
}

impl From<i16> for Value {
    ghost from_gives = { λ n value. value ≡ Values.Signed n };

    fn from(n: i16) -> Value {
        Value::Signed(i128::from(n))
    }
}

impl From<i32> for Value {
    ghost from_gives = { λ n value. value ≡ Values.Signed n };

    fn from(n: i32) -> Value {
        Value::Signed(i128::from(n))
    }
}

impl From<i64> for Value {
    ghost from_gives = { λ n value. value ≡ Values.Signed n };

    fn from(n: i64) -> Value {
        Value::Signed(i128::from(n))
    }
}

impl From<i128> for Value {
    ghost from_gives = { λ n value. value ≡ Values.Signed n };

    fn from(n: i128) -> Value {
        Value::Signed(n)
    }
}

impl From<Text> for Value {
    ghost from_gives = { λ text value. value ≡ Values.Text text };

    fn from(text: Text) -> Value {
        Value::Text(text)
    }
}

impl From<String> for Value {
    ghost from_gives = { λ chars value. value ≡ Values.Text (string_bytes chars) };

    fn from(chars: String) -> Value {
        Value::Text(Text::from(chars))
    }
}
