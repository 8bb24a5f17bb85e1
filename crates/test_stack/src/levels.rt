//! Values of so many levels round a number, and the tables and bytes that they are decoded by.
//!
//! In a table the number's type has the id 0, and each type after it has the one before as its
//! part.
use anyhow::{Result, bail};
use scale_info_codec::Scale;
use scale_info_collections::items::Items;
use scale_info_collections::text::Text;
use scale_info_type_ids::impls::Compact;
use scale_info_value::value::Value;
use std::alloc::Global;

/// The kinds of types that are a level.
#[derive(Clone, Copy)]
enum Kind {
    Struct,
    List,
    Tuple,
    Enum,
    Map,
}

/// The kind of a level, counted from the number, where the levels are of this name.
fn kind_at(kinds: &str, level: u32) -> Result<Kind> {
    match (kinds, level % 5) {
        ("structs", _) | ("mixture", 0) => Ok(Kind::Struct),
        ("lists", _) | ("mixture", 1) => Ok(Kind::List),
        ("tuples", _) | ("mixture", 2) => Ok(Kind::Tuple),
        ("enums", _) | ("mixture", 3) => Ok(Kind::Enum),
        ("maps", _) | ("mixture", _) => Ok(Kind::Map),
        _ => bail!("no kinds have this name"),
    }
}

/// The bytes of a type of this kind around its part: a struct and an enum have one field without
/// name, an enum has one variant, and a map is one from the number.
fn around_part(kind: Kind) -> (&'static [u8], &'static [u8]) {
    match kind {
        Kind::Struct => (&[0, 4, 0], &[0, 0]),
        Kind::List => (&[2], &[]),
        Kind::Tuple => (&[4, 4], &[]),
        Kind::Enum => (&[1, 4, 0, 4, 0], &[0, 0, 0, 0]),
        Kind::Map => (&[8, 0], &[]),
    }
}

/// The bytes of a table with so many types of these kinds after the number's.
pub fn table_bytes(alloc: Global, kinds: &str, levels: u32) -> Result<Vec<u8>> {
    let mut bytes = Vec::new(alloc);
    Compact(levels.saturating_add(1)).encode_to(&mut bytes)?;
    bytes.extend_from_slice(&[0, 0, 0, 5, 3, 0])?;
    for part in 0..levels {
        let (before, after) = around_part(kind_at(kinds, part)?);
        Compact(part.saturating_add(1)).encode_to(&mut bytes)?;
        bytes.extend_from_slice(&[0, 0])?;
        bytes.extend_from_slice(before)?;
        Compact(part).encode_to(&mut bytes)?;
        bytes.extend_from_slice(after)?;
        bytes.push(0)?;
    }
    Ok(bytes)
}

/// The bytes of a value of the last type of that table: the lists and maps have one item.
pub fn value_bytes(alloc: Global, kinds: &str, levels: u32) -> Result<Vec<u8>> {
    let mut bytes = Vec::new(alloc);
    for level in (0..levels).rev() {
        bytes.extend_from_slice(match kind_at(kinds, level)? {
            Kind::Struct | Kind::Tuple => &[],
            Kind::List => &[4],
            Kind::Enum => &[0],
            Kind::Map => &[4, 1],
        })?;
    }
    bytes.push(1)?;
    Ok(bytes)
}

/// The list of this one item.
fn one<T: Drop>(alloc: Global, item: T) -> Result<Items<T>> {
    let mut items = Items::with_capacity(alloc, 1)?;
    items.push(item)?;
    Ok(items)
}

/// The value of this kind round another, as it is decoded.
fn around(alloc: Global, kind: Kind, inner: Value) -> Result<Value> {
    match kind {
        Kind::Struct => Ok(Value::Record(one(alloc, (None, inner))?)),
        Kind::List | Kind::Tuple => Ok(Value::List(one(alloc, inner)?)),
        Kind::Enum => Ok(Value::Variant {
            name: Text::from(String::new(alloc)),
            index: 0,
            fields: one(alloc, (None, inner))?,
        }),
        Kind::Map => {
            let mut pair = one(alloc, Value::Unsigned(1))?;
            pair.push(inner)?;
            Ok(Value::List(one(alloc, Value::List(pair))?))
        }
    }
}

/// The value of so many levels that is decoded from those bytes.
pub fn nested(alloc: Global, kinds: &str, levels: u32) -> Result<Value> {
    let mut value = Value::Unsigned(1);
    for level in 0..levels {
        value = around(alloc, kind_at(kinds, level)?, value)?;
    }
    Ok(value)
}

/// The last part of a value.
fn part(value: &Value) -> Option<&Value> {
    match value {
        Value::List(items) => items.last(),
        Value::Record(fields) | Value::Variant { fields, .. } => match fields.last() {
            None => None,
            Some((_, part)) => Some(part),
        },
        _ => None,
    }
}

/// How deep a value of so many levels is, of which each is two deep at most.
pub fn depth(value: &Value, levels: u32) -> usize {
    let mut depth = 1;
    let mut value = value;
    for _ in 0..levels as u64 * 2 {
        let Some(part) = part(value) else {
            return depth;
        };
        depth = depth.saturating_add(1);
        value = part;
    }
    depth
}
