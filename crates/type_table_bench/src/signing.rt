//! Values that are decoded, changed in one part, and encoded again.
use crate::digest::Digest;
use crate::readings::{Input, Reading};
use anyhow::Result;
use scale_info::Items;
use scale_info::value::{Value, decode_value, encode_value};
use std::alloc::Global;

/// Decodes each value, changes the last field of its last item, and encodes it again.
pub struct Signing;

/// Another value of the same type, where it is a number or a list; else the same.
fn another(alloc: Global, value: Value) -> Value {
    match value {
        Value::Unsigned(number) => Value::Unsigned(number / 2),
        Value::List(_) => Value::List(Items::new(alloc)),
        other => other,
    }
}

/// The item with another value in its last field.
fn changed_item(alloc: Global, item: Value) -> Result<Value> {
    let Value::Record(fields) = item else {
        return Ok(item);
    };
    let mut fields = fields.into_vec();
    if let Some((name, value)) = fields.pop() {
        fields.push((name, another(alloc, value)))?;
    }
    Ok(Value::Record(Items::from(fields)))
}

/// The list with another value in its last item.
fn changed(alloc: Global, value: Value) -> Result<Value> {
    let Value::List(items) = value else {
        return Ok(value);
    };
    let mut items = items.into_vec();
    if let Some(item) = items.pop() {
        items.push(changed_item(alloc, item)?)?;
    }
    Ok(Value::List(Items::from(items)))
}

impl Reading for Signing {
    fn put(alloc: Global, input: Input<'_>, digest: &mut Digest) -> Result<()> {
        let (value, rest) = decode_value(alloc, input.table, input.id, input.bytes)?;
        let value = changed(alloc, value)?;
        let mut bytes = Vec::new(alloc);
        encode_value(input.table, input.id, &value, &mut bytes)?;
        digest.put_bytes(&bytes);
        digest.put(rest.len() as u64);
        Ok(())
    }
}
