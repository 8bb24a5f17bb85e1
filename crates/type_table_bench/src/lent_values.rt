//! Values that borrow what they hold.
use crate::digest::Digest;
use crate::readings::{Input, Reading};
use anyhow::Result;
use scale_info::borrowed::{Integers, ValueRef, decode_borrowed};
use std::alloc::Global;

/// Puts in a value, as one that owns all that it holds is put in.
#[cycle(lent_values)]
fn put_value(value: &ValueRef<'_, '_>, digest: &mut Digest) {
    match value {
        ValueRef::Bool(truth) => digest.put(if *truth { 1 } else { 2 }),
        ValueRef::Unsigned(number) => digest.put_wide(*number),
        ValueRef::Signed(number) => digest.put_wide(number.unsigned_abs()),
        ValueRef::Text(text) => digest.put_bytes(text.as_bytes()),
        ValueRef::Bytes(bytes) => digest.put_integers(bytes),
        ValueRef::Integers(integers) => put_integers(integers, digest),
        ValueRef::List(values) => put_list(values.as_slice(), digest),
        ValueRef::Record(fields) => put_fields(fields.as_slice(), digest),
        ValueRef::Variant {
            name,
            index,
            fields,
        } => {
            digest.put_bytes(name.as_bytes());
            digest.put(*index as u64);
            put_fields(fields.as_slice(), digest);
        }
    }
}

/// Puts in integers and their count.
fn put_integers(integers: &Integers<'_>, digest: &mut Digest) {
    digest.put(integers.len() as u64);
    for index in 0..integers.len() {
        if let Some(ValueRef::Unsigned(number)) = integers.at(index) {
            digest.put_wide(number);
        }
    }
}

/// Puts in values and their count.
#[cycle(lent_values)]
fn put_list(values: &[ValueRef<'_, '_>], digest: &mut Digest) {
    digest.put(values.len() as u64);
    for value in values {
        put_value(value, digest);
    }
}

/// Puts in fields and their count.
#[cycle(lent_values)]
fn put_fields(fields: &[(Option<&str>, ValueRef<'_, '_>)], digest: &mut Digest) {
    digest.put(fields.len() as u64);
    for (name, value) in fields {
        match name {
            Some(name) => digest.put_bytes(name.as_bytes()),
            None => digest.put(3),
        }
        put_value(value, digest);
    }
}

/// Decodes each value to one that borrows.
pub struct Loans;

impl Reading for Loans {
    fn put(alloc: Global, input: Input<'_>, digest: &mut Digest) -> Result<()> {
        let (value, rest) = decode_borrowed(alloc, input.table, input.id, input.bytes)?;
        put_value(&value, digest);
        digest.put(rest.len() as u64);
        Ok(())
    }
}
