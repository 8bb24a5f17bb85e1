//! A number that sums up results.
use scale_info::value::Value;
use scale_info::{Items, Text};

/// A number that sums up all that was put in, in order.
#[derive(Drop)]
pub struct Digest {
    state: u64,
}

impl Digest {
    /// The digest of nothing.
    pub fn new() -> Digest {
        Digest { state: 0 }
    }

    /// The number.
    pub fn value(&self) -> u64 {
        self.state
    }

    /// Puts in a number.
    pub fn put(&mut self, number: u64) {
        let mixed = (self.state ^ number).wrapping_mul(0x9e37_79b9_7f4a_7c15);
        self.state = mixed ^ (mixed >> 29);
    }

    /// Puts in a number of 128 bits.
    pub fn put_wide(&mut self, number: u128) {
        self.put((number & 0xffff_ffff_ffff_ffff) as u64);
        self.put((number >> 64) as u64);
    }

    /// Puts in bytes and their count.
    pub fn put_bytes(&mut self, bytes: &[u8]) {
        self.put(bytes.len() as u64);
        for chunk in bytes.chunks(8) {
            match chunk {
                [a, b, c, d, e, f, g, h] => {
                    self.put(u64::from_le_bytes([*a, *b, *c, *d, *e, *f, *g, *h]));
                }
                few => self.put_few(few),
            }
        }
    }

    /// Puts in bytes, one by one.
    fn put_few(&mut self, bytes: &[u8]) {
        for byte in bytes {
            self.put(*byte as u64);
        }
    }

    /// Puts in integers of 8 bits and their count, as a list that is made is put in.
    pub fn put_integers(&mut self, integers: &[u8]) {
        self.put(integers.len() as u64);
        for integer in integers {
            self.put_wide(*integer as u128);
        }
    }

    /// Puts in a value.
    pub fn put_value(&mut self, value: &Value) {
        put_value(value, self);
    }
}

/// Puts in a value.
#[cycle(values)]
fn put_value(value: &Value, digest: &mut Digest) {
    match value {
        Value::Bool(truth) => digest.put(if *truth { 1 } else { 2 }),
        Value::Unsigned(number) => digest.put_wide(*number),
        Value::Signed(number) => digest.put_wide(number.unsigned_abs()),
        Value::Text(text) => digest.put_bytes(text.as_bytes()),
        Value::List(values) => put_list(values, digest),
        Value::Record(fields) => put_fields(fields, digest),
        Value::Variant {
            name,
            index,
            fields,
        } => {
            digest.put_bytes(name.as_bytes());
            digest.put(*index as u64);
            put_fields(fields, digest);
        }
    }
}

/// Puts in values and their count.
#[cycle(values)]
fn put_list(values: &Items<Value>, digest: &mut Digest) {
    digest.put(values.len() as u64);
    for value in values.as_slice() {
        put_value(value, digest);
    }
}

/// Puts in fields and their count.
#[cycle(values)]
fn put_fields(fields: &Items<(Option<Text>, Value)>, digest: &mut Digest) {
    digest.put(fields.len() as u64);
    for (name, value) in fields.as_slice() {
        match name {
            Some(name) => digest.put_bytes(name.as_bytes()),
            None => digest.put(3),
        }
        put_value(value, digest);
    }
}
