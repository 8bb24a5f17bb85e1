//! Values that are decoded by a table, encoded again and borrowed, and values that a program
//! builds.
use crate::print::print_decoded;
use scale_info::PortableRegistry;
use scale_info::borrowed::{ValueRef, decode_borrowed};
use scale_info::value::{Value, ValueError, decode_value, encode_value};
use scale_info::visit::skip_value;
use std::alloc::{AllocError, Global};
use std::test::Fail;
use test_common::held::Held;
use test_common::rows::{parts_of, row_bytes};
use test_memory_common::answers::{Answer, done, failed, shown};
use test_memory_common::inputs::table_of;
use test_memory_common::outcomes::Outcome;
use test_memory_common::{appended, marked};

/// What a row gives.
#[derive(Drop)]
pub struct Given {
    /// The id of the type of a value.
    pub id: u32,
    /// The input.
    pub input: Vec<u8>,
    /// The table.
    pub table: Held<PortableRegistry>,
}

impl Given {
    /// What a row gives.
    pub fn read(alloc: Global, row: &str) -> Result<Given, Fail> {
        let (id, table, input) = parts_of(row)?;
        let (id, input): (u32, Vec<u8>) = (id.parse()?, row_bytes(alloc, input)?);
        let table = Held(table_of(alloc, table)?);
        Ok(Given { id, input, table })
    }

    /// Whether a value is the one that is decoded.
    pub fn is_decoded(&self, alloc: Global, value: &Value) -> Result<bool, Fail> {
        let (again, _) = decode_value(alloc, &self.table.0, self.id, &self.input)?;
        Ok(again == *value)
    }
}

/// The text of a value, and the bytes that are left, in decimal.
fn text_of(alloc: Global, value: Vec<u8>, rest: &[u8]) -> Result<String, Fail> {
    let mut text = String::from_utf8(value)?;
    for byte in rest {
        text.push_str(format!(in alloc; " {byte}")?.as_str())?;
    }
    Ok(text)
}

/// How a value that was decoded is printed with what is left, and whether another decoding gives it
/// too.
fn printed(alloc: Global, given: &Given, value: &Value) -> Result<Answer, Fail> {
    let is_same = given.is_decoded(alloc, value)?;
    let mut text = Vec::new(alloc);
    let rest = print_decoded(alloc, &given.table.0, given.id, &given.input, &mut text)?;
    let text = text_of(alloc, text, rest)?;
    Ok(done(format!(in alloc; "{text} {is_same}"))?)
}

/// Decodes the value of a row.
fn decode(rt: &HostRuntime, row: &str) -> Result<Outcome, Fail> {
    let given = Given::read(rt.alloc(), row)?;
    let table = &given.table.0;
    let returned = marked!(rt; decode_value(rt.alloc(), table, given.id, &given.input));
    let answer = match returned {
        Ok((value, _)) => printed(rt.alloc(), &given, &value)?,
        Err(error) => failed(rt.alloc(), &error)?,
    };
    Outcome::of(Ok(answer))
}

/// Whether the copy of a value that borrows is the value that is decoded, and what is left.
fn copied(
    alloc: Global,
    given: &Given,
    value: &ValueRef<'_, '_>,
    rest: &[u8],
) -> Result<Answer, Fail> {
    let copy = value.to_value(alloc)?;
    let is_same = given.is_decoded(alloc, &copy)?;
    Ok(done(format!(in alloc; "{is_same} {rest:?}"))?)
}

/// The outcome of a decoding to a value that borrows.
pub fn borrowed_outcome(
    alloc: Global,
    given: &Given,
    returned: Result<(ValueRef<'_, '_>, &[u8]), ValueError>,
) -> Result<Outcome, Fail> {
    let answer = match returned {
        Ok((value, rest)) => copied(alloc, given, &value, rest)?,
        Err(error) => failed(alloc, &error)?,
    };
    Outcome::of(Ok(answer))
}

/// Decodes the value of a row as one that borrows.
fn decode_and_borrow(rt: &HostRuntime, row: &str) -> Result<Outcome, Fail> {
    let given = Given::read(rt.alloc(), row)?;
    let table = &given.table.0;
    let returned = marked!(rt; decode_borrowed(rt.alloc(), table, given.id, &given.input));
    borrowed_outcome(rt.alloc(), &given, returned)
}

/// Copies the value of a row that borrows: whether the copy is the value that is decoded.
fn copy_borrowed(rt: &HostRuntime, row: &str) -> Result<Outcome, Fail> {
    let given = Given::read(rt.alloc(), row)?;
    let (borrowed, _) = decode_borrowed(rt.alloc(), &given.table.0, given.id, &given.input)?;
    Outcome::of(match marked!(rt; borrowed.to_value(rt.alloc())) {
        Ok(copy) => {
            let is_same = given.is_decoded(rt.alloc(), &copy)?;
            done(format!(in rt.alloc(); "{is_same}"))
        }
        Err(error) => failed(rt.alloc(), &error),
    })
}

/// The id of the type of a value, and that of the type by which it is encoded: the one after
/// ` as `, or else the same.
pub fn ids_of(ids: &str) -> Result<(u32, u32), Fail> {
    let (id, other) = ids.split_once(" as ").unwrap_or((ids, ids));
    Ok((id.parse()?, other.parse()?))
}

/// Appends the encoding of the value of a row to one byte.
fn encode(rt: &HostRuntime, row: &str) -> Result<Outcome, Fail> {
    let (ids, table, input) = parts_of(row)?;
    let (id, other) = ids_of(ids)?;
    let table = Held(table_of(rt.alloc(), table)?);
    let (value, _) = decode_value(rt.alloc(), &table.0, id, &row_bytes(rt.alloc(), input)?)?;
    let value = Held(value);
    appended!(rt; out => encode_value(&table.0, other, &value.0, &mut out))
}

/// Goes past the value of a row: what is left.
fn skip(rt: &HostRuntime, row: &str) -> Result<Outcome, Fail> {
    let given = Given::read(rt.alloc(), row)?;
    let returned = marked!(rt; skip_value(&given.table.0, given.id, &given.input));
    Outcome::of(shown(rt.alloc(), returned))
}

/// What a call that builds a value returned.
type Built = Result<Value, AllocError>;

/// A struct with named fields.
fn record(rt: &HostRuntime) -> Result<Built, Fail> {
    let fields = vec![in rt.alloc(); ("start", Value::from(3u8)), ("end", Value::from(5u8))]?;
    Ok(marked!(rt; Value::record(fields)))
}

/// A struct with an unnamed field.
fn unnamed(rt: &HostRuntime) -> Result<Built, Fail> {
    let values = vec![in rt.alloc(); Value::from(1u32)]?;
    Ok(marked!(rt; Value::unnamed(values)))
}

/// A variant with a named field.
fn variant(rt: &HostRuntime) -> Result<Built, Fail> {
    let fields = vec![in rt.alloc(); ("x", Value::from(true))]?;
    Ok(marked!(rt; Value::variant("B", 3, fields)))
}

/// A variant with an unnamed field.
fn unnamed_variant(rt: &HostRuntime) -> Result<Built, Fail> {
    let pair = Value::list(vec![in rt.alloc(); Value::from(5u32), Value::from(true)]?);
    let values = vec![in rt.alloc(); pair]?;
    Ok(marked!(rt; Value::unnamed_variant("Some", 1, values)))
}

/// Whether a value that was built is the one that is decoded of the row.
fn built(rt: &HostRuntime, row: &str, returned: Built) -> Result<Outcome, Fail> {
    match returned {
        Ok(value) => {
            let value = Held(value);
            let given = Given::read(rt.alloc(), row)?;
            let is_same = given.is_decoded(rt.alloc(), &value.0)?;
            Outcome::of(done(format!(in rt.alloc(); "{is_same}")))
        }
        Err(error) => Outcome::of(failed(rt.alloc(), &error)),
    }
}

/// Makes the call of this name on a value, or builds one.
pub fn call(rt: &HostRuntime, name: &str, input: &str) -> Result<Outcome, Fail> {
    match name {
        "decode" => decode(rt, input),
        "decode_borrowed" => decode_and_borrow(rt, input),
        "to_value" => copy_borrowed(rt, input),
        "encode" => encode(rt, input),
        "skip" => skip(rt, input),
        "record" => built(rt, input, record(rt)?),
        "unnamed" => built(rt, input, unnamed(rt)?),
        "variant" => built(rt, input, variant(rt)?),
        "unnamed_variant" => built(rt, input, unnamed_variant(rt)?),
        "text" => built(rt, input, marked!(rt; Value::text(rt.alloc(), "hi"))),
        "bytes" => built(rt, input, marked!(rt; Value::bytes(rt.alloc(), &[1, 2, 3]))),
        _ => Err(Fail::new("no call has this name")),
    }
}
