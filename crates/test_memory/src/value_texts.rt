//! Values as JSON: their texts, and the values that are taken from trees.
use crate::values::Given;
use scale_info::PortableRegistry;
use scale_info::value::{Value, decode_value, encode_value, from_json, has_own_names};
use scale_info::value_text::{ValueTextError, append_value_json, value_json};
use std::alloc::{AllocError, Global};
use std::test::Fail;
use test_common::held::Held;
use test_common::rows::parts_of;
use test_memory_common::answers::{done, failed, shown};
use test_memory_common::inputs::{output, table_of};
use test_memory_common::outcomes::Outcome;
use test_memory_common::{answered, marked};
use test_memory_tables::json::appended;

/// Appends the text of the value of a row to one byte.
fn append(rt: &HostRuntime, row: &str) -> Result<Outcome, Fail> {
    let given = Given::read(rt.alloc(), row)?;
    let (table, id, input) = (&given.table.0, given.id, given.input.as_slice());
    let mut out = output(rt.alloc())?;
    let before = appended(rt.alloc(), &out)?;
    let returned = marked!(rt; append_value_json(rt.alloc(), table, id, input, &mut out));
    let after = appended(rt.alloc(), &out)?;
    Outcome::lending(Ok(before), Ok(after), shown(rt.alloc(), returned))
}

/// The text of the bytes of a row as one value.
fn text(rt: &HostRuntime, row: &str) -> Result<Outcome, Fail> {
    let given = Given::read(rt.alloc(), row)?;
    let table = &given.table.0;
    let returned = marked!(rt; value_json(rt.alloc(), table, given.id, &given.input));
    Outcome::of(match returned {
        Ok(text) => done(Ok(text)),
        Err(ValueTextError::Value(error)) => failed(rt.alloc(), &error),
        Err(error) => failed(rt.alloc(), &error),
    })
}

/// Whether each name comes once in the value of a row.
fn own_names(rt: &HostRuntime, row: &str) -> Result<Outcome, Fail> {
    let given = Given::read(rt.alloc(), row)?;
    let (value, _) = decode_value(rt.alloc(), &given.table.0, given.id, &given.input)?;
    let value = Held(value);
    let returned = marked!(rt; has_own_names(rt.alloc(), &value.0));
    Outcome::of(done(format!(in rt.alloc(); "{returned}")))
}

/// The encoding of a value in hexadecimal; of a value without an encoding the error.
fn digits(
    alloc: Global,
    table: &PortableRegistry,
    id: u32,
    value: &Value,
) -> Result<String, AllocError> {
    let mut bytes = Vec::new(alloc);
    match encode_value(table, id, value, &mut bytes) {
        Ok(()) => hex::encode(alloc, bytes.as_slice()),
        Err(error) => format!(in alloc; "{error:?}"),
    }
}

/// Takes a value from the tree of a text, which a row has in the place of an input.
fn take(rt: &HostRuntime, row: &str) -> Result<Outcome, Fail> {
    let (id, table, text) = parts_of(row)?;
    let id: u32 = id.parse()?;
    let table = Held(table_of(rt.alloc(), table)?);
    let tree = Held(serde_json::Value::from_str(rt.alloc(), text)?);
    answered!(
        rt;
        from_json(rt.alloc(), &table.0, id, &tree.0);
        value => done(digits(rt.alloc(), &table.0, id, &value))
    )
}

/// Makes the call of this name on a value as JSON.
pub fn call(rt: &HostRuntime, name: &str, input: &str) -> Result<Outcome, Fail> {
    match name {
        "append_value_json" => append(rt, input),
        "value_json" => text(rt, input),
        "has_own_names" => own_names(rt, input),
        "from_json" => take(rt, input),
        _ => Err(Fail::new("no call has this name")),
    }
}
