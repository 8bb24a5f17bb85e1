//! Values that a program makes and encodes, and the paths of mismatches.
use crate::asserts::is;
use scale_info::PortableRegistry;
use scale_info::value::{Value, encode_value};
use std::alloc::{AllocError, Global};
use std::test::Fail;
use test_common::rows::row_bytes;

/// A list `calls` of structs, each with a `dest: bool` and an `amount: u32`.
const TABLE: &str = "140000000004011463616c6c7304000000040000020800080000000801\
    10646573740c00000118616d6f756e74100000000c0000050000100000050500";

/// One call in a list of one.
fn calls(alloc: Global, dest: Value) -> Result<Value, AllocError> {
    let call = Value::record(vec![in alloc; ("dest", dest), ("amount", 7u32.into())]?)?;
    let calls = Value::list(vec![in alloc; call]?);
    Value::record(vec![in alloc; ("calls", calls)]?)
}

/// What is appended for a value of the first type of the table.
fn encoded(alloc: Global, value: &Value) -> Result<Vec<u8>, Fail> {
    let bytes = row_bytes(alloc, TABLE)?;
    let (table, _) = PortableRegistry::decode(alloc, &bytes)?;
    let mut out = Vec::new(alloc);
    encode_value(&table, 0, value, &mut out)?;
    Ok(out)
}

#[test]
fn a_value_is_made_and_encoded(rt: HostRuntime) -> Result<(), Fail> {
    let value = calls(rt.alloc(), true.into())?;
    let out = encoded(rt.alloc(), &value)?;
    is(&rt, "bytes", out.as_slice(), &[4, 1, 7, 0, 0, 0]);
    Ok(())
}

#[test]
fn a_mismatch_says_where_it_is(rt: HostRuntime) -> Result<(), Fail> {
    let value = calls(rt.alloc(), 5u32.into())?;
    let bytes = row_bytes(rt.alloc(), TABLE)?;
    let (table, _) = PortableRegistry::decode(rt.alloc(), &bytes)?;
    let mut out = Vec::new(rt.alloc());
    let Err(error) = encode_value(&table, 0, &value, &mut out) else {
        return Ok(assert!(rt; false));
    };
    let line = format!(in rt.alloc(); "{error}")?;
    is(
        &rt,
        "line",
        line.as_str(),
        "the value does not fit its type at calls.0.dest",
    );
    Ok(())
}
