//! Values of a program's own types, decoded by tables and encoded again.
use crate::values::{Given, ids_of};
use scale_info::typed::{DecodeAs, EncodeAs, decode_as, encode_as};
use std::test::Fail;
use test_common::held::Held;
use test_common::rows::{parted, parts_of, row_bytes};
use test_memory_common::answers::{done, failed};
use test_memory_common::inputs::table_of;
use test_memory_common::outcomes::Outcome;
use test_memory_common::{appended, marked};
use test_memory_tables::tables::with_rest;

/// Decodes the value of a row: its encoding by the type of the table, and what is left.
fn decoded<T: DecodeAs + EncodeAs>(rt: &HostRuntime, row: &str) -> Result<Outcome, Fail> {
    let given = Given::read(rt.alloc(), row)?;
    let table = &given.table.0;
    let returned = marked!(rt; decode_as::<T, _>(rt.alloc(), table, given.id, &given.input));
    let answer = match returned {
        Ok((value, rest)) => {
            let mut bytes = Vec::new(rt.alloc());
            encode_as(rt.alloc(), table, given.id, &value, &mut bytes)?;
            done(with_rest(hex::encode(rt.alloc(), bytes.as_slice()), rest))
        }
        Err(error) => failed(rt.alloc(), &error),
    };
    Outcome::of(answer)
}

/// Appends the encoding of the value of a row to one byte.
fn encoded<T: DecodeAs + EncodeAs>(rt: &HostRuntime, row: &str) -> Result<Outcome, Fail> {
    let (ids, table, input) = parts_of(row)?;
    let (id, other) = ids_of(ids)?;
    let table = Held(table_of(rt.alloc(), table)?);
    let (value, _) = decode_as::<T, _>(rt.alloc(), &table.0, id, &row_bytes(rt.alloc(), input)?)?;
    let value = Held(value);
    appended!(rt; out => encode_as(rt.alloc(), &table.0, other, &value.0, &mut out))
}

/// Makes the call of this name with a value of the type `T`.
fn called<T: DecodeAs + EncodeAs>(
    rt: &HostRuntime,
    name: &str,
    row: &str,
) -> Result<Outcome, Fail> {
    match name {
        "decode_as" => decoded::<T>(rt, row),
        "encode_as" => encoded::<T>(rt, row),
        _ => Err(Fail::new("no call has this name")),
    }
}

/// Makes the call of this name. A row is a type of the program, a semicolon, and then as for
/// `values.decode` and `values.encode`.
pub fn call(rt: &HostRuntime, name: &str, row: &str) -> Result<Outcome, Fail> {
    let (kind, row) = parted(row, ';')?;
    match kind {
        "u16" => called::<u16>(rt, name, row),
        "u64" => called::<u64>(rt, name, row),
        "String" => called::<String>(rt, name, row),
        "Vec<u16>" => called::<Vec<u16>>(rt, name, row),
        "two of u64" => called::<[u64; 2]>(rt, name, row),
        "(u64, bool)" => called::<(u64, bool)>(rt, name, row),
        "Vec<(u16, bool)>" => called::<Vec<(u16, bool)>>(rt, name, row),
        "Option<(u64, bool)>" => called::<Option<(u64, bool)>>(rt, name, row),
        _ => Err(Fail::new("no type has this name")),
    }
}
