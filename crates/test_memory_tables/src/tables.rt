//! Tables: as bytes, their copies, what they have, and how they compare.
use scale_info::impls::Compact;
use scale_info::{DecodeError, PortableRegistry, Scale, TryClone};
use std::alloc::{AllocError, Global};
use std::test::Fail;
use test_common::held::Held;
use test_memory_common::answers::{Answer, digits, done, encoded, failed};
use test_memory_common::inputs::{bytes_of, table_of};
use test_memory_common::marks::{begin, end};
use test_memory_common::outcomes::Outcome;
use test_memory_common::{appended, marked};

/// Digits, and after a `+` those of the bytes that are left.
pub fn with_rest(digits: Result<String, AllocError>, rest: &[u8]) -> Result<String, AllocError> {
    let mut text = digits?;
    if !rest.is_empty() {
        let rest = hex::encode(*text.allocator(), rest)?;
        text.push_str(" + ")?;
        text.push_str(rest.as_str())?;
    }
    Ok(text)
}

/// The outcome of a table that was decoded, and of what is left.
fn decoded(
    alloc: Global,
    returned: Result<(PortableRegistry, &[u8]), DecodeError>,
) -> Result<Answer, AllocError> {
    match returned {
        Ok((table, rest)) => done(with_rest(digits(alloc, &table), rest)),
        Err(error) => failed(alloc, &error),
    }
}

/// Decodes a table.
fn decode(rt: &HostRuntime, row: &str) -> Result<Outcome, Fail> {
    let bytes = bytes_of(rt.alloc(), row)?;
    let returned = marked!(rt; PortableRegistry::decode(rt.alloc(), &bytes));
    Outcome::of(decoded(rt.alloc(), returned))
}

/// Decodes a compact integer, and encodes it again.
fn decode_compact(rt: &HostRuntime, row: &str) -> Result<Outcome, Fail> {
    let bytes = bytes_of(rt.alloc(), row)?;
    let returned = marked!(rt; Compact::<u32>::decode_from(rt.alloc(), &bytes));
    let (number, rest) = returned?;
    let digits = with_rest(digits(rt.alloc(), &number), rest)?;
    Outcome::of(done(format!(in rt.alloc(); "{} {digits}", number.0)))
}

/// Encodes a table.
fn encode(rt: &HostRuntime, row: &str) -> Result<Outcome, Fail> {
    let table = Held(table_of(rt.alloc(), row)?);
    appended!(rt; out => table.0.encode(&mut out))
}

/// Copies a table.
fn try_clone(rt: &HostRuntime, row: &str) -> Result<Outcome, Fail> {
    let table = Held(table_of(rt.alloc(), row)?);
    let returned = marked!(rt; table.0.try_clone(rt.alloc()));
    Outcome::of(encoded(rt.alloc(), returned))
}

/// Copies each entry of a table.
fn try_clone_entries(rt: &HostRuntime, row: &str) -> Result<Outcome, Fail> {
    let table = Held(table_of(rt.alloc(), row)?);
    let returned = marked!(rt; table.0.types.try_clone(rt.alloc()));
    Outcome::of(encoded(rt.alloc(), returned))
}

/// Asks a table for what it has.
pub fn look(rt: &HostRuntime, row: &str) -> Result<Outcome, Fail> {
    let table = Held(table_of(rt.alloc(), row)?);
    begin(rt);
    let (len, is_empty, is_closed) = (table.0.len(), table.0.is_empty(), table.0.is_closed());
    let (first, types) = (table.0.resolve(0).is_some(), table.0.types().len());
    let mut entries = 0u32;
    for _ in table.0.entries() {
        entries = entries.saturating_add(1);
    }
    end(rt);
    Outcome::of(done(format!(in rt.alloc();
        "{len} {is_empty} {is_closed} {first} {entries} {types}"
    )))
}

/// Compares a table with an equal one, and with the empty one.
fn compare(rt: &HostRuntime, row: &str) -> Result<Outcome, Fail> {
    let left = Held(table_of(rt.alloc(), row)?);
    let right = Held(table_of(rt.alloc(), row)?);
    let empty = Held(table_of(rt.alloc(), "empty")?);
    begin(rt);
    let (same, other) = (left.0 == right.0, left.0 == empty.0);
    end(rt);
    Outcome::of(done(format!(in rt.alloc(); "{same} {other}")))
}

/// How the first descriptions of two tables compare.
fn order(rt: &HostRuntime, row: &str) -> Result<Outcome, Fail> {
    let left = Held(table_of(rt.alloc(), row)?);
    let right = Held(table_of(rt.alloc(), "docs of a type, a variant and a field")?);
    let (Some(left), Some(right)) = (left.0.resolve(0), right.0.resolve(1)) else {
        return Err(Fail::new("the table is empty"));
    };
    let order = marked!(rt; left.cmp(right));
    Outcome::of(done(format!(in rt.alloc(); "{order:?}")))
}

/// Makes the call of this name on a table.
pub fn call(rt: &HostRuntime, name: &str, input: &str) -> Result<Outcome, Fail> {
    match name {
        "decode" => decode(rt, input),
        "encode" => encode(rt, input),
        "try_clone" => try_clone(rt, input),
        "try_clone_entries" => try_clone_entries(rt, input),
        "compare" => compare(rt, input),
        "order" => order(rt, input),
        "decode_compact" => decode_compact(rt, input),
        _ => Err(Fail::new("no call has this name")),
    }
}
