//! Descriptions that are borrowed: those at each id of a table or a builder, and those whose
//! strings stay in the bytes. Beside them the index of a variant.
use scale_info::borrowed_form::{BorrowedForm, decode_type, owned_type};
use scale_info::form::{Form, PortableForm};
use scale_info::value::variant_index;
use scale_info::{DecodeError, PortableRegistry, Scale, Type};
use std::alloc::{AllocError, Global};
use std::test::Fail;
use test_common::held::Held;
use test_common::rows::parted;
use test_memory_common::answers::{Answer, digits, done, encoded, failed};
use test_memory_common::inputs::{bytes_of, table_of};
use test_memory_common::marked;
use test_memory_common::marks::{begin, end};
use test_memory_common::outcomes::Outcome;
use test_memory_tables::builders::built;
use test_memory_tables::tables::with_rest;
use test_memory_tables::{builders, tables};

/// Descriptions that may be there, each by its encoding, with blanks between them.
fn listed(alloc: Global, found: &[Option<&Type<PortableForm>>]) -> Result<String, AllocError> {
    let mut text = String::new(alloc);
    for ty in found {
        if !text.is_empty() {
            text.push_str(" ")?;
        }
        match ty {
            Some(ty) => text.push_str(digits(alloc, *ty)?.as_str())?,
            None => text.push_str("none")?,
        }
    }
    Ok(text)
}

/// Asks a table for the description at each index, at the first one past its end, and at the
/// greatest one.
fn resolve_each(rt: &HostRuntime, row: &str) -> Result<Outcome, Fail> {
    let table = Held(table_of(rt.alloc(), row)?);
    let mut found = Vec::with_capacity(rt.alloc(), table.0.len().saturating_add(2))?;
    let past = u32::try_from(table.0.len())?;
    begin(rt);
    for index in 0..=past {
        let _ = found.push(table.0.resolve(index));
    }
    let _ = found.push(table.0.resolve(u32::MAX));
    end(rt);
    Outcome::of(done(listed(rt.alloc(), &found)))
}

/// Asks a table for the index of a variant. A row is a name, a colon, an id, a semicolon and the
/// table.
fn find_variant(rt: &HostRuntime, row: &str) -> Result<Outcome, Fail> {
    let (name, rest) = parted(row, ':')?;
    let (id, table) = parted(rest, ';')?;
    let id: u32 = id.trim().parse()?;
    let table = Held(table_of(rt.alloc(), table.trim())?);
    let index = marked!(rt; variant_index(&table.0, id, name));
    Outcome::of(done(format!(in rt.alloc(); "{index:?}")))
}

/// Asks a table: after `each of` for its descriptions, after `variant` for an index, and else for
/// what it has.
fn look_at_table(rt: &HostRuntime, row: &str) -> Result<Outcome, Fail> {
    if let Some(name) = row.strip_prefix("each of ") {
        return resolve_each(rt, name);
    }
    match row.strip_prefix("variant ") {
        Some(row) => find_variant(rt, row),
        None => tables::look(rt, row),
    }
}

/// Asks a builder for the description at each id, at its next id, and at the greatest one.
fn get_each(rt: &HostRuntime, row: &str) -> Result<Outcome, Fail> {
    let builder = Held(built(rt.alloc(), table_of(rt.alloc(), row)?)?);
    let next = builder.0.next_type_id();
    let mut found = Vec::with_capacity(rt.alloc(), (next as usize).saturating_add(2))?;
    begin(rt);
    for id in 0..=next {
        let _ = found.push(builder.0.get(id));
    }
    let _ = found.push(builder.0.get(u32::MAX));
    end(rt);
    Outcome::of(done(listed(rt.alloc(), &found)))
}

/// Asks a builder: after `each of` for its descriptions, and else for what it has.
fn look_at_builder(rt: &HostRuntime, row: &str) -> Result<Outcome, Fail> {
    match row.strip_prefix("each of ") {
        Some(name) => get_each(rt, name),
        None => builders::look(rt, row),
    }
}

/// The index and the bytes of a row, with a colon between them.
pub fn indexed(alloc: Global, row: &str) -> Result<(u32, Vec<u8>), Fail> {
    let (index, input) = parted(row, ':')?;
    Ok((index.parse()?, bytes_of(alloc, input.trim())?))
}

/// Makes the description at an index that owns its strings.
fn own_description(rt: &HostRuntime, row: &str) -> Result<Outcome, Fail> {
    let (index, bytes) = indexed(rt.alloc(), row)?;
    let (table, _) = PortableRegistry::decode(rt.alloc(), &bytes)?;
    let Some(ty) = table.resolve(index) else {
        return Outcome::of(done(String::from_str(rt.alloc(), "none")));
    };
    let mut encoding = Vec::new(rt.alloc());
    ty.encode_to(&mut encoding)?;
    let (borrowed, _) = decode_type(rt.alloc(), &encoding)?;
    let returned = marked!(rt; owned_type(rt.alloc(), &borrowed));
    drop_description(borrowed);
    Outcome::of(encoded(rt.alloc(), returned))
}

/// Drops a description of any form.
fn drop_description<F: Form>(_ty: Type<F>) {}

/// The digits of a borrowed description, by a copy.
fn digits_of(alloc: Global, ty: Type<BorrowedForm<'_>>) -> Result<String, AllocError> {
    let owned = owned_type(alloc, &ty);
    drop_description(ty);
    digits(alloc, &owned?)
}

/// The outcome of a description that was decoded, and of what is left.
fn decoded(
    alloc: Global,
    returned: Result<(Type<BorrowedForm<'_>>, &[u8]), DecodeError>,
) -> Result<Answer, AllocError> {
    match returned {
        Ok((ty, rest)) => done(with_rest(digits_of(alloc, ty), rest)),
        Err(error) => failed(alloc, &error),
    }
}

/// Decodes a description.
fn decode_description(rt: &HostRuntime, row: &str) -> Result<Outcome, Fail> {
    let bytes = bytes_of(rt.alloc(), row)?;
    let returned = marked!(rt; decode_type(rt.alloc(), &bytes));
    Outcome::of(decoded(rt.alloc(), returned))
}

/// Makes the call of this name on a description that is borrowed.
pub fn call(rt: &HostRuntime, name: &str, input: &str) -> Result<Outcome, Fail> {
    match name {
        "look_at_table" => look_at_table(rt, input),
        "look_at_builder" => look_at_builder(rt, input),
        "decode_type" => decode_description(rt, input),
        "owned_type" => own_description(rt, input),
        _ => Err(Fail::new("no call has this name")),
    }
}
