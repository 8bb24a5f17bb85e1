//! Tables that stay bytes, and values by types of them that are loaded.
use crate::values::{Given, borrowed_outcome};
use scale_info::borrowed::decode_borrowed;
use scale_info::form::PortableForm;
use scale_info::loaded::LoadedTypes;
use scale_info::value::Definitions;
use scale_info::view::TableView;
use scale_info::{Items, PortableRegistry, Scale, Type};
use std::alloc::{AllocError, Global};
use std::test::Fail;
use test_common::held::Held;
use test_common::rows::{numbers, parted, parts_of, row_bytes};
use test_memory_borrowed::borrowed::indexed;
use test_memory_common::answers::{Answer, digits, done, encoded, failed, shown};
use test_memory_common::inputs::bytes_of;
use test_memory_common::marks::{begin, end};
use test_memory_common::outcomes::Outcome;
use test_memory_common::{answered, marked};
use test_memory_tables::tables::with_rest;
use test_memory_tables::walks::walked;

/// Makes the view of a table, and leaves out what comes after it.
fn new(rt: &HostRuntime, row: &str) -> Result<Outcome, Fail> {
    let bytes = bytes_of(rt.alloc(), row)?;
    answered!(
        rt;
        TableView::new(rt.alloc(), &bytes);
        view => done(hex::encode(rt.alloc(), view.as_bytes()))
    )
}

/// Makes the view of a table, and returns what comes after it.
fn decode(rt: &HostRuntime, row: &str) -> Result<Outcome, Fail> {
    let bytes = bytes_of(rt.alloc(), row)?;
    answered!(
        rt;
        TableView::decode(rt.alloc(), &bytes);
        (view, rest) => done(with_rest(hex::encode(rt.alloc(), view.as_bytes()), rest))
    )
}

/// Makes the table of a view.
fn to_owned(rt: &HostRuntime, row: &str) -> Result<Outcome, Fail> {
    let bytes = bytes_of(rt.alloc(), row)?;
    let view = TableView::new(rt.alloc(), &bytes)?;
    let returned = marked!(rt; view.try_to_owned(rt.alloc()));
    Outcome::of(encoded(rt.alloc(), returned))
}

/// The outcome of a part that may be there, which is shown by its encoding.
fn found<T: Scale>(
    alloc: Global,
    returned: Result<Option<T>, AllocError>,
) -> Result<Answer, AllocError> {
    match returned {
        Ok(Some(part)) => done(digits(alloc, &part)),
        Ok(None) => done(String::from_str(alloc, "none")),
        Err(error) => failed(alloc, &error),
    }
}

/// Reads the description at an index.
fn resolve(rt: &HostRuntime, row: &str) -> Result<Outcome, Fail> {
    let (index, bytes) = indexed(rt.alloc(), row)?;
    let view = TableView::new(rt.alloc(), &bytes)?;
    let returned = marked!(rt; view.resolve(rt.alloc(), index));
    Outcome::of(found(rt.alloc(), returned))
}

/// Reads the entry at an index.
fn entry(rt: &HostRuntime, row: &str) -> Result<Outcome, Fail> {
    let (index, bytes) = indexed(rt.alloc(), row)?;
    let view = TableView::new(rt.alloc(), &bytes)?;
    let returned = marked!(rt; view.entry(rt.alloc(), index as usize));
    Outcome::of(found(rt.alloc(), returned))
}

/// Gathers the references of the entry at an index.
fn references(rt: &HostRuntime, row: &str) -> Result<Outcome, Fail> {
    let (index, bytes) = indexed(rt.alloc(), row)?;
    let view = TableView::new(rt.alloc(), &bytes)?;
    let returned = marked!(rt; view.references(rt.alloc(), index));
    Outcome::of(shown(rt.alloc(), returned))
}

/// The descriptions of a view, up to the first error.
fn descriptions(
    alloc: Global,
    view: &TableView<'_>,
) -> Result<Items<Type<PortableForm>>, AllocError> {
    let mut all = Held(Vec::new(alloc));
    for entry in view.entries(alloc) {
        let (_, ty) = entry?;
        all.0.push(ty)?;
    }
    Ok(Items::from(all.into_inner()))
}

/// Lists the descriptions of a table.
fn entries(rt: &HostRuntime, row: &str) -> Result<Outcome, Fail> {
    let bytes = bytes_of(rt.alloc(), row)?;
    let view = TableView::new(rt.alloc(), &bytes)?;
    let returned = marked!(rt; descriptions(rt.alloc(), &view));
    Outcome::of(encoded(rt.alloc(), returned))
}

/// The ids and the bytes of a row, with a colon between them.
fn ids_and_bytes(alloc: Global, row: &str) -> Result<(Vec<u32>, Vec<u8>), Fail> {
    let (ids, input) = parted(row, ':')?;
    Ok((numbers(alloc, ids)?, bytes_of(alloc, input.trim())?))
}

/// Numbers what entries reach: before the colon stand the roots.
fn number(rt: &HostRuntime, row: &str) -> Result<Outcome, Fail> {
    let (roots, bytes) = ids_and_bytes(rt.alloc(), row)?;
    let view = TableView::new(rt.alloc(), &bytes)?;
    let returned = marked!(rt; view.number(rt.alloc(), &roots));
    walked(rt.alloc(), returned)
}

/// The words of a text, in order.
fn words(alloc: Global, text: &str) -> Result<Vec<&str>, AllocError> {
    let mut all = Vec::new(alloc);
    for word in text.split_whitespace() {
        all.push(word)?;
    }
    Ok(all)
}

/// Finds the first entry of a path, whose segments stand before the colon.
fn find_by_path(rt: &HostRuntime, row: &str) -> Result<Outcome, Fail> {
    let (path, input) = parted(row, ':')?;
    let (path, bytes) = (
        words(rt.alloc(), path)?,
        bytes_of(rt.alloc(), input.trim())?,
    );
    let view = TableView::new(rt.alloc(), &bytes)?;
    let found = marked!(rt; view.find_by_path(&path));
    Outcome::of(done(format!(in rt.alloc(); "{found:?}")))
}

/// Asks a view for what it has.
fn look(rt: &HostRuntime, row: &str) -> Result<Outcome, Fail> {
    let bytes = bytes_of(rt.alloc(), row)?;
    let view = TableView::new(rt.alloc(), &bytes)?;
    begin(rt);
    let (len, is_empty, is_closed) = (view.len(), view.is_empty(), view.is_closed());
    end(rt);
    Outcome::of(done(format!(in rt.alloc(); "{len} {is_empty} {is_closed}")))
}

/// The definition of each id in hexadecimal, in order.
fn definitions(alloc: Global, types: &LoadedTypes) -> Result<String, AllocError> {
    let mut text = String::new(alloc);
    for id in 0..u32::MAX {
        let Some(definition) = types.definition(id) else {
            break;
        };
        if id > 0 {
            text.push_str(" ")?;
        }
        text.push_str(digits(alloc, definition)?.as_str())?;
    }
    Ok(text)
}

/// Loads what the types with these ids reach: before the colon stand the ids.
fn load(rt: &HostRuntime, row: &str) -> Result<Outcome, Fail> {
    let (ids, bytes) = ids_and_bytes(rt.alloc(), row)?;
    let view = TableView::new(rt.alloc(), &bytes)?;
    answered!(
        rt;
        LoadedTypes::load(rt.alloc(), &view, &ids);
        types => done(definitions(rt.alloc(), &types))
    )
}

/// The id of the type of a value, and those of the types that are loaded: the ones after ` by `, or
/// else the same.
fn ids_of(alloc: Global, ids: &str) -> Result<(u32, Vec<u32>), Fail> {
    let (id, loaded) = ids.split_once(" by ").unwrap_or((ids, ids));
    Ok((id.parse()?, numbers(alloc, loaded)?))
}

/// Decodes the value of a row as one that borrows, by types that are loaded.
fn decode_borrowed_loaded(rt: &HostRuntime, row: &str) -> Result<Outcome, Fail> {
    let alloc = rt.alloc();
    let (ids, table, input) = parts_of(row)?;
    let (id, loaded) = ids_of(alloc, ids)?;
    let (bytes, input) = (bytes_of(alloc, table.trim())?, row_bytes(alloc, input)?);
    let types = Held(LoadedTypes::load(alloc, &TableView::new(alloc, &bytes)?, &loaded)?);
    let (table, _) = PortableRegistry::decode(alloc, &bytes)?;
    let table = Held(table);
    let given = Given { id, input, table };
    let returned = marked!(rt; decode_borrowed(alloc, &types.0, id, &given.input));
    borrowed_outcome(alloc, &given, returned)
}

/// Makes the call of this name on a view, or by what is loaded of one.
pub fn call(rt: &HostRuntime, name: &str, input: &str) -> Result<Outcome, Fail> {
    match name {
        "new" => new(rt, input),
        "decode" => decode(rt, input),
        "try_to_owned" => to_owned(rt, input),
        "resolve" => resolve(rt, input),
        "entry" => entry(rt, input),
        "entries" => entries(rt, input),
        "references" => references(rt, input),
        "number" => number(rt, input),
        "find_by_path" => find_by_path(rt, input),
        "look" => look(rt, input),
        "load" => load(rt, input),
        "decode_borrowed_loaded" => decode_borrowed_loaded(rt, input),
        _ => Err(Fail::new("no call has this name")),
    }
}
