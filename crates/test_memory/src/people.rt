//! Types for people: their declarations and names, the types of a path, and graphs.
use scale_info::PortableRegistry;
use scale_info::describe::{append_description, describe, find_by_path, find_containing, name_of};
use scale_info::graph::append_graph;
use std::alloc::Global;
use std::test::Fail;
use test_common::held::Held;
use test_common::rows::{numbers, parted};
use test_memory_common::answers::shown;
use test_memory_common::inputs::table_of;
use test_memory_common::marked;
use test_memory_common::outcomes::Outcome;

/// The words before the semicolon of a row, and the table after it.
fn read(alloc: Global, row: &str) -> Result<(&str, Held<PortableRegistry>), Fail> {
    let (words, table) = parted(row, ';')?;
    Ok((words, Held(table_of(alloc, table.trim())?)))
}

/// Writes a type.
fn describe_type(rt: &HostRuntime, row: &str) -> Result<Outcome, Fail> {
    let (id, table) = read(rt.alloc(), row)?;
    let id: u32 = id.parse()?;
    let returned = marked!(rt; describe(rt.alloc(), &table.0, id));
    Outcome::of(shown(rt.alloc(), returned))
}

/// Writes the name of a type.
fn name_type(rt: &HostRuntime, row: &str) -> Result<Outcome, Fail> {
    let (id, table) = read(rt.alloc(), row)?;
    let id: u32 = id.parse()?;
    let returned = marked!(rt; name_of(rt.alloc(), &table.0, id));
    Outcome::of(shown(rt.alloc(), returned))
}

/// Appends a type to a text.
fn append_type(rt: &HostRuntime, row: &str) -> Result<Outcome, Fail> {
    let (id, table) = read(rt.alloc(), row)?;
    let id: u32 = id.parse()?;
    let mut out = String::from_str(rt.alloc(), "// ")?;
    let before = format!(in rt.alloc(); "{out:?}");
    let returned = marked!(rt; append_description(rt.alloc(), &table.0, id, &mut out));
    let after = format!(in rt.alloc(); "{out:?}");
    Outcome::lending(before, after, shown(rt.alloc(), returned))
}

/// Finds types by a path, or by a part of one.
fn find(rt: &HostRuntime, name: &str, row: &str) -> Result<Outcome, Fail> {
    let (path, table) = read(rt.alloc(), row)?;
    let returned = match name {
        "find_by_path" => marked!(rt; find_by_path(rt.alloc(), &table.0, path)),
        _ => marked!(rt; find_containing(rt.alloc(), &table.0, path)),
    };
    Outcome::of(shown(rt.alloc(), returned))
}

/// Appends the graph of what ids reach to a text: before the semicolon stand the ids.
fn draw(rt: &HostRuntime, row: &str) -> Result<Outcome, Fail> {
    let (ids, table) = read(rt.alloc(), row)?;
    let ids = numbers(rt.alloc(), ids)?;
    let mut out = String::from_str(rt.alloc(), "// ")?;
    let before = format!(in rt.alloc(); "{out:?}");
    let returned = marked!(rt; append_graph(rt.alloc(), &table.0, &ids, &mut out));
    let after = format!(in rt.alloc(); "{out:?}");
    Outcome::lending(before, after, shown(rt.alloc(), returned))
}

/// Makes the call of this name, which writes or finds types.
pub fn call(rt: &HostRuntime, name: &str, input: &str) -> Result<Outcome, Fail> {
    match name {
        "describe" => describe_type(rt, input),
        "append_description" => append_type(rt, input),
        "name_of" => name_type(rt, input),
        "find_by_path" | "find_containing" => find(rt, name, input),
        "append_graph" => draw(rt, input),
        _ => Err(Fail::new("no call has this name")),
    }
}
