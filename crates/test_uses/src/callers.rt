//! Programs of `docs/CALLING.md` that write and read tables, and that convert their values.
use crate::asserts::is;
use example_callers::call::{Call, PortableCall};
use example_callers::point::write_point;
use example_callers::register::{table_in_two_steps, write_numbers};
use scale_info::describe::describe;
use scale_info::impls::meta_type;
use scale_info::meta_type::{Catalogue, CatalogueError, HasIdentity};
use scale_info::{PortableRegistry, Registry, tuple_meta_type};
use std::alloc::{AllocError, Global};
use std::test::Fail;
use test_common::encodings::encoding;
use test_common::lists::{list_of, with};
use test_common::rows::{TABLES, row_named};

/// Adds `u32` and `Vec<u32>`.
fn add_list(known: &mut Catalogue) -> Result<bool, CatalogueError> {
    known.add::<u32>()?;
    known.add::<Vec<u32>>()
}

#[test]
fn the_written_table_is_declared(rt: HostRuntime) -> Result<(), Fail> {
    let mut bytes = Vec::new(rt.alloc());
    write_point(rt.alloc(), &mut bytes)?;
    let (table, _) = PortableRegistry::decode(rt.alloc(), &bytes)?;
    let Some(declared) = describe(rt.alloc(), &table, 2)? else {
        return Err(Fail::new("there is no entry 2"));
    };
    let wanted = "struct Point {\n    x: u32,\n    tags: Vec<u32>,\n}";
    is(&rt, "the point", declared.as_str(), wanted);
    Ok(())
}

#[test]
fn numbers_are_written(rt: HostRuntime) -> Result<(), Fail> {
    let alloc = rt.alloc();
    let row = row_named(alloc, TABLES, "Vec<u32>")?;
    let mut written = Vec::new(alloc);
    write_numbers(alloc, &mut written)?;
    is(&rt, row.name, written.as_slice(), row.bytes.as_slice());
    Ok(())
}

/// `u32`, and a sequence of it.
const TWO_STEPS: [u8; 13] = [8, 0, 0, 0, 5, 5, 0, 4, 0, 0, 2, 0, 0];

/// The table of `u32`, which is registered first, and of a list of it.
fn in_two_steps(alloc: Global, known: &mut Catalogue) -> Result<PortableRegistry, Fail> {
    let first = tuple_meta_type!(alloc; u32)?;
    let second = tuple_meta_type!(alloc; Vec<u32>)?;
    Ok(table_in_two_steps::<Vec<u32>>(alloc, known, first, second)?)
}

#[test]
fn a_table_grows_with_its_catalogue(rt: HostRuntime) -> Result<(), Fail> {
    let alloc = rt.alloc();
    let mut known = Catalogue::new(alloc);
    known.add::<u32>()?;
    let bytes = encoding(alloc, &in_two_steps(alloc, &mut known)?)?;
    is(&rt, "len", known.len(), 2);
    is(&rt, "bytes", bytes.as_slice(), TWO_STEPS.as_slice());
    Ok(())
}

/// A call with an argument of this type.
fn call<T: HasIdentity>(alloc: Global, name: &'static str) -> Result<Call, AllocError> {
    let arg = meta_type::<T>(alloc)?;
    Ok(Call { name, arg })
}

/// A call with a list of numbers and a call with a number, as they leave.
fn portable_calls(alloc: Global, registry: &mut Registry) -> Result<Vec<PortableCall>, Fail> {
    let mut known = Catalogue::new(alloc);
    add_list(&mut known)?;
    let first = list_of(alloc, call::<Vec<u32>>(alloc, "a")?);
    let calls = with(first, call::<u32>(alloc, "b"))?;
    Ok(registry.map_into_portable(calls, &known)?)
}

/// The names of calls, each with the id of its argument's type.
fn names(alloc: Global, calls: &[PortableCall]) -> Result<String, AllocError> {
    let mut text = String::new(alloc);
    for call in calls {
        let id = call.arg.id();
        text.push_str(format!(in alloc; "{} {id} ", call.name)?.as_str())?;
    }
    Ok(text)
}

#[test]
fn calls_leave_with_their_types(rt: HostRuntime) -> Result<(), Fail> {
    let alloc = rt.alloc();
    let row = row_named(alloc, TABLES, "Vec<u32>")?;
    let mut registry = Registry::new(alloc);
    let calls = names(alloc, &portable_calls(alloc, &mut registry)?)?;
    is(&rt, "the calls", calls.as_str(), "a 0 b 1 ");
    let bytes = encoding(alloc, &PortableRegistry::from_registry(alloc, &registry)?)?;
    is(&rt, row.name, bytes.as_slice(), row.bytes.as_slice());
    Ok(())
}
