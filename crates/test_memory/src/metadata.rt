//! Tables of metadata, the bytes that texts write, and tables without docs.
use scale_info::append_without_docs;
use scale_info::metadata::{bytes_of_text, table_of};
use std::test::Fail;
use test_memory_common::answers::shown;
use test_memory_common::inputs::bytes_of;
use test_memory_common::outcomes::Outcome;
use test_memory_common::{appended, marked};

/// The bytes that a text writes.
fn read_digits(rt: &HostRuntime, row: &str) -> Result<Outcome, Fail> {
    let returned = marked!(rt; bytes_of_text(rt.alloc(), row.as_bytes()));
    Outcome::of(shown(rt.alloc(), returned))
}

/// Finds the table of metadata.
fn find_table(rt: &HostRuntime, row: &str) -> Result<Outcome, Fail> {
    let input = bytes_of(rt.alloc(), row)?;
    let returned = marked!(rt; table_of(&input));
    Outcome::of(shown(rt.alloc(), returned))
}

/// Appends a table without docs to one byte.
fn strip(rt: &HostRuntime, row: &str) -> Result<Outcome, Fail> {
    let input = bytes_of(rt.alloc(), row)?;
    appended!(rt; out => append_without_docs(&input, &mut out))
}

/// Makes the call of this name on metadata, or on a table with docs.
pub fn call(rt: &HostRuntime, name: &str, input: &str) -> Result<Outcome, Fail> {
    match name {
        "bytes_of_text" => read_digits(rt, input),
        "table_of" => find_table(rt, input),
        "append_without_docs" => strip(rt, input),
        _ => Err(Fail::new("no call has this name")),
    }
}
