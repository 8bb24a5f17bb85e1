//! Tables in a node's metadata, without docs, and compared.
use crate::asserts::{holds, is};
use scale_info::metadata::{Source, bytes_of_text, table_of};
use scale_info::{append_without_docs, same_types};
use std::alloc::Global;
use std::test::Fail;
use test_common::rows::row_bytes;

/// An option of a byte string of metadata of version 16, as text: the table of `bool`, with two
/// lines of docs, and more.
const ANSWER: &str = "\"0x01486d6574611004000000050008046104629901\"\n";

/// The bytes of a text of digits, or none.
fn bytes_of(alloc: Global, text: &str) -> Result<Vec<u8>, Fail> {
    match bytes_of_text(alloc, text.as_bytes())? {
        Some(bytes) => Ok(bytes),
        None => Ok(Vec::new(alloc)),
    }
}

#[test]
fn the_table_of_metadata_is_found(rt: HostRuntime) -> Result<(), Fail> {
    let bytes = bytes_of(rt.alloc(), ANSWER)?;
    let (source, table) = table_of(&bytes)?;
    holds(&rt, "source", source == Source::Metadata(16));
    let wanted = row_bytes(rt.alloc(), "0400000005000804610462")?;
    is(&rt, "table", table, wanted.as_slice());
    Ok(())
}

#[test]
fn docs_are_left_out(rt: HostRuntime) -> Result<(), Fail> {
    let table = row_bytes(rt.alloc(), "0400000005000804610462ff")?;
    let mut out = Vec::new(rt.alloc());
    let rest = append_without_docs(&table, &mut out)?;
    is(&rt, "rest", rest, &[255]);
    is(&rt, "table", out.as_slice(), &[4, 0, 0, 0, 5, 0, 0]);
    Ok(())
}

#[test]
fn types_of_two_tables_are_compared(rt: HostRuntime) -> Result<(), Fail> {
    let alloc = rt.alloc();
    let one = row_bytes(alloc, "08000000020400040000050500")?;
    let other = row_bytes(alloc, "08000000050500040000020000")?;
    holds(&rt, "same", same_types(alloc, &one, &[0], &other, &[1])?);
    holds(
        &rt,
        "in order",
        !same_types(alloc, &one, &[0, 1], &other, &[0, 1])?,
    );
    Ok(())
}
