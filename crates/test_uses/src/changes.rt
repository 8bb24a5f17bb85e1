//! Tables that are cut or go on, decoded, viewed, borrowed, pruned, and under each command; and
//! every change of one byte of a table of each kind of definition, under each command.
use crate::asserts::{holds, is};
use crate::runs::{expected, refused, run_over};
use scale_info::view::TableView;
use scale_info::{DecodeError, PortableRegistry, PruneError, prune};
use std::alloc::Global;
use std::process::Abort;
use std::test::Fail;
use test_common::held::Held;
use test_common::rows::{AMONG, BUILT, COMPOSITES, MIXED, Row, TABLES, decoded, row_bytes, rows};

/// The bytes with another byte at this index.
fn changed(alloc: Global, table: &[u8], index: usize, byte: u8) -> Result<Vec<u8>, Fail> {
    let mut copy = Vec::from_slice(alloc, table)?;
    if index < copy.len() {
        copy[index] = byte;
    }
    Ok(copy)
}

/// Asserts that the program does with each change of the byte at an index what decoding does.
fn agrees_at(
    rt: &impl Abort,
    alloc: Global,
    words: &str,
    table: &[u8],
    index: usize,
) -> Result<(), Fail> {
    for byte in 0..=255 {
        let input = changed(alloc, table, index, byte)?;
        let run = run_over(alloc, words, &input)?;
        is(rt, words, run, expected(alloc, words, &input)?);
    }
    Ok(())
}

/// The commands over each change.
const OVER_CHANGES: &str = "\
check
prune 17 1 9
json
";

#[test]
fn each_command_does_with_each_change_what_decoding_does(rt: HostRuntime) -> Result<(), Fail> {
    let table = row_bytes(rt.alloc(), MIXED)?;
    is(&rt, "bytes", table.len(), 312);
    for words in OVER_CHANGES.lines() {
        for index in 0..table.len() {
            agrees_at(&rt, rt.alloc(), words, &table, index)?;
        }
    }
    Ok(())
}

/// The commands, a line for each.
const COMMANDS: &str = "\
check
prune 0
json
";

/// Asserts that each command refuses an input for this reason, as decoding does.
fn is_refused(
    rt: &impl Abort,
    alloc: Global,
    name: &str,
    input: &[u8],
    reason: &str,
) -> Result<(), Fail> {
    let wanted = refused(alloc, reason)?;
    for words in COMMANDS.lines() {
        is(rt, name, &run_over(alloc, words, input)?, &wanted);
        is(rt, name, &expected(alloc, words, input)?, &wanted);
    }
    Ok(())
}

/// The tables that are cut and go on.
const TEXTS: [&str; 4] = [TABLES, AMONG, COMPOSITES, BUILT];

/// Asserts that `prune` refuses an input for this reason, and appends nothing.
fn is_not_pruned(
    rt: &impl Abort,
    alloc: Global,
    name: &str,
    input: &[u8],
    reason: PruneError,
) -> Result<(), Fail> {
    let mut output = Vec::from_slice(alloc, &[0xaa])?;
    match prune(alloc, input, &[0], &mut output) {
        Ok(_) => return Err(Fail::new("the input is pruned")),
        Err(error) => is(rt, name, error, reason),
    }
    is(rt, name, output.as_slice(), &[0xaa]);
    Ok(())
}

/// Asserts that an input was found malformed.
fn is_malformed<T: Drop>(rt: &impl Abort, name: &str, returned: Result<T, DecodeError>) {
    holds(rt, name, matches!(returned, Err(DecodeError::Malformed)));
}

/// Asserts that no prefix of an input is a table.
fn has_no_table(rt: &impl Abort, alloc: Global, name: &str, input: &[u8]) -> Result<(), Fail> {
    is_malformed(rt, name, PortableRegistry::decode(alloc, input));
    is_malformed(rt, name, TableView::decode(alloc, input));
    is_not_pruned(rt, alloc, name, input, PruneError::Malformed)?;
    is_refused(rt, alloc, name, input, "malformed")
}

#[test]
fn proper_prefixes_of_tables_are_refused(rt: HostRuntime) -> Result<(), Fail> {
    for text in TEXTS {
        for row in &rows(rt.alloc(), text)? {
            for end in 0..row.bytes.len() {
                has_no_table(&rt, rt.alloc(), row.name, &row.bytes[..end])?;
            }
        }
    }
    Ok(())
}

#[test]
fn any_byte_after_any_table_is_refused(rt: HostRuntime) -> Result<(), Fail> {
    for row in rows(rt.alloc(), TABLES)? {
        let mut input = row.bytes;
        for last in 0..=255 {
            input.push(last)?;
            is_refused(&rt, rt.alloc(), row.name, &input, "trailing bytes")?;
            let _ = input.pop();
        }
    }
    Ok(())
}

/// Asserts that a table with this byte after it is read with the byte left, and is not pruned.
fn leaves_byte(
    rt: &impl Abort,
    alloc: Global,
    row: &Row,
    table: &PortableRegistry,
    last: u8,
) -> Result<(), Fail> {
    let mut input = Vec::from_slice(alloc, &row.bytes)?;
    input.push(last)?;
    let (found, rest) = PortableRegistry::decode(alloc, &input)?;
    holds(rt, row.name, *table == Held(found).0);
    is(rt, row.name, rest, &[last]);
    let (_, rest) = TableView::decode(alloc, &input)?;
    is(rt, row.name, rest, &[last]);
    is_not_pruned(rt, alloc, row.name, &input, PruneError::Trailing)
}

#[test]
fn any_byte_after_any_table_is_left(rt: HostRuntime) -> Result<(), Fail> {
    for text in TEXTS {
        for row in &rows(rt.alloc(), text)? {
            let table = Held(decoded(rt.alloc(), row)?);
            for last in 0..=255 {
                leaves_byte(&rt, rt.alloc(), row, &table.0, last)?;
            }
        }
    }
    Ok(())
}
