//! Tables, and bytes that are none, by the names of their rows.
use scale_info::PortableRegistry;
use std::alloc::Global;
use std::test::Fail;
use test_common::chains::chain_to_bool;
use test_common::encodings::into_encoding;
use test_common::rows::{
    AMONG, BUILT, COMPOSITES, MALFORMED, MIXED, PRUNED, TABLES, row_bytes, row_named,
};

/// Tables and one more byte; rows like those of the tests.
const TRAILING: &str = "\
a table and a byte: 04 000000050500 ff
";

/// The texts of rows.
const TEXTS: [&str; 7] = [
    TABLES, AMONG, COMPOSITES, BUILT, PRUNED, MALFORMED, TRAILING,
];

/// Whether a text has the row of this name.
fn has_row(text: &str, name: &str) -> bool {
    text.lines().any(|line| line.split_once(':').is_some_and(|(found, _)| found == name))
}

/// Whether a row of this name has bytes that begin with no table.
pub fn is_malformed(name: &str) -> bool {
    has_row(MALFORMED, name)
}

/// The bytes of the row of this name; "each kind" is a table of each kind of definition, and
/// "chain of 3" one of two sequences and `bool`. Other names are the digits of the bytes.
fn named_bytes(alloc: Global, name: &str) -> Result<Vec<u8>, Fail> {
    if name == "each kind" {
        return row_bytes(alloc, MIXED);
    }
    for text in TEXTS {
        if has_row(text, name) {
            return Ok(row_named(alloc, text, name)?.bytes);
        }
    }
    match name.strip_prefix("chain of ") {
        Some(count) => into_encoding(alloc, chain_to_bool(alloc, count.parse()?)?),
        None => row_bytes(alloc, name),
    }
}

/// The bytes of this name, and after a `+` more bytes in hexadecimal.
pub fn bytes_of(alloc: Global, input: &str) -> Result<Vec<u8>, Fail> {
    let (name, more) = input.split_once('+').unwrap_or((input, ""));
    let more = row_bytes(alloc, more)?;
    let mut bytes = named_bytes(alloc, name.trim())?;
    bytes.extend_from_slice(&more)?;
    Ok(bytes)
}

/// The table of this name.
pub fn table_of(alloc: Global, name: &str) -> Result<PortableRegistry, Fail> {
    let bytes = bytes_of(alloc, name)?;
    let (table, _) = PortableRegistry::decode(alloc, &bytes)?;
    Ok(table)
}

/// A list of one byte, to which a call may append.
pub fn output(alloc: Global) -> Result<Vec<u8>, Fail> {
    Ok(vec![in alloc; 0xaa]?)
}
