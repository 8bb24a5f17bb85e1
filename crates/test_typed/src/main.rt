//! Values of a program's own types, decoded by tables and encoded again.
//!
//! Each row is a type of the program, a type of a table and an input. The program prints whether
//! the value that is decoded is encoded as the input again, or the error.
#![tactic(auto)]

use anyhow::{Result, bail};
use scale_info_table::portable::PortableRegistry;
use scale_info_value_typed::decode::{DecodeAs, decode_as};
use scale_info_value_typed::encode::{EncodeAs, encode_as};
use std::alloc::Global;

/// A table of an option of a pair of `u8` and `bool`, at id 2.
const OPTION: &str = "100000000503000400000500000804184f7074696f6e040454010c0108104e6f6e6500\
                      000010536f6d6504000c00000100000c00000408000400";

/// A table of a compact `u32`, at id 0.
const COMPACT: &str = "08000000060400040000050500";

/// A table of a sequence of `u32`, at id 0.
const LIST: &str = "08000000020400040000050500";

/// A table of a map from `u8` to `bool`, at id 0.
const MAP: &str = "0c00000008040800040000050300080000050000";

/// A table of `i16`, at id 0.
const SIGNED: &str = "04000000050a00";

/// A table of a text, at id 0.
const TEXT: &str = "04000000050200";

/// Rows: a type of the program, a table, an id and an input.
const ROWS: [(&str, &str, u32, &str); 19] = [
    ("Option<(u8, bool)>", OPTION, 2, "00"),
    ("Option<(u8, bool)>", OPTION, 2, "010501"),
    ("Option<(u8, bool)>", OPTION, 2, "010502"),
    ("Option<(u64, bool)>", OPTION, 2, "01ff00"),
    ("(u64, bool)", OPTION, 2, "010501"),
    ("(u64, bool)", OPTION, 3, "0501"),
    ("u64", COMPACT, 0, "0300000040"),
    ("u16", COMPACT, 0, "fd03"),
    ("u16", COMPACT, 0, "0300000040"),
    ("u16", COMPACT, 2, "00"),
    ("Vec<u16>", LIST, 0, "080100000002000000"),
    ("Vec<u16>", LIST, 0, "080100000000000100"),
    ("[u64; 2]", LIST, 0, "080100000002000000"),
    ("[u64; 2]", LIST, 0, "0401000000"),
    ("Vec<(u16, bool)>", MAP, 0, "0801000201"),
    ("i32", SIGNED, 0, "feff"),
    ("u16", SIGNED, 0, "feff"),
    ("String", TEXT, 0, "086869"),
    ("String", LIST, 0, "00"),
];

/// Whether the value that is decoded is encoded as the input.
fn is_back<T: DecodeAs + EncodeAs>(
    alloc: Global,
    table: &PortableRegistry,
    id: u32,
    input: &[u8],
) -> Result<bool> {
    let (value, rest) = decode_as::<T, _>(alloc, table, id, input)?;
    let mut bytes = Vec::new(alloc);
    encode_as(alloc, table, id, &value, &mut bytes)?;
    bytes.extend_from_slice(rest)?;
    Ok(bytes.as_slice() == input)
}

/// The same for the type with this name.
fn is_back_by_name(
    alloc: Global,
    name: &str,
    table: &PortableRegistry,
    id: u32,
    input: &[u8],
) -> Result<bool> {
    match name {
        "u16" => is_back::<u16>(alloc, table, id, input),
        "u64" => is_back::<u64>(alloc, table, id, input),
        "i32" => is_back::<i32>(alloc, table, id, input),
        "String" => is_back::<String>(alloc, table, id, input),
        "Vec<u16>" => is_back::<Vec<u16>>(alloc, table, id, input),
        "[u64; 2]" => is_back::<[u64; 2]>(alloc, table, id, input),
        "(u64, bool)" => is_back::<(u64, bool)>(alloc, table, id, input),
        "Vec<(u16, bool)>" => is_back::<Vec<(u16, bool)>>(alloc, table, id, input),
        "Option<(u8, bool)>" => is_back::<Option<(u8, bool)>>(alloc, table, id, input),
        "Option<(u64, bool)>" => is_back::<Option<(u64, bool)>>(alloc, table, id, input),
        _ => bail!("there is no type of this name"),
    }
}

/// Prints a row and its outcome.
fn print_row(rt: &HostRuntime, name: &str, table: &str, id: u32, digits: &str) -> Result<()> {
    let alloc = rt.alloc();
    let (table, _) = PortableRegistry::decode(alloc, &hex::decode(alloc, table)?)?;
    let input = hex::decode(alloc, digits)?;
    match is_back_by_name(alloc, name, &table, id, &input) {
        Ok(true) => println!(rt; "{name} {digits}: the same")?,
        Ok(false) => println!(rt; "{name} {digits}: other bytes")?,
        Err(error) => println!(rt; "{name} {digits}: {error}")?,
    }
    Ok(())
}

fn main(rt: HostRuntime) -> Result<()> {
    for (name, table, id, digits) in ROWS {
        print_row(&rt, name, table, id, digits)?;
    }
    Ok(())
}
