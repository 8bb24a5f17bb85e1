//! Every input of up to three bytes, at small types: each is decoded, and a value is encoded to the
//! very bytes that it was decoded from.
//!
//! Of each length it prints how many inputs are a value, how many begin with a value and have bytes
//! after it, and how many are malformed. `stdout` has the numbers as the format gives them: see
//! `docs/TESTING.md`.
#![tactic(auto)]

use anyhow::{Result, bail};
use scale_info_table::portable::PortableRegistry;
use scale_info_value::value::{Value, ValueError, decode_value};
use scale_info_value_encode::encode::encode_value;
use std::alloc::Global;

/// Types: a name, the id, and the table in hexadecimal.
const TYPES: [(&str, u32, &str); 4] = [
    (
        "enum Small { A, B(bool), C { x: u8, y: bool } }",
        2,
        "0c000000050000040000050300080414536d616c6c00010c0441000000044204000000\
         000100044308010478040000010479000000020000",
    ),
    (
        "Option<(u8, bool)>",
        2,
        "100000000503000400000500000804184f7074696f6e040454010c0108104e6f6e6500\
         000010536f6d6504000c00000100000c00000408000400",
    ),
    (
        "Option<(u32, bool)>",
        2,
        "100000000505000400000500000804184f7074696f6e040454010c0108104e6f6e6500\
         000010536f6d6504000c00000100000c00000408000400",
    ),
    ("Compact<u32>", 0, "08000000060400040000050500"),
];

/// Lengths, and how many inputs of that length there are.
const LENGTHS: [(usize, u32); 4] = [(0, 1), (1, 256), (2, 65536), (3, 16777216)];

/// What an input is.
enum Kind {
    /// A value, with nothing after it.
    Value,
    /// A value, with bytes after it.
    Longer,
    /// No value.
    Malformed,
}

/// How many inputs are of each kind.
#[derive(Clone, Copy)]
struct Counts {
    values: u32,
    longer: u32,
    malformed: u32,
}

/// Whether a value and the rest are encoded as the input.
fn is_encoded(
    alloc: Global,
    table: &PortableRegistry,
    id: u32,
    value: &Value,
    rest: &[u8],
    input: &[u8],
) -> Result<bool> {
    let mut bytes = Vec::new(alloc);
    encode_value(table, id, value, &mut bytes)?;
    bytes.extend_from_slice(rest)?;
    Ok(bytes.as_slice() == input)
}

/// What an input is.
fn kind_of(alloc: Global, table: &PortableRegistry, id: u32, input: &[u8]) -> Result<Kind> {
    match decode_value(alloc, table, id, input) {
        Ok((value, rest)) => {
            if !is_encoded(alloc, table, id, &value, rest, input)? {
                bail!("a value has another encoding");
            }
            Ok(if rest.is_empty() {
                Kind::Value
            } else {
                Kind::Longer
            })
        }
        Err(ValueError::Malformed) => Ok(Kind::Malformed),
        Err(error) => Err(error.into()),
    }
}

/// The counts with one more input of this kind.
fn with(counts: Counts, kind: Kind) -> Counts {
    let Counts {
        values,
        longer,
        malformed,
    } = counts;
    match kind {
        Kind::Value => Counts {
            values: values.saturating_add(1),
            ..counts
        },
        Kind::Longer => Counts {
            longer: longer.saturating_add(1),
            ..counts
        },
        Kind::Malformed => Counts {
            malformed: malformed.saturating_add(1),
            ..counts
        },
    }
}

/// The counts of the inputs of a length: the first so many numbers, the lowest byte first.
fn count_all(
    alloc: Global,
    table: &PortableRegistry,
    id: u32,
    len: usize,
    inputs: u32,
) -> Result<Counts> {
    let mut counts = Counts {
        values: 0,
        longer: 0,
        malformed: 0,
    };
    for number in 0..inputs {
        let bytes = number.to_le_bytes();
        let Some(input) = bytes.get(..len) else {
            bail!("an input is at most four bytes long");
        };
        counts = with(counts, kind_of(alloc, table, id, input)?);
    }
    Ok(counts)
}

/// Prints the counts of each length.
fn print_counts(rt: &HostRuntime, id: u32, digits: &str) -> Result<()> {
    let alloc = rt.alloc();
    let (table, _) = PortableRegistry::decode(alloc, &hex::decode(alloc, digits)?)?;
    for (len, inputs) in LENGTHS {
        let Counts {
            values,
            longer,
            malformed,
        } = count_all(alloc, &table, id, len, inputs)?;
        println!(rt; "{len} bytes: {values} values, {longer} longer, {malformed} malformed")?;
    }
    Ok(())
}

fn main(rt: HostRuntime) -> Result<()> {
    for (name, id, digits) in TYPES {
        println!(&rt; "{name}")?;
        print_counts(&rt, id, digits)?;
    }
    Ok(())
}
