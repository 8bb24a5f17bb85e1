//! Calls that take stack by the depth of what they are given, each on an input as deep as wanted.
//!
//! `WHAT CALL LEVELS` makes values, identities or a table of so many levels, makes the call, and
//! prints how deep the outcome is, how many bytes were read or written, or how many types were
//! numbered. `checks/stack/run` runs it under bounds on the stack. What is given to a call is made
//! without recursion, and is not dropped after `compare`, `copy` and `encode`.
#![tactic(auto)]

mod identities;
mod levels;
mod reads;

use crate::levels::{depth, nested, table_bytes, value_bytes};
use anyhow::{Result, bail};
use scale_info_table::portable::PortableRegistry;
use scale_info_value::value::decode_value;
use scale_info_value_encode::encode::encode_value;
use scale_info_walk::walk::number_recursive;
use std::alloc::Global;
use std::env;
use std::mem::forget;

/// The depth of a value that is decoded.
fn decode(alloc: Global, kinds: &str, levels: u32) -> Result<usize> {
    let table = table_bytes(alloc, kinds, levels)?;
    let (table, _) = PortableRegistry::decode(alloc, &table)?;
    let input = value_bytes(alloc, kinds, levels)?;
    let (value, _) = decode_value(alloc, &table, levels, &input)?;
    Ok(depth(&value, levels))
}

/// The depth of a value, which is then dropped.
fn drop_value(alloc: Global, kinds: &str, levels: u32) -> Result<usize> {
    let value = nested(alloc, kinds, levels)?;
    Ok(depth(&value, levels))
}

/// The depth of a value that equals another, or 0.
fn compare(alloc: Global, kinds: &str, levels: u32) -> Result<usize> {
    let other = nested(alloc, kinds, levels)?;
    let value = nested(alloc, kinds, levels)?;
    let found = if value == other {
        depth(&value, levels)
    } else {
        0
    };
    forget(other);
    forget(value);
    Ok(found)
}

/// How many bytes a value takes that is encoded.
fn encode(alloc: Global, kinds: &str, levels: u32) -> Result<usize> {
    let table = table_bytes(alloc, kinds, levels)?;
    let (table, _) = PortableRegistry::decode(alloc, &table)?;
    let value = nested(alloc, kinds, levels)?;
    let mut bytes = Vec::new(alloc);
    encode_value(&table, levels, &value, &mut bytes)?;
    forget(value);
    Ok(bytes.len())
}

/// How many types the outermost one reaches.
fn number(alloc: Global, kinds: &str, levels: u32) -> Result<usize> {
    let table = table_bytes(alloc, kinds, levels)?;
    let (table, _) = PortableRegistry::decode(alloc, &table)?;
    let numbering = number_recursive(alloc, table.types(), &[levels])?;
    Ok(numbering.order.len())
}

/// Makes the call that the words name.
fn call(alloc: Global, what: &str, call: &str, levels: u32) -> Result<usize> {
    match (what, call) {
        ("identities", _) => identities::call(alloc, call, levels),
        (kinds, "decode") => decode(alloc, kinds, levels),
        (kinds, "drop") => drop_value(alloc, kinds, levels),
        (kinds, "compare") => compare(alloc, kinds, levels),
        (kinds, "encode") => encode(alloc, kinds, levels),
        (kinds, "number") => number(alloc, kinds, levels),
        (kinds, call) => reads::call(alloc, kinds, call, levels),
    }
}

fn main(rt: HostRuntime) -> Result<()> {
    let mut words = env::args(&rt)?.skip(1);
    let (Some(what), Some(name), Some(levels)) = (words.next(), words.next(), words.next()) else {
        bail!("the words are what is made, a call and a number of levels");
    };
    let levels = levels.parse::<u32>()?;
    let answer = call(rt.alloc(), what.as_str(), name.as_str(), levels)?;
    println!(rt; "{what} {name} {levels}: {answer}")?;
    Ok(())
}
