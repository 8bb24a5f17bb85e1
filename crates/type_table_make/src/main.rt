//! The program `type_table_make`: writes the bytes of a table that it makes, to try programs on.
//!
//! `SHAPE COUNT SEED [CHANGED]` writes a table of a shape with so many types. A seed always gives
//! the same bytes. Where `CHANGED` is given, so many of the last types differ from those of the
//! table without it. An entry is made, encoded and dropped before the next, so a table of any
//! length takes little memory.
#![tactic(auto)]

mod random;
mod runtime;
mod shape;
mod texts;

use crate::shape::{Making, Shape};
use anyhow::{Result, bail};
use scale_info::Scale;
use scale_info::impls::Compact;
use std::alloc::Global;
use std::env;
use std::io::Write;

/// How many bytes are gathered before they are written.
const PIECE: usize = 65536;

/// Writes the table: how many entries there are, and each entry with its index as id.
fn write_table<W: Write>(alloc: Global, making: &Making, output: &mut W) -> Result<()> {
    let mut bytes = Vec::with_capacity(alloc, PIECE)?;
    Compact(making.len()).encode_to(&mut bytes)?;
    for id in 0..making.len() {
        making.entry(alloc, id)?.encode_to(&mut bytes)?;
        if bytes.len() >= PIECE {
            output.write_all(&bytes)?;
            bytes.clear();
        }
    }
    output.write_all(&bytes)?;
    output.flush()?;
    Ok(())
}

fn main(rt: HostRuntime) -> Result<()> {
    let mut words = env::args(&rt)?.skip(1);
    let (Some(shape), Some(count), Some(seed)) = (words.next(), words.next(), words.next()) else {
        bail!("the words are a shape, how many types, a seed, and how many of these are changed");
    };
    let Some(shape) = Shape::by_name(shape.as_str()) else {
        bail!("the shapes are runtime, up, down, structs, wide and escapes");
    };
    let changed = match words.next() {
        Some(changed) => changed.parse::<u32>()?,
        None => 0,
    };
    let making = Making {
        shape,
        count: count.parse::<u32>()?,
        seed: seed.parse::<u32>()?,
        changed,
    };
    write_table(rt.alloc(), &making, &mut rt.stdout())
}
