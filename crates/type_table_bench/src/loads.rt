//! Tables of which values of three types are read: by a view, and by the whole table.
use crate::digest::Digest;
use crate::random::Random;
use crate::runtime::runtime_table;
use anyhow::{Result, bail};
use scale_info::PortableRegistry;
use scale_info::loaded::LoadedTypes;
use scale_info::value::{Definitions, decode_value};
use scale_info::view::TableView;
use std::alloc::Global;

/// How many types a table has.
const TYPES: u32 = 1000;

/// How many values are read by each table.
const VALUES: usize = 20;

/// How many bytes values are read from.
const BYTES: u32 = 4096;

/// The types whose values are read, and the bytes that they are read from.
#[derive(Drop)]
pub struct Chosen {
    ids: [u32; 3],
    input: Vec<u8>,
}

/// A way to load a table.
pub trait Loading {
    /// Loads a table, and puts in the values that are read by it.
    fn put(alloc: Global, bytes: &[u8], chosen: &Chosen, digest: &mut Digest) -> Result<()>;
}

/// Loads a view, and of it the types whose values are read.
pub struct ByView;

/// Loads the whole table.
pub struct ByTable;

impl Loading for ByView {
    fn put(alloc: Global, bytes: &[u8], chosen: &Chosen, digest: &mut Digest) -> Result<()> {
        let view = TableView::new(alloc, bytes)?;
        let types = LoadedTypes::load(alloc, &view, &chosen.ids)?;
        put_values(alloc, &types, chosen, digest)
    }
}

impl Loading for ByTable {
    fn put(alloc: Global, bytes: &[u8], chosen: &Chosen, digest: &mut Digest) -> Result<()> {
        let (table, _) = PortableRegistry::decode(alloc, bytes)?;
        put_values(alloc, &table, chosen, digest)
    }
}

/// Puts in values of the types in turn, each read from another byte on.
fn put_values<T: Definitions>(
    alloc: Global,
    types: &T,
    chosen: &Chosen,
    digest: &mut Digest,
) -> Result<()> {
    let [first, second, third] = chosen.ids;
    let mut input = chosen.input.as_slice();
    for place in 0..VALUES {
        let [_, more @ ..] = input else {
            bail!("too few bytes");
        };
        let id = match place % 3 {
            0 => first,
            1 => second,
            _ => third,
        };
        let (value, rest) = decode_value(alloc, types, id, input)?;
        digest.put_value(&value);
        digest.put(rest.len() as u64);
        input = more;
    }
    Ok(())
}

/// Whether values of a type are read from each of the first bytes on.
fn is_read(alloc: Global, table: &PortableRegistry, id: u32, input: &[u8]) -> bool {
    let mut input = input;
    for _ in 0..VALUES {
        let [_, more @ ..] = input else {
            return false;
        };
        if decode_value(alloc, table, id, input).is_err() {
            return false;
        }
        input = more;
    }
    true
}

/// The last three types whose values can be read, and bytes of 0 and 1.
fn choose(alloc: Global, table: &PortableRegistry, random: &mut Random) -> Result<Chosen> {
    let mut input = Vec::new(alloc);
    for _ in 0..BYTES {
        input.push(random.below(2) as u8)?;
    }
    let mut found = Vec::new(alloc);
    for id in (0..TYPES).rev() {
        if found.len() < 3 && is_read(alloc, table, id, &input) {
            found.push(id)?;
        }
    }
    let [first, second, third] = found.as_slice() else {
        bail!("no values can be read");
    };
    Ok(Chosen {
        ids: [*first, *second, *third],
        input,
    })
}

/// Loads a table in each of so many rounds.
pub fn run<L: Loading>(alloc: Global, seed: u32, rounds: u32) -> Result<Digest> {
    let mut digest = Digest::new();
    let mut random = Random::new(seed, 14);
    let mut documented = runtime_table(alloc, Random::new(seed, 15), TYPES)?;
    let (table, _) = PortableRegistry::decode(alloc, &documented.bytes)?;
    let chosen = choose(alloc, &table, &mut random)?;
    for _ in 0..rounds {
        documented.change(&mut random, 256, false);
        L::put(alloc, &documented.bytes, &chosen, &mut digest)?;
    }
    Ok(digest)
}
