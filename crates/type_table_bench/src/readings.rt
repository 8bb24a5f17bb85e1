//! The inputs of `records` and of `payloads`, read in other ways.
use crate::digest::Digest;
use crate::events::event_table;
use crate::payloads::{self, Ids};
use crate::random::Random;
use crate::scale::push_word;
use anyhow::Result;
use scale_info::PortableRegistry;
use std::alloc::Global;

/// Bytes that begin with a value, the id of its type, and the table.
#[derive(Clone, Copy)]
pub struct Input<'a> {
    pub table: &'a PortableRegistry,
    pub id: u32,
    pub bytes: &'a [u8],
}

/// A way to read values.
pub trait Reading {
    /// Reads a value, and puts it and the length of the rest into the digest.
    fn put(alloc: Global, input: Input<'_>, digest: &mut Digest) -> Result<()>;
}

/// Reads a value.
fn put<R: Reading>(
    alloc: Global,
    table: &PortableRegistry,
    id: u32,
    bytes: &[u8],
    digest: &mut Digest,
) -> Result<()> {
    R::put(alloc, Input { table, id, bytes }, digest)
}

/// Reads the values of `records`, in order.
pub fn read_records<R: Reading>(alloc: Global, seed: u32, rounds: u32) -> Result<Digest> {
    let mut random = Random::new(seed, 1);
    let mut digest = Digest::new();
    let events = event_table(alloc, &mut random)?;
    let (table, _) = PortableRegistry::decode(alloc, &events.table)?;
    for _ in 0..rounds {
        let mut input = Vec::new(alloc);
        let count = 100 + random.below(64);
        events.push_block(&mut input, &mut random, count)?;
        put::<R>(alloc, &table, events.block, &input, &mut digest)?;
        input.clear();
        events.push_accounts(&mut input, &mut random, count)?;
        put::<R>(alloc, &table, events.accounts, &input, &mut digest)?;
    }
    Ok(digest)
}

/// Reads the values of `payloads`, in order.
pub fn read_payloads<R: Reading>(alloc: Global, seed: u32, rounds: u32) -> Result<Digest> {
    let mut random = Random::new(seed, 2);
    let mut digest = Digest::new();
    let (table, ids) = payloads::payload_table(alloc)?;
    let (table, _) = PortableRegistry::decode(alloc, &table)?;
    let mut input = Vec::new(alloc);
    for round in 0..rounds {
        if round % 8 == 7 {
            payloads::push_many(&mut input, &mut random, 1048576)?;
            put::<R>(alloc, &table, ids.bytes, &input, &mut digest)?;
        }
        read_large::<R>(alloc, &table, ids, &mut random, &mut digest)?;
        read_small::<R>(alloc, &table, ids, &mut random, &mut digest)?;
        input.clear();
    }
    Ok(digest)
}

/// Reads calls, and many numbers.
fn read_large<R: Reading>(
    alloc: Global,
    table: &PortableRegistry,
    ids: Ids,
    random: &mut Random,
    digest: &mut Digest,
) -> Result<()> {
    let mut input = Vec::new(alloc);
    payloads::push_calls(&mut input, random)?;
    put::<R>(alloc, table, ids.calls, &input, digest)?;
    input.clear();
    for _ in 0..32768 {
        push_word(&mut input, random.word())?;
    }
    put::<R>(alloc, table, ids.numbers, &input, digest)?;
    input.clear();
    payloads::push_compacts(&mut input, random, 4096)?;
    put::<R>(alloc, table, ids.compacts, &input, digest)
}

/// Reads many small values: of the wide enum, of the deep struct, and maps.
fn read_small<R: Reading>(
    alloc: Global,
    table: &PortableRegistry,
    ids: Ids,
    random: &mut Random,
    digest: &mut Digest,
) -> Result<()> {
    let mut input = Vec::new(alloc);
    payloads::push_wide(&mut input, random, 4096)?;
    put::<R>(alloc, table, ids.wide, &input, digest)?;
    input.clear();
    payloads::push_deep(&mut input, random, 64)?;
    put::<R>(alloc, table, ids.deep, &input, digest)?;
    input.clear();
    payloads::push_maps(&mut input, random, 64)?;
    put::<R>(alloc, table, ids.maps, &input, digest)
}
