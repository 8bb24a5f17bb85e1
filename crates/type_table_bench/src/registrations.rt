//! Types of the program that are registered and exported.
use crate::digest::Digest;
use crate::pool::{Pool, make_pool};
use crate::random::Random;
use anyhow::Result;
use scale_info::export::export;
use scale_info::{MetaType, PortableRegistry, Registry, TryClone};
use std::alloc::{AllocError, Global};

/// Does so many rounds: each fills a catalogue, registers some of its types in another order,
/// writes their table, and exports some of them.
pub fn run(alloc: Global, seed: u32, rounds: u32) -> Result<Digest> {
    let mut digest = Digest::new();
    let mut random = Random::new(seed, 9);
    for round in 0..rounds {
        let pool = make_pool(alloc, Random::new(seed, 10 + round % 65536))?;
        digest.put(pool.types.len() as u64);
        put_registered(alloc, &pool, &mut random, &mut digest)?;
        put_exported(alloc, &pool, &mut random, &mut digest)?;
    }
    Ok(digest)
}

/// So many types of the pool, some of them twice.
fn chosen(
    alloc: Global,
    pool: &Pool,
    random: &mut Random,
    count: u32,
) -> Result<Vec<MetaType>, AllocError> {
    let mut types = Vec::new(alloc);
    let last = (pool.types.len() & 0xffff_ffff) as u32;
    for _ in 0..count {
        if let Some(ty) = pool.types.get(random.below(last) as usize) {
            types.push(ty.try_clone(alloc)?)?;
        }
    }
    Ok(types)
}

/// Registers types, and writes their table.
fn put_registered(
    alloc: Global,
    pool: &Pool,
    random: &mut Random,
    digest: &mut Digest,
) -> Result<()> {
    let count = 200 + random.below(1000);
    let types = chosen(alloc, pool, random, count)?;
    let mut registry = Registry::new(alloc);
    for symbol in registry.register_types(types, &pool.catalogue)? {
        digest.put(symbol.id as u64);
    }
    let mut out = Vec::new(alloc);
    PortableRegistry::from_registry(alloc, &registry)?.encode(&mut out)?;
    digest.put_bytes(&out);
    Ok(())
}

/// Exports some types of those that are chosen.
fn put_exported(
    alloc: Global,
    pool: &Pool,
    random: &mut Random,
    digest: &mut Digest,
) -> Result<()> {
    let count = 100 + random.below(400);
    let types = chosen(alloc, pool, random, count)?;
    let many = 1 + random.below(20);
    let mut out = Vec::new(alloc);
    let exported = export(
        alloc,
        &pool.catalogue,
        &types,
        move |id| id % many.max(1) == 0,
        &mut out,
    )?;
    digest.put_bytes(&out);
    for (old, new) in exported.map.iter() {
        digest.put((*old as u64) << 32 ^ *new as u64);
    }
    digest.put(exported.ids.len() as u64);
    Ok(())
}
