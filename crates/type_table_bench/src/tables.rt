//! Tables that are decoded, asked, copied, pruned, numbered and written, and put together.
use crate::digest::Digest;
use crate::random::Random;
use crate::runtime::runtime_table;
use crate::table_bytes::TableBytes;
use anyhow::Result;
use scale_info::form::PortableForm;
use scale_info::walk::number;
use scale_info::{PortableRegistry, PortableRegistryBuilder, PortableType, TryClone, Type};
use std::alloc::{AllocError, Global};

/// How many types a table has.
const TYPES: u32 = 1000;

/// Does so many rounds: in each, the jobs on a table like a runtime's, and on one of another kind.
pub fn run(alloc: Global, seed: u32, rounds: u32) -> Result<Digest> {
    let mut digest = Digest::new();
    let mut random = Random::new(seed, 3);
    let mut documented = runtime_table(alloc, Random::new(seed, 4), TYPES)?;
    for round in 0..rounds {
        documented.change(&mut random, 256, false);
        put_table(alloc, &documented.bytes, &mut random, &mut digest)?;
        put_built(alloc, &documented.bytes, &mut random, &mut digest)?;
        let other = other_table(alloc, &mut random, round)?;
        put_table(alloc, &other, &mut random, &mut digest)?;
    }
    Ok(digest)
}

/// The bytes of a chain upwards, of a chain downwards, or of a struct of many fields.
fn other_table(alloc: Global, random: &mut Random, round: u32) -> Result<Vec<u8>, AllocError> {
    let most = if round % 16 == 5 { 60000 } else { 1000 };
    let count = most + random.below(1000);
    let mut table = TableBytes::new(alloc);
    match round % 3 {
        0 => {
            for id in 0..count {
                table.sequence(id + 1)?;
            }
            table.primitive(3)?;
        }
        1 => {
            table.primitive(3)?;
            for id in 0..count {
                table.sequence(id)?;
            }
        }
        _ => {
            table.primitive(3)?;
            table.begin(&["example_runtime", "Wide"], 0)?;
            write_fields(&mut table, count)?;
            table.end()?;
        }
    }
    table.finish(alloc)
}

/// Writes so many fields of the first type.
fn write_fields(table: &mut TableBytes, count: u32) -> Result<(), AllocError> {
    crate::scale::push_compact(table.entries(), count)?;
    for _ in 0..count {
        table.field("value", 0, "u8")?;
    }
    Ok(())
}

/// Decodes a table, asks it, copies it, and compares, numbers and prunes the copy. Both are
/// written.
fn put_table(alloc: Global, bytes: &[u8], random: &mut Random, digest: &mut Digest) -> Result<()> {
    let (table, rest) = PortableRegistry::decode(alloc, bytes)?;
    digest.put(rest.len() as u64);
    digest.put(table.len() as u64);
    digest.put(if table.is_closed() { 1 } else { 2 });
    put_resolved(&table, random, digest);
    put_written(alloc, &table, digest)?;
    let copy = table.try_clone(alloc)?;
    digest.put(if copy == table { 1 } else { 2 });
    put_pruned(alloc, copy, random, digest)
}

/// Looks many descriptions up.
fn put_resolved(table: &PortableRegistry, random: &mut Random, digest: &mut Digest) {
    for _ in 0..1000 {
        if let Some(ty) = table.resolve(random.below(TYPES)) {
            digest.put(ty.path.segments.len() as u64);
            digest.put(ty.docs.len() as u64);
        }
    }
}

/// Encodes a table.
fn put_written(alloc: Global, table: &PortableRegistry, digest: &mut Digest) -> Result<()> {
    let mut out = Vec::new(alloc);
    table.encode(&mut out)?;
    digest.put_bytes(&out);
    Ok(())
}

/// Numbers what some types reach, prunes the table to them, and writes it. In one table of four
/// all types are kept.
fn put_pruned(
    alloc: Global,
    mut table: PortableRegistry,
    random: &mut Random,
    digest: &mut Digest,
) -> Result<()> {
    let count = (table.len() & 0xffff_ffff) as u32;
    let many = if random.is_one_in(4) {
        1
    } else {
        4 + random.below(100)
    };
    let first = random.below(many);
    put_numbered(alloc, &table, first, many, digest)?;
    let new_ids = table.retain(alloc, move |id| id % many.max(1) == first)?;
    for (old, new) in new_ids.iter() {
        digest.put((*old as u64) << 32 ^ *new as u64);
    }
    digest.put(count as u64);
    put_written(alloc, &table, digest)
}

/// Numbers what each so manyth type reaches.
fn put_numbered(
    alloc: Global,
    table: &PortableRegistry,
    first: u32,
    many: u32,
    digest: &mut Digest,
) -> Result<()> {
    let mut roots = Vec::new(alloc);
    for (id, _) in table.entries() {
        if id % many.max(1) == first {
            roots.push(id)?;
        }
    }
    let numbering = number(alloc, table.types(), &roots)?;
    for id in numbering.order.iter() {
        digest.put(*id as u64);
    }
    digest.put((numbering.steps & 0xffff_ffff) as u64);
    Ok(())
}

/// Puts a table together of descriptions, a third of which come twice.
fn put_built(alloc: Global, bytes: &[u8], random: &mut Random, digest: &mut Digest) -> Result<()> {
    let (table, _) = PortableRegistry::decode(alloc, bytes)?;
    let mut builder = PortableRegistryBuilder::new(alloc);
    for entry in table.types.into_vec() {
        let again = random.is_one_in(3);
        put_registered(alloc, &mut builder, entry, again, digest)?;
    }
    for _ in 0..1000 {
        if let Some(ty) = builder.get(random.below(TYPES)) {
            digest.put(ty.type_params.len() as u64);
        }
    }
    put_written(alloc, &builder.finish(alloc)?, digest)
}

/// Registers the description of an entry, and where that is asked for a copy of it too.
fn put_registered(
    alloc: Global,
    builder: &mut PortableRegistryBuilder,
    entry: PortableType,
    again: bool,
    digest: &mut Digest,
) -> Result<()> {
    if again {
        put_id(builder, entry.ty.try_clone(alloc)?, digest)?;
    }
    put_id(builder, entry.ty, digest)
}

/// Registers a description, and puts its id into the digest.
fn put_id(
    builder: &mut PortableRegistryBuilder,
    ty: Type<PortableForm>,
    digest: &mut Digest,
) -> Result<()> {
    let id = builder.register_type(ty)?;
    digest.put(id as u64);
    Ok(())
}
