//! Values that are strings, bytes, arrays, deep or many.
use crate::digest::Digest;
use crate::random::Random;
use crate::records::put_decoded;
use crate::scale::{push_compact, push_word};
use crate::table_bytes::TableBytes;
use anyhow::Result;
use scale_info::PortableRegistry;
use std::alloc::{AllocError, Global};

/// How many variants the wide enum has.
const WIDE: u32 = 250;

/// How deep the deep type is.
const DEPTH: u32 = 100;

/// Ids of the types that are asked for.
#[derive(Drop, Clone, Copy)]
pub struct Ids {
    pub bytes: u32,
    pub calls: u32,
    pub numbers: u32,
    pub compacts: u32,
    pub wide: u32,
    pub deep: u32,
    pub maps: u32,
}

/// The bytes of the table, and its ids.
pub fn payload_table(alloc: Global) -> Result<(Vec<u8>, Ids), AllocError> {
    let mut table = TableBytes::new(alloc);
    let byte = table.primitive(3)?;
    let number = table.primitive(5)?;
    let text = table.primitive(2)?;
    let bytes = table.sequence(byte)?;
    let numbers = table.array(65536, number)?;
    let compact = table.compact(number)?;
    let compacts = table.sequence(compact)?;
    let calls = write_calls(&mut table, bytes, text)?;
    let wide = write_wide(&mut table, byte)?;
    let deep = write_deep(&mut table, number)?;
    let map = table.map(number, text)?;
    let maps = table.sequence(map)?;
    let ids = Ids {
        bytes,
        calls,
        numbers,
        compacts,
        wide,
        deep,
        maps,
    };
    Ok((table.finish(alloc)?, ids))
}

/// Writes a list of calls, which have strings and bytes.
fn write_calls(table: &mut TableBytes, bytes: u32, text: u32) -> Result<u32, AllocError> {
    table.begin_enum(&["frame_system", "pallet", "Call"], 3)?;
    table.variant("remark", 0, &[("remark", bytes)])?;
    table.variant("set_name", 1, &[("name", text), ("display", text)])?;
    table.variant("set_storage", 2, &[("key", bytes), ("value", bytes)])?;
    let call = table.end()?;
    table.sequence(call)
}

/// Writes a list of an enum of many variants, each of a byte.
fn write_wide(table: &mut TableBytes, byte: u32) -> Result<u32, AllocError> {
    table.begin_enum(&["example_runtime", "Wide"], WIDE)?;
    for index in 0..WIDE {
        table.variant("Variant", index as u8, &[("value", byte)])?;
    }
    let wide = table.end()?;
    table.sequence(wide)
}

/// Writes a list of a type that is many structs deep.
fn write_deep(table: &mut TableBytes, number: u32) -> Result<u32, AllocError> {
    let mut inner = number;
    for _ in 0..DEPTH {
        inner = table.composite(&["example_runtime", "Layer"], &[("inner", inner)])?;
    }
    table.sequence(inner)
}

/// Appends a list of so many bytes.
pub fn push_many(out: &mut Vec<u8>, random: &mut Random, count: u32) -> Result<(), AllocError> {
    let words = count / 8;
    push_compact(out, words * 8)?;
    for _ in 0..words {
        push_word(out, random.word())?;
    }
    Ok(())
}

/// Appends a string of so many letters.
fn push_letters(out: &mut Vec<u8>, random: &mut Random, count: u32) -> Result<(), AllocError> {
    push_compact(out, count)?;
    for _ in 0..count {
        out.push(b'a' + (random.word() & 15) as u8)?;
    }
    Ok(())
}

/// Appends a list of calls, of 30 bytes to 3,000.
pub fn push_calls(out: &mut Vec<u8>, random: &mut Random) -> Result<(), AllocError> {
    push_compact(out, 30)?;
    for _ in 0..10 {
        let count = 30 + random.below(2970);
        out.push(0)?;
        push_many(out, random, count)?;
        out.push(1)?;
        push_letters(out, random, count / 8)?;
        push_letters(out, random, count)?;
        out.push(2)?;
        push_many(out, random, 40)?;
        push_many(out, random, count)?;
    }
    Ok(())
}

/// Appends a list of compact integers of each width.
pub fn push_compacts(out: &mut Vec<u8>, random: &mut Random, count: u32) -> Result<(), AllocError> {
    push_compact(out, count)?;
    for _ in 0..count {
        let bits = random.below(32);
        push_compact(out, (random.word() & 0xffff_ffff) as u32 >> bits)?;
    }
    Ok(())
}

/// Appends a list of the last variant of the wide enum.
pub fn push_wide(out: &mut Vec<u8>, random: &mut Random, count: u32) -> Result<(), AllocError> {
    push_compact(out, count)?;
    for _ in 0..count {
        out.push((WIDE - 1) as u8)?;
        out.push((random.word() & 0xff) as u8)?;
    }
    Ok(())
}

/// Appends a list of numbers, each in a value that is deep.
pub fn push_deep(out: &mut Vec<u8>, random: &mut Random, count: u32) -> Result<(), AllocError> {
    push_compact(out, count)?;
    for _ in 0..count {
        out.extend_from_slice(&random.below(1000000).to_le_bytes())?;
    }
    Ok(())
}

/// Appends a list of maps from numbers to short strings.
pub fn push_maps(out: &mut Vec<u8>, random: &mut Random, count: u32) -> Result<(), AllocError> {
    push_compact(out, count)?;
    for _ in 0..count {
        push_compact(out, 10)?;
        for key in 0..10u32 {
            out.extend_from_slice(&key.to_le_bytes())?;
            let length = 4 + random.below(12);
            push_letters(out, random, length)?;
        }
    }
    Ok(())
}

/// Decodes so many times a value of each kind.
pub fn run(alloc: Global, seed: u32, rounds: u32) -> Result<Digest> {
    let mut random = Random::new(seed, 2);
    let mut digest = Digest::new();
    let (table, ids) = payload_table(alloc)?;
    let (table, _) = PortableRegistry::decode(alloc, &table)?;
    let mut input = Vec::new(alloc);
    for round in 0..rounds {
        if round % 8 == 7 {
            push_many(&mut input, &mut random, 1048576)?;
            put_decoded(alloc, &table, ids.bytes, &input, &mut digest)?;
        }
        decode_large(alloc, &table, ids, &mut random, &mut digest)?;
        decode_small(alloc, &table, ids, &mut random, &mut digest)?;
        input.clear();
    }
    Ok(digest)
}

/// Decodes calls, and many numbers.
fn decode_large(
    alloc: Global,
    table: &PortableRegistry,
    ids: Ids,
    random: &mut Random,
    digest: &mut Digest,
) -> Result<()> {
    let mut input = Vec::new(alloc);
    push_calls(&mut input, random)?;
    put_decoded(alloc, table, ids.calls, &input, digest)?;
    input.clear();
    for _ in 0..32768 {
        push_word(&mut input, random.word())?;
    }
    put_decoded(alloc, table, ids.numbers, &input, digest)?;
    input.clear();
    push_compacts(&mut input, random, 4096)?;
    put_decoded(alloc, table, ids.compacts, &input, digest)
}

/// Decodes many small values: of the wide enum, of the deep struct, and maps.
fn decode_small(
    alloc: Global,
    table: &PortableRegistry,
    ids: Ids,
    random: &mut Random,
    digest: &mut Digest,
) -> Result<()> {
    let mut input = Vec::new(alloc);
    push_wide(&mut input, random, 4096)?;
    put_decoded(alloc, table, ids.wide, &input, digest)?;
    input.clear();
    push_deep(&mut input, random, 64)?;
    put_decoded(alloc, table, ids.deep, &input, digest)?;
    input.clear();
    push_maps(&mut input, random, 64)?;
    put_decoded(alloc, table, ids.maps, &input, digest)
}
