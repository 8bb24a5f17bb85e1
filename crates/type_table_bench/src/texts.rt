//! Tables as JSON: text from tables and from bytes, trees there and back.
use crate::digest::Digest;
use crate::random::Random;
use crate::runtime::runtime_table;
use crate::table_bytes::TableBytes;
use anyhow::Result;
use scale_info::{PortableRegistry, append_json, append_json_of, from_json, to_json};
use serde_json::Value;
use std::alloc::Global;

/// How many types a table has.
const TYPES: u32 = 1000;

/// Does so many rounds: in each, text from bytes and from a table, and in one of four a tree from a
/// table, its text, the tree of the text, and its table. In every second round the docs are full of
/// quotes and line ends, and small entries come too.
pub fn run(alloc: Global, seed: u32, rounds: u32) -> Result<Digest> {
    let mut digest = Digest::new();
    let mut random = Random::new(seed, 5);
    let mut documented = runtime_table(alloc, Random::new(seed, 6), TYPES)?;
    for round in 0..rounds {
        let is_rough = round % 2 == 1;
        documented.change(&mut random, 2048, is_rough);
        put_text_of(alloc, &documented.bytes, &mut digest)?;
        documented.change(&mut random, 256, is_rough);
        put_text(alloc, &documented.bytes, &mut digest)?;
        if is_rough {
            let count = 2000 + random.below(1000);
            put_small(alloc, count, &mut digest)?;
        }
        if round % 4 == 3 {
            documented.change(&mut random, 256, is_rough);
            put_tree(alloc, &documented.bytes, &mut digest)?;
        }
    }
    Ok(digest)
}

/// The text of a table's bytes.
fn put_text_of(alloc: Global, bytes: &[u8], digest: &mut Digest) -> Result<()> {
    let (text, rest) = append_json_of(alloc, bytes, Vec::new(alloc))?;
    digest.put_bytes(&text);
    digest.put(rest.len() as u64);
    Ok(())
}

/// The text of a table.
fn put_text(alloc: Global, bytes: &[u8], digest: &mut Digest) -> Result<()> {
    let (table, _) = PortableRegistry::decode(alloc, bytes)?;
    let text = append_json(&table, Vec::new(alloc))?;
    digest.put_bytes(&text);
    Ok(())
}

/// The text of so many small entries.
fn put_small(alloc: Global, count: u32, digest: &mut Digest) -> Result<()> {
    let mut table = TableBytes::new(alloc);
    for id in 0..count {
        table.sequence(id)?;
    }
    let bytes = table.finish(alloc)?;
    put_text_of(alloc, &bytes, digest)
}

/// The tree of a table, its text, the tree of the text, and the table of that tree.
fn put_tree(alloc: Global, bytes: &[u8], digest: &mut Digest) -> Result<()> {
    let (table, _) = PortableRegistry::decode(alloc, bytes)?;
    let text = to_json(alloc, &table)?.to_string(alloc)?;
    digest.put_bytes(text.as_bytes());
    let read = from_json(alloc, &Value::from_str(alloc, text.as_str())?)?;
    digest.put(if read == table { 1 } else { 2 });
    Ok(())
}
