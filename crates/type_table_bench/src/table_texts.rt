//! Tables from JSON text: straight, and by a tree.
use crate::digest::Digest;
use crate::random::Random;
use crate::runtime::runtime_table;
use anyhow::Result;
use scale_info::{PortableRegistry, append_json_of, from_json, from_json_text};
use serde_json::Value;
use std::alloc::Global;

/// How many types a table has.
const TYPES: u32 = 1000;

/// A way to read a table from its text.
pub trait TextReader {
    /// The table that the text means.
    fn table(alloc: Global, text: &str) -> Result<PortableRegistry>;
}

/// Reads straight from the text.
pub struct Straight;

/// Reads the tree of the text.
pub struct ByTree;

impl TextReader for Straight {
    fn table(alloc: Global, text: &str) -> Result<PortableRegistry> {
        Ok(from_json_text(alloc, text)?)
    }
}

impl TextReader for ByTree {
    fn table(alloc: Global, text: &str) -> Result<PortableRegistry> {
        Ok(from_json(alloc, &Value::from_str(alloc, text)?)?)
    }
}

/// Reads a table in each of so many rounds. In every second one the docs are full of quotes and
/// line ends.
pub fn run<R: TextReader>(alloc: Global, seed: u32, rounds: u32) -> Result<Digest> {
    let mut digest = Digest::new();
    let mut random = Random::new(seed, 12);
    let mut documented = runtime_table(alloc, Random::new(seed, 13), TYPES)?;
    for round in 0..rounds {
        documented.change(&mut random, 2048, round % 2 == 1);
        let (text, _) = append_json_of(alloc, &documented.bytes, Vec::new(alloc))?;
        let table = R::table(alloc, str::from_utf8(&text)?)?;
        let mut bytes = Vec::new(alloc);
        table.encode(&mut bytes)?;
        digest.put_bytes(&bytes);
    }
    Ok(digest)
}
