//! The program's commands, from a table's bytes to bytes.
use crate::digest::Digest;
use crate::random::Random;
use crate::runtime::runtime_table;
use anyhow::Result;
use scale_info::Text;
use std::alloc::{AllocError, Global};

/// How many types a table has.
const TYPES: u32 = 1000;

/// Does so many rounds: each checks a table, prunes one to some types, and writes one as JSON.
pub fn run(alloc: Global, seed: u32, rounds: u32) -> Result<Digest> {
    let mut digest = Digest::new();
    let mut random = Random::new(seed, 7);
    let mut documented = runtime_table(alloc, Random::new(seed, 8), TYPES)?;
    for _ in 0..rounds {
        documented.change(&mut random, 64, false);
        put_output(
            alloc,
            vec![in alloc; word(alloc, "check")?]?,
            &documented.bytes,
            &mut digest,
        );
        documented.change(&mut random, 64, false);
        let chosen = prune_words(alloc, &mut random)?;
        put_output(alloc, chosen, &documented.bytes, &mut digest);
        documented.change(&mut random, 64, false);
        put_output(
            alloc,
            vec![in alloc; word(alloc, "json")?]?,
            &documented.bytes,
            &mut digest,
        );
    }
    Ok(digest)
}

/// An argument.
fn word(alloc: Global, text: &str) -> Result<Text, AllocError> {
    Text::from_str(alloc, text)
}

/// The words of a command that prunes to one to a hundred types.
fn prune_words(alloc: Global, random: &mut Random) -> Result<Vec<Text>, AllocError> {
    let mut words = vec![in alloc; word(alloc, "prune")?]?;
    for _ in 0..1 + random.below(100) {
        let id = random.below(TYPES);
        words.push(Text::from(format!(in alloc; "{id}")?))?;
    }
    Ok(words)
}

/// Runs a command, and puts its status and all that it wrote into the digest.
fn put_output(alloc: Global, words: Vec<Text>, input: &[u8], digest: &mut Digest) {
    let (mut reader, mut output, mut errors) = (input, Vec::new(alloc), Vec::new(alloc));
    let status = type_table_run::run(alloc, &words, &mut reader, &mut output, &mut errors);
    digest.put(status as u64);
    digest.put_bytes(&output);
    digest.put_bytes(&errors);
}
