//! Long lists of truths, and of integers of each width, with a sign and without.
use crate::digest::Digest;
use crate::random::Random;
use crate::records::put_decoded;
use crate::scale::{push_compact, push_word};
use crate::table_bytes::TableBytes;
use anyhow::Result;
use scale_info::PortableRegistry;
use std::alloc::{AllocError, Global};

/// How many words of eight bytes the items of a list take.
const WORDS: u32 = 8192;

/// What is the primitive of a list's items, and how many of them a word is.
struct Kind {
    byte: u8,
    in_word: u32,
}

/// Those of one byte to eight.
const KINDS: [Kind; 9] = [
    Kind {
        byte: 0,
        in_word: 8,
    },
    Kind {
        byte: 3,
        in_word: 8,
    },
    Kind {
        byte: 4,
        in_word: 4,
    },
    Kind {
        byte: 5,
        in_word: 2,
    },
    Kind {
        byte: 6,
        in_word: 1,
    },
    Kind {
        byte: 9,
        in_word: 8,
    },
    Kind {
        byte: 10,
        in_word: 4,
    },
    Kind {
        byte: 11,
        in_word: 2,
    },
    Kind {
        byte: 12,
        in_word: 1,
    },
];

/// The bytes of the table of lists of these, at each second index.
fn list_table(alloc: Global) -> Result<Vec<u8>, AllocError> {
    let mut table = TableBytes::new(alloc);
    for kind in &KINDS {
        let item = table.primitive(kind.byte)?;
        table.sequence(item)?;
    }
    table.finish(alloc)
}

/// Appends a list, whose items are truths where the primitive is `bool`.
fn push_list(out: &mut Vec<u8>, random: &mut Random, kind: &Kind) -> Result<(), AllocError> {
    push_compact(out, WORDS.wrapping_mul(kind.in_word))?;
    for _ in 0..WORDS {
        let word = random.word();
        let items = if kind.byte == 0 {
            word & 0x0101_0101_0101_0101
        } else {
            word
        };
        push_word(out, items)?;
    }
    Ok(())
}

/// Decodes a list of each kind, so many times.
pub fn run(alloc: Global, seed: u32, rounds: u32) -> Result<Digest> {
    let mut random = Random::new(seed, 16);
    let mut digest = Digest::new();
    let table = list_table(alloc)?;
    let (table, _) = PortableRegistry::decode(alloc, &table)?;
    for _ in 0..rounds {
        let mut id = 1u32;
        for kind in &KINDS {
            let mut input = Vec::new(alloc);
            push_list(&mut input, &mut random, kind)?;
            put_decoded(alloc, &table, id, &input, &mut digest)?;
            id = id.wrapping_add(2);
        }
    }
    Ok(digest)
}
