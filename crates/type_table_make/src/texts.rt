//! Names and lines of docs.
use crate::random::Random;
use scale_info::Text;
use std::alloc::{AllocError, Global};

/// The words that names and docs are made of.
const WORDS: [&str; 16] = [
    "account", "amount", "block", "call", "deposit", "fee", "hash", "index", "key", "limit",
    "origin", "owner", "proof", "round", "stake", "weight",
];

/// What the docs of hostile tables are made of: characters that JSON escapes, and longer ones.
const HARD: [&str; 6] = ["\"", "\\", "\n", "\u{1}", "\u{e9}", "\u{20ac}"];

/// A name of so many words with `_` between them.
pub fn name(alloc: Global, random: &mut Random, words: u32) -> Result<Text, AllocError> {
    joined(alloc, random, words, "_", &WORDS)
}

/// At most so many lines of docs.
pub fn docs(alloc: Global, random: &mut Random, most: u32) -> Result<Vec<Text>, AllocError> {
    let mut lines = Vec::new(alloc);
    for _ in 0..random.below(most.saturating_add(1)) {
        let words = 5 + random.below(10);
        lines.push(joined(alloc, random, words, " ", &WORDS)?)?;
    }
    Ok(lines)
}

/// A line of docs of so many characters, each of which JSON escapes or takes several bytes.
pub fn hard(alloc: Global, random: &mut Random, count: u32) -> Result<Text, AllocError> {
    joined(alloc, random, count, "", &HARD)
}

/// So many of these pieces, with a text between each two.
fn joined(
    alloc: Global,
    random: &mut Random,
    count: u32,
    between: &str,
    pieces: &[&str],
) -> Result<Text, AllocError> {
    let mut text = String::new(alloc);
    for place in 0..count {
        if place > 0 {
            text.push_str(between)?;
        }
        let chosen = random.below((pieces.len() & 0xffff) as u32);
        if let Some(piece) = pieces.get(chosen as usize) {
            text.push_str(piece)?;
        }
    }
    Ok(Text::from(text))
}
