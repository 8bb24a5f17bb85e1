//! Runs of the program over bytes, and what each is to do, found by decoding.
use scale_info::{DecodeError, PortableRegistry, RetainError, to_json};
use std::alloc::Global;
use std::io::{Read, Write};
use std::test::Fail;
use test_common::encodings::encoding;
use test_common::parts::text;
use test_common::rows::numbers;

/// What a run ends with.
#[derive(Debug, PartialEq, Drop)]
pub struct Run {
    /// The exit status.
    pub status: u8,
    /// What was written.
    pub output: Vec<u8>,
    /// What was written for people.
    pub line: String,
}

/// Runs the program with the words that spaces separate, and returns the status and the line.
pub fn run_words<R: Read, W: Write>(
    alloc: Global,
    words: &str,
    reader: &mut R,
    output: &mut W,
) -> Result<(u8, String), Fail> {
    let mut arguments = Vec::new(alloc);
    for word in words.split_whitespace() {
        arguments.push(text(alloc, word)?)?;
    }
    let mut errors = Vec::new(alloc);
    let status = type_table_run::run(alloc, &arguments, reader, output, &mut errors);
    Ok((status, String::from_utf8(errors)?))
}

/// Runs the program with these words over what a reader gives.
pub fn run_from<R: Read>(alloc: Global, words: &str, reader: &mut R) -> Result<Run, Fail> {
    let mut output = Vec::new(alloc);
    let (status, line) = run_words(alloc, words, reader, &mut output)?;
    Ok(Run {
        status,
        output,
        line,
    })
}

/// Runs the program with these words over these bytes.
pub fn run_over(alloc: Global, words: &str, input: &[u8]) -> Result<Run, Fail> {
    let mut reader = input;
    run_from(alloc, words, &mut reader)
}

/// A run that writes nothing and ends with status 1 and a line that says this.
pub fn refused(alloc: Global, reason: &str) -> Result<Run, Fail> {
    Ok(Run {
        status: 1,
        output: Vec::new(alloc),
        line: format!(in alloc; "type_table: {reason}\n")?,
    })
}

/// A run that writes these bytes and ends with status 0.
pub fn wrote(alloc: Global, output: &[u8]) -> Result<Run, Fail> {
    Ok(Run {
        status: 0,
        output: Vec::from_slice(alloc, output)?,
        line: String::new(alloc),
    })
}

/// What `json` does with a table: it writes the text of its tree, and a line feed.
fn by_tree(alloc: Global, table: &PortableRegistry) -> Result<Run, Fail> {
    let mut line = to_json(alloc, table)?.to_string(alloc)?;
    line.push('\n')?;
    wrote(alloc, line.as_bytes())
}

/// The first of these ids that is no index of a table of so many entries.
fn first_unknown(ids: &[u32], count: usize) -> Option<u32> {
    for id in ids {
        if *id as usize >= count {
            return Some(*id);
        }
    }
    None
}

/// What `prune` does with a table: it writes what `retain` leaves of it.
fn by_retain(alloc: Global, mut table: PortableRegistry, ids: &[u32]) -> Result<Run, Fail> {
    if let Some(id) = first_unknown(ids, table.len()) {
        return refused(alloc, format!(in alloc; "no such type {id}")?.as_str());
    }
    match table.retain(alloc, |id| ids.contains(&id)) {
        Ok(_) => wrote(alloc, &encoding(alloc, &table)?),
        Err(RetainError::Dangling { id }) => {
            refused(alloc, format!(in alloc; "dangling id {id}")?.as_str())
        }
        Err(_) => Err(Fail::new("an allocation failed")),
    }
}

/// What the program does with a whole input, without its own passes over bytes: the input is
/// decoded, and `check` encodes the table again, `json` makes its tree, and `prune` retains.
pub fn expected(alloc: Global, words: &str, input: &[u8]) -> Result<Run, Fail> {
    let (table, rest) = match PortableRegistry::decode(alloc, input) {
        Ok(found) => found,
        Err(DecodeError::Malformed) => return refused(alloc, "malformed"),
        Err(DecodeError::Memory) => return Err(Fail::new("an allocation failed")),
    };
    if !rest.is_empty() {
        return refused(alloc, "trailing bytes");
    }
    match words.split_once(' ') {
        Some((_, ids)) => by_retain(alloc, table, &numbers(alloc, ids)?),
        None if words == "json" => by_tree(alloc, &table),
        None => wrote(alloc, &encoding(alloc, &table)?),
    }
}
