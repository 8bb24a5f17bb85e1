//! Tables like those of a runtime's metadata.
use crate::random::Random;
use crate::scale::{push_compact, push_count};
use crate::table_bytes::TableBytes;
use std::alloc::{AllocError, Global};

/// The words that names and docs are made of.
const WORDS: [&str; 32] = [
    "account",
    "balance",
    "the",
    "transfer",
    "origin",
    "of",
    "amount",
    "for",
    "index",
    "call",
    "is",
    "reserve",
    "a",
    "block",
    "number",
    "to",
    "validator",
    "session",
    "key",
    "and",
    "weight",
    "proposal",
    "hash",
    "in",
    "vote",
    "deposit",
    "era",
    "by",
    "stake",
    "storage",
    "with",
    "from",
];

/// The least length of a line of docs.
const LEAST_LINE: u32 = 24;

/// The bytes of a table, and where lines of docs stand in them.
#[derive(Drop)]
pub struct Documented {
    /// The bytes.
    pub bytes: Vec<u8>,
    /// The index of the first byte of each line.
    pub lines: Vec<usize>,
}

impl Documented {
    /// Changes some letters of the docs, so that the bytes are those of another table. Where
    /// `is_rough`, quotes and line ends come too.
    pub fn change(&mut self, random: &mut Random, count: u32, is_rough: bool) {
        for _ in 0..count {
            let line = random.below((self.lines.len() & 0xffff_ffff) as u32);
            let first = self.lines.get(line as usize).copied().unwrap_or(0);
            let place = first.saturating_add(random.below(LEAST_LINE) as usize);
            if let Some(byte) = self.bytes.get_mut(place) {
                *byte = letter(random, is_rough);
            }
        }
    }
}

/// A small letter, or sometimes another character where `is_rough`.
fn letter(random: &mut Random, is_rough: bool) -> u8 {
    if is_rough && random.is_one_in(2) {
        return match random.below(3) {
            0 => b'"',
            1 => b'\n',
            _ => b'\\',
        };
    }
    b'a' + random.below(26) as u8
}

/// A table in the making, with where its docs stand, and the numbers that decide what comes.
#[derive(Drop)]
struct Making {
    table: TableBytes,
    lines: Vec<usize>,
    name: Vec<u8>,
    random: Random,
}

/// A table of so many types: first the built-in ones, then structs and enums, and some sequences,
/// arrays, tuples and compact integers.
pub fn runtime_table(alloc: Global, random: Random, count: u32) -> Result<Documented, AllocError> {
    let mut making = Making {
        table: TableBytes::new(alloc),
        lines: Vec::new(alloc),
        name: Vec::new(alloc),
        random,
    };
    for byte in 0..15 {
        making.table.primitive(byte)?;
    }
    for _ in 15..count {
        making.entry()?;
    }
    making.finish(alloc)
}

impl Making {
    /// One more type.
    fn entry(&mut self) -> Result<(), AllocError> {
        match self.random.below(100) {
            0..=7 => {
                let item = self.reference();
                self.table.sequence(item)?;
            }
            8..=12 => {
                let item = self.reference();
                let len = self.random.below(64);
                self.table.array(len, item)?;
            }
            13..=18 => {
                let members = [self.reference(), self.reference(), self.reference()];
                let len = self.random.below(4) as usize;
                self.table.tuple(&members[..len])?;
            }
            19..=23 => {
                let number = 3 + self.random.below(4);
                self.table.compact(number)?;
            }
            24..=63 => self.composite()?,
            _ => self.enumeration()?,
        }
        Ok(())
    }

    /// The id of a type to refer to: mostly of one of the first, sometimes of one that comes soon.
    fn reference(&mut self) -> u32 {
        let next = self.table.next_id();
        if next > 64 && self.random.is_one_in(5) {
            let far = 1 + self.random.below(24);
            return next - far;
        }
        self.random.below(15)
    }

    /// A path of three segments, of which the first is the same for many.
    fn path(&mut self, kind: u8) -> Result<(), AllocError> {
        let first = match self.random.below(4) {
            0 => "frame_support",
            1 => "pallet_balances",
            2 => "sp_runtime",
            _ => "example_runtime",
        };
        self.make_name(1, b'_')?;
        self.table.begin_named(first, &self.name, kind)
    }

    /// A struct of one to six fields.
    fn composite(&mut self) -> Result<(), AllocError> {
        self.path(0)?;
        let count = 1 + self.random.below(6);
        self.fields(count)?;
        self.docs(2)?;
        self.table.end_documented();
        Ok(())
    }

    /// An enum: mostly of two to twelve variants, some of 60, and a few of 200.
    fn enumeration(&mut self) -> Result<(), AllocError> {
        let count = match self.random.below(100) {
            0 => 200,
            1..=5 => 60,
            _ => 2 + self.random.below(11),
        };
        self.path(1)?;
        push_compact(self.table.entries(), count)?;
        for index in 0..count {
            self.variant(index)?;
        }
        self.docs(1)?;
        self.table.end_documented();
        Ok(())
    }

    /// A variant of at most three fields.
    fn variant(&mut self, index: u32) -> Result<(), AllocError> {
        self.make_name(2, b'_')?;
        self.push_name()?;
        let count = self.random.below(4);
        self.fields(count)?;
        self.table.entries().push((index % 256) as u8)?;
        self.docs(1)
    }

    /// So many fields, most with a name.
    fn fields(&mut self, count: u32) -> Result<(), AllocError> {
        push_compact(self.table.entries(), count)?;
        let is_named = !self.random.is_one_in(4);
        for _ in 0..count {
            self.field(is_named)?;
        }
        Ok(())
    }

    /// A field, with a name where it has one.
    fn field(&mut self, is_named: bool) -> Result<(), AllocError> {
        if is_named {
            self.make_name(2, b'_')?;
        } else {
            self.name.clear();
        }
        let ty = self.reference();
        let name = str::from_utf8(&self.name).unwrap_or("name");
        self.table.field(name, ty, "T::Balance")
    }

    /// At most so many lines of docs.
    fn docs(&mut self, most: u32) -> Result<(), AllocError> {
        let count = self.random.below(most.saturating_add(1));
        push_compact(self.table.entries(), count)?;
        for _ in 0..count {
            self.line()?;
        }
        Ok(())
    }

    /// A line of docs, of 24 bytes or more.
    fn line(&mut self) -> Result<(), AllocError> {
        let words = 5 + self.random.below(10);
        self.make_name(words, b' ')?;
        let missing = (LEAST_LINE as usize).saturating_sub(self.name.len());
        for _ in 0..missing {
            self.name.push(b'.')?;
        }
        self.push_name()?;
        let start = self.table.len().saturating_sub(self.name.len());
        self.lines.push(start)?;
        Ok(())
    }

    /// Appends the name that was made, as a string.
    fn push_name(&mut self) -> Result<(), AllocError> {
        push_count(self.table.entries(), self.name.len())?;
        self.table.entries().extend_from_slice(&self.name)
    }

    /// Makes a name of so many words, with this byte between two of them.
    fn make_name(&mut self, words: u32, between: u8) -> Result<(), AllocError> {
        self.name.clear();
        for index in 0..words {
            if index > 0 {
                self.name.push(between)?;
            }
            let word = WORDS[self.random.below(32) as usize];
            self.name.extend_from_slice(word.as_bytes())?;
        }
        Ok(())
    }

    /// The bytes, and where the lines stand in them.
    fn finish(self, alloc: Global) -> Result<Documented, AllocError> {
        let bytes = self.table.finish(alloc)?;
        let before = bytes.len().saturating_sub(self.table.len());
        let mut lines = self.lines;
        for line in lines.iter_mut() {
            *line = line.saturating_add(before);
        }
        Ok(Documented { bytes, lines })
    }
}
