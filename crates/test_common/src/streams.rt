//! Readers and writers that stop short, are interrupted or fail.
use std::alloc::Global;
use std::io;
use std::io::{ErrorKind, Read, Write};

/// A reader that is interrupted before each read that it serves.
#[derive(Drop)]
pub struct HaltingReader<'a> {
    left: &'a [u8],
    piece: usize,
    fails: bool,
    is_interrupted: bool,
    calls: u64,
}

impl<'a> HaltingReader<'a> {
    /// Gives the bytes, at most `piece` at a read, and then the end.
    pub fn ending(bytes: &'a [u8], piece: usize) -> Self {
        HaltingReader {
            left: bytes,
            piece,
            fails: false,
            is_interrupted: false,
            calls: 0,
        }
    }

    /// Gives the bytes, at most 3 at a read, and then fails.
    pub fn failing(bytes: &'a [u8]) -> Self {
        HaltingReader {
            left: bytes,
            piece: 3,
            fails: true,
            is_interrupted: false,
            calls: 0,
        }
    }

    /// How often it was asked.
    pub fn calls(&self) -> u64 {
        self.calls
    }
}

impl Read for HaltingReader<'_> {
    fn read(&mut self, buf: &mut [u8]) -> io::Result<usize> {
        self.calls = self.calls.saturating_add(1);
        self.is_interrupted = !self.is_interrupted;
        if self.is_interrupted {
            return Err(io::Error::from(ErrorKind::Interrupted));
        }
        if self.fails && self.left.is_empty() {
            return Err(io::Error::from(ErrorKind::ConnectionReset));
        }
        let most = self.piece.min(buf.len());
        self.left.read(&mut buf[..most])
    }
}

/// A reader that is interrupted so often, and then ends.
#[derive(Drop)]
pub struct InterruptedReader {
    /// How many reads are still interrupted.
    pub left: u32,
}

impl Read for InterruptedReader {
    fn read(&mut self, _buf: &mut [u8]) -> io::Result<usize> {
        if self.left == 0 {
            return Ok(0);
        }
        self.left -= 1;
        Err(io::Error::from(ErrorKind::Interrupted))
    }
}

/// A writer that takes at most 3 bytes at a write. Every second write is interrupted, and writes
/// and flushes fail once it is full.
#[derive(Drop)]
pub struct HaltingWriter {
    /// What was written.
    pub taken: Vec<u8>,
    room: usize,
    is_interrupted: bool,
}

impl HaltingWriter {
    /// Is full after `room` bytes.
    pub fn new(alloc: Global, room: usize) -> Self {
        HaltingWriter {
            taken: Vec::new(alloc),
            room,
            is_interrupted: false,
        }
    }

    fn check_room(&self) -> io::Result<()> {
        if self.room == 0 {
            return Err(io::Error::from(ErrorKind::StorageFull));
        }
        Ok(())
    }
}

impl Write for HaltingWriter {
    fn write(&mut self, buf: &[u8]) -> io::Result<usize> {
        self.is_interrupted = !self.is_interrupted;
        if self.is_interrupted {
            return Err(io::Error::from(ErrorKind::Interrupted));
        }
        self.check_room()?;
        let count = buf.len().min(3).min(self.room);
        self.taken.extend_from_slice(&buf[..count])?;
        self.room -= count;
        Ok(count)
    }

    fn flush(&mut self) -> io::Result<()> {
        self.check_room()
    }
}
