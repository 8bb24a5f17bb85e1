//! Comments in colour, for a terminal.
ghost use Rattle.std.specs.Prelude.{◌≤◌, IfOk, length};

use std::io;
use std::io::Write;

/// What a terminal shows in green from here on.
const GREEN: &[u8] = b"\x1b[32m";
/// The end of a line in colour.
const PLAIN: &[u8] = b"\x1b[0m\n";

/// How far a line was written.
#[derive(Clone, Copy)]
enum Line {
    /// Blanks at most.
    Begun,
    /// It is a comment, and in colour.
    Comment,
    /// It is no comment.
    Code,
}

/// A writer of lines for a terminal, which shows comments in green: lines whose first byte that is
/// no blank is `/`.
#[derive(Drop)]
pub struct Painter<W> {
    writer: W,
    line: Line,
}

impl<W: Write> Painter<W> {
    /// A writer that paints what the given one writes.
    pub fn new(writer: W) -> Painter<W> {
        Painter {
            writer,
            line: Line::Begun,
        }
    }

    /// Writes blanks at the beginning of a line, or what comes after them.
    fn write_begun(&mut self, buf: &[u8]) -> io::Result<usize>
        ensures { IfOk result (λ count. count ≤ length buf.now) }
    {
        let blanks = buf.iter().take_while(|byte| **byte == b' ').count();
        if blanks > 0 {
            return self.writer.write(&buf[..blanks]);
        }
        if buf.first() != Some(&b'/') {
            self.line = Line::Code;
            return self.write_code(buf);
        }
        self.writer.write_all(GREEN)?;
        self.line = Line::Comment;
        self.write_comment(buf)
    }

    /// Writes more of a comment, or its end.
    fn write_comment(&mut self, buf: &[u8]) -> io::Result<usize>
        ensures { IfOk result (λ count. count ≤ length buf.now) }
    {
        match buf.iter().position(|byte| *byte == b'\n') {
            Some(0) => {
                self.writer.write_all(PLAIN)?;
                self.line = Line::Begun;
                Ok(1)
            }
            Some(end) => self.writer.write(&buf[..end]),
            None => self.writer.write(buf),
        }
    }

    /// Writes more of a line that is no comment, or its end.
    fn write_code(&mut self, buf: &[u8]) -> io::Result<usize>
        ensures { IfOk result (λ count. count ≤ length buf.now) }
    {
        let Some(end) = buf.iter().position(|byte| *byte == b'\n') else {
            return self.writer.write(buf);
        };
        let count = self.writer.write(&buf[..=end])?;
        if count > end {
            self.line = Line::Begun;
        }
        Ok(count)
    }
}

impl<W: Write> Write for Painter<W> {
    fn write(&mut self, buf: &[u8]) -> io::Result<usize> {
        match self.line {
            Line::Begun => self.write_begun(buf),
            Line::Comment => self.write_comment(buf),
            Line::Code => self.write_code(buf),
        }
    }

    fn flush(&mut self) -> io::Result<()> {
        self.writer.flush()
    }
}
