//! An input, read by pieces.
ghost use Rattle.std.specs.Prelude.{IfErr, IfOk, OnOk};
ghost use Rattle.type_reader_io.specs.Inputs.{IsReadError, IsWithoutFeed};
ghost use Rattle.type_reader_lines.specs.Pieces.{IsPiece};

use std::io::{self, BufRead, ErrorKind};
use type_reader_io::error::ReaderError;
use type_reader_io::line::split_at_feed;

/// What was read of an input.
#[derive(Drop)]
pub enum Piece {
    /// The rest of a line and its line feed. Whether more is buffered, so that a read does not
    /// wait.
    Line(bool),
    /// All that is buffered, of which the line is a part.
    Part,
    /// Nothing: the input is at its end.
    End,
}

/// The error of a read that failed.
fn read_error(error: &io::Error) -> ReaderError
    ensures { IsReadError result }
{
    match error.kind() {
        ErrorKind::OutOfMemory => ReaderError::Memory,
        _ => ReaderError::Input,
    }
}

/// Reads the input on, up to a line feed or the end of what is buffered; where nothing is, reads
/// first. What comes before the line feed is appended to the line.
///
/// Errors: `Memory`, if an allocation failed; `Input`, if a read fails.
pub fn read_piece<S: BufRead>(second: &mut S, line: &mut Vec<u8>) -> Result<Piece, ReaderError>
    requires { IsWithoutFeed line.old.items }
    ensures ok { IfOk result (λ piece. IsPiece piece (S.remaining second.old)
        (S.remaining second.new) line.old.items line.new.items) }
    ensures without { OnOk result (IsWithoutFeed line.new.items) }
    ensures err { IfErr result IsReadError }
{
    let piece = match second.fill_buf() {
        Ok(piece) => piece,
        Err(e) => {
            if e.kind() == ErrorKind::Interrupted {
                return Ok(Piece::Part);
            }
            return Err(read_error(&e));
        }
    };
    let Some((end, rest)) = split_at_feed(piece) else {
        let length = piece.len();
        line.extend_from_slice(piece)?;
        second.consume(length);
        return Ok(if length > 0 { Piece::Part } else { Piece::End });
    };
    let length = end.len() + 1;
    let more = !rest.is_empty();
    line.extend_from_slice(end)?;
    second.consume(length);
    Ok(Piece::Line(more))
}
