//! An input, converted line by line.
ghost use Rattle.std.specs.Prelude.{◌≡◌, ◌∷◌, [], IfErr, IfOk, IsFalse, IsTrue, OnErr, OnOk};
ghost use Rattle.type_reader_io.specs.Inputs.{IsWithoutFeed};
ghost use Rattle.type_reader_io.specs.Reports.{ReportsEach};
ghost use Rattle.type_reader_io.specs.declared.error.ReaderError.TheVariants as reader_error;
ghost use Rattle.type_reader_lines.specs.Outcomes.{HasConvertedLines, HasStopped};
ghost use Rattle.type_reader_lines.specs.Steps.{Converts, HasConvertedAll, HasConvertedRead};
ghost use Rattle.type_reader_lines.specs.Steps.{HasStoppedRead, HasWritten, IsFirst, Stops};
ghost use Rattle.type_table_io.specs.Reports.{AppendsPrefix};

use crate::convert::Converter;
use crate::reading::{Piece, read_piece};
use scale_info_hexadecimal::digits::Digits;
use std::alloc::Global;
use std::io::{BufRead, Write};
use type_reader_io::error::{LineError, ReaderError};
use type_reader_io::line::without_return;
use type_reader_io::message::Message;
use type_reader_io::reporter::Reporter;
use type_reader_io::writing::write_output;

/// The most bytes of output that wait for the next line to be converted.
const MOST_PENDING: usize = 65536;

/// How far the lines are converted.
#[derive(Drop)]
pub struct Progress {
    /// How many lines were converted.
    pub count: u64,
    /// Whether none of them is bad.
    pub is_good: bool,
    /// The output of lines that is not written yet.
    pub pending: Vec<u8>,
    /// Buffers for the digits of a value.
    pub digits: Digits,
}

impl Progress {
    /// Before the first line.
    fn new(alloc: Global) -> Progress
        ensures { IsFirst result }
    {
        Progress {
            count: 0,
            is_good: true,
            pending: Vec::new(alloc),
            digits: Digits::new(alloc),
        }
    }
}

/// Writes the pending output, where there is more of it than this.
///
/// Errors: `Output`, if a write or a flush fails; then a prefix was written.
fn write_beyond<W: Write>(
    output: &mut W,
    pending: &mut Vec<u8>,
    most: usize,
) -> Result<(), ReaderError>
    ensures ok { OnOk result (HasWritten pending.old.items pending.new.items
        (W.contents output.old) (W.contents output.new)) }
    ensures all { OnOk result (most ≡ 0 → pending.new.items ≡ []) }
    ensures err { OnErr result
        (AppendsPrefix (W.contents output.old) (W.contents output.new) pending.old.items) }
    ensures error { IfErr result (λ e. e ≡ reader_error.Output) }
{
    if pending.len() > most {
        write_output(output, pending)?;
        pending.clear();
    }
    Ok(())
}

/// Converts one line: its output becomes pending; or what is pending is written, and it is reported
/// that the line is bad.
///
/// Errors: `Memory`, if an allocation failed; `Output`, if a write or a flush fails; `Input`, if
/// the line has no number.
fn convert_line<W: Write, T: Reporter<Message>>(
    converter: &Converter,
    line: &[u8],
    progress: &mut Progress,
    output: &mut W,
    reporter: &mut T,
) -> Result<(), ReaderError>
    ensures ok { OnOk result (Converts converter.now (line.now ∷ []) progress.old progress.new
        (W.contents output.old) (W.contents output.new)
        (ReportsEach T.reported reporter.old reporter.new)) }
    ensures err { IfErr result (Stops converter.now [] progress.old progress.new
        (W.contents output.old) (W.contents output.new)
        (ReportsEach T.reported reporter.old reporter.new)) }
{
    let Some(number) = progress.count.checked_add(1) else {
        return Err(ReaderError::Input);
    };
    match converter.append_line(line, &mut progress.digits, &mut progress.pending) {
        Ok(()) => {}
        Err(LineError::Fault(fault)) => {
            write_beyond(output, &mut progress.pending, 0)?;
            reporter.report(Message::BadLine(number, fault));
            progress.is_good = false;
        }
        Err(LineError::Memory) => return Err(ReaderError::Memory),
    }
    progress.count = number;
    Ok(())
}

/// Reads a piece of the input, and converts the line that ends in it. What is pending is written
/// before a read that may wait. It is false at the end of the input.
///
/// Errors: as [`read_piece`] and [`convert_line`].
fn convert_piece<S: BufRead, W: Write, T: Reporter<Message>>(
    converter: &Converter,
    second: &mut S,
    line: &mut Vec<u8>,
    progress: &mut Progress,
    output: &mut W,
    reporter: &mut T,
) -> Result<bool, ReaderError>
    requires { IsWithoutFeed line.old.items }
    ensures more { IfOk result (λ more. IsTrue more → HasConvertedRead converter.now
        (S.remaining second.old) (S.remaining second.new) line.old.items line.new.items
        progress.old progress.new (W.contents output.old) (W.contents output.new)
        (ReportsEach T.reported reporter.old reporter.new)) }
    ensures without { IfOk result (λ more. IsTrue more → IsWithoutFeed line.new.items) }
    ensures end { IfOk result (λ more. IsFalse more → HasConvertedAll converter.now
        (S.remaining second.old) (S.remaining second.new) line.old.items
        progress.old progress.new (W.contents output.old) (W.contents output.new)
        (ReportsEach T.reported reporter.old reporter.new)) }
    ensures err { IfErr result (HasStoppedRead converter.now (S.remaining second.old)
        line.old.items progress.old progress.new (W.contents output.old) (W.contents output.new)
        (ReportsEach T.reported reporter.old reporter.new)) }
{
    match read_piece(second, line)? {
        Piece::Line(more) => {
            convert_line(converter, without_return(line), progress, output, reporter)?;
            line.clear();
            let most = if more { MOST_PENDING } else { 0 };
            write_beyond(output, &mut progress.pending, most)?;
            Ok(true)
        }
        Piece::Part => {
            write_beyond(output, &mut progress.pending, 0)?;
            Ok(true)
        }
        Piece::End => {
            if line.is_empty() {
                return Ok(false);
            }
            convert_line(converter, line, progress, output, reporter)?;
            Ok(false)
        }
    }
}

/// Converts each line of the input, up to its end or an error. What is pending is not written at
/// the end.
///
/// Errors: as [`convert_piece`]; `Input`, if the input does not end.
fn convert_input<S: BufRead, W: Write, T: Reporter<Message>>(
    converter: &Converter,
    second: &mut S,
    progress: &mut Progress,
    output: &mut W,
    reporter: &mut T,
) -> Result<(), ReaderError>
    ensures ok { OnOk result (HasConvertedAll converter.now
        (S.remaining second.old) (S.remaining second.new) [] progress.old progress.new
        (W.contents output.old) (W.contents output.new)
        (ReportsEach T.reported reporter.old reporter.new)) }
    ensures err { IfErr result (HasStoppedRead converter.now (S.remaining second.old) []
        progress.old progress.new (W.contents output.old) (W.contents output.new)
        (ReportsEach T.reported reporter.old reporter.new)) }
{
    let mut line = Vec::new(converter.alloc);
    for _ in 0..u64::MAX {
        if !convert_piece(converter, second, &mut line, progress, output, reporter)? {
            return Ok(());
        }
    }
    Err(ReaderError::Input)
}

/// Converts each line of the second input. The outputs of the lines that are read are written
/// before the program waits for more of the input. Whether no line is bad.
///
/// For example, where a `u16` is decoded, of the lines `0x2a00`, `0x2a` and `0x2b00` the output
/// grows by the lines `42` and `43`, and line 2 is reported as malformed.
///
/// Errors: `Memory`, if an allocation failed; `Input`, if a read fails; `Output`, if a write or a
/// flush fails. The lines before that were converted.
pub fn convert_lines<S: BufRead, W: Write, T: Reporter<Message>>(
    converter: &Converter,
    second: &mut S,
    output: &mut W,
    reporter: &mut T,
) -> Result<bool, ReaderError>
    ensures ok { IfOk result (HasConvertedLines converter.now
        (S.remaining second.old) (S.remaining second.new)
        (W.contents output.old) (W.contents output.new)
        (ReportsEach T.reported reporter.old reporter.new)) }
    ensures err { IfErr result (HasStopped converter.now (S.remaining second.old)
        (W.contents output.old) (W.contents output.new)
        (ReportsEach T.reported reporter.old reporter.new)) }
{
    let mut progress = Progress::new(converter.alloc);
    match convert_input(converter, second, &mut progress, output, reporter) {
        Ok(()) => {
            write_beyond(output, &mut progress.pending, 0)?;
            Ok(progress.is_good)
        }
        Err(error) => match error {
            // A write failed, so nothing more is written.
            ReaderError::Output => Err(ReaderError::Output),
            error => {
                write_beyond(output, &mut progress.pending, 0)?;
                Err(error)
            }
        },
    }
}
