//! The program over any readers and any writers.
ghost use Rattle.std.specs.Prelude.{◌≡◌, ◌≢◌, ◌≤◌, ◌⊎◌, IfSome, IfOk, IfErr, IsNone, IsSome};
ghost use Rattle.std.specs.Prelude.{IsSomeAnd, OnOk};
ghost use Rattle.std.specs.Io.KnownBytes.{IsAtEnd, Keeps};
ghost use Rattle.type_reader_io.specs.Lines.{HasSmallNumber, line_of, usage_line};
ghost use Rattle.type_reader_io.specs.declared.error.ReaderError.{ReaderError as ReaderErrorValue};
ghost use Rattle.type_reader_io.specs.declared.error.ReaderError.TheVariants as reader_error;
ghost use Rattle.type_reader_run.specs.Conversions.{HasType, IsTypeError};
ghost use Rattle.type_reader_run.specs.Outputs.{WritesWhole};
ghost use Rattle.type_reader_run.specs.Refusals.{Explains};
ghost use Rattle.type_reader_io.specs.Reports.{ReportsEach};
ghost use Rattle.type_reader_run.specs.Runs.{Does, Ends, EndsSecond, IsRefusedFor, IsSo};
ghost use Rattle.type_reader_run.specs.Runs.{KeepsSecond, Refuses};
ghost use Rattle.type_reader_run.specs.Tables.{input_bytes};
ghost use Rattle.type_table_io.specs.Reports.{AppendsPrefix, Reported};

use crate::compare::compare;
use crate::convert::converter_of;
use crate::output::output_of;
use crate::reading::{read_input, read_whole};
use crate::table::{TableInput, input_of, table_in};
use scale_info_collections::text::Text;
use std::alloc::Global;
use std::io::{BufRead, Read, Write};
use type_reader_io::command::{Command, Conversion, Request};
use type_reader_io::error::ReaderError;
use type_reader_io::message::Message;
use type_reader_io::reporter::{ErrorWriter, Reporter};
use type_reader_io::writing::write_output;
use type_reader_lines::{Converter, convert_lines};

/// Reads the input whole, writes what the request writes for it, and returns the notes.
///
/// The output is made whole before anything of it is written.
fn perform<R: Read, W: Write>(
    alloc: Global,
    request: &Request,
    reader: &mut R,
    output: &mut W,
) -> Result<Vec<u8>, ReaderError>
    ensures ok { IfOk result (λ notes. WritesWhole request.now (R.remaining reader.old)
        (W.contents output.old) (W.contents output.new) notes.items) }
    ensures end { OnOk result (IsAtEnd (R.remaining reader.new)) }
    ensures err { IfErr result (Explains request.now (R.remaining reader.old)
        (W.contents output.old) (W.contents output.new)) }
{
    let input = input_of(alloc, read_input(alloc, reader)?)?;
    let made = output_of(alloc, request, &input)?;
    write_output(output, made.bytes.as_slice())?;
    Ok(made.notes)
}

/// What converts values of the type that the text gives of the table of an input.
///
/// Errors: there is no table, or not one such type; `Memory`, if an allocation failed.
fn converter_in(
    alloc: Global,
    conversion: Conversion,
    text: &Text,
    input: &TableInput,
) -> Result<Converter, ReaderError>
    ensures ok { IfOk result (λ converter.
        HasType input.now.bytes.items text.now converter.registry converter.id) }
    ensures way { IfOk result (λ converter. converter.conversion ≡ conversion) }
    ensures err { IfErr result (IsTypeError input.now.bytes.items text.now) }
{
    let table = table_in(input)?;
    converter_of(alloc, conversion, table, text)
}

/// Reads the input whole; returns what converts values of the type that the text gives of its
/// table.
///
/// Errors: as [`converter_in`]; `Input`, if a read fails.
fn read_converter<R: Read>(
    alloc: Global,
    conversion: Conversion,
    text: &Text,
    reader: &mut R,
) -> Result<Converter, ReaderError>
    ensures ok { IfOk result (λ converter. IfSome (R.remaining reader.old) (λ bytes.
        HasType (input_bytes bytes) text.now converter.registry converter.id)) }
    ensures way { IfOk result (λ converter. converter.conversion ≡ conversion) }
    ensures end { OnOk result (IsAtEnd (R.remaining reader.new)) }
    ensures err { IfErr result (λ e. (e ≡ reader_error.Input)
        ⊎ IfSome (R.remaining reader.old) (λ bytes. IsTypeError (input_bytes bytes) text.now e)) }
{
    let input = read_whole(alloc, reader)?;
    converter_in(alloc, conversion, text, &input)
}

/// Does what a command asks. It is true where that was done, no line was bad, and nothing changed.
///
/// Errors: why the command is refused, which is not reported yet.
fn run_command<R: Read, S: BufRead, W: Write, T: Reporter<Message>>(
    alloc: Global,
    command: &Command<'_>,
    reader: &mut R,
    second: &mut S,
    output: &mut W,
    reporter: &mut T,
) -> Result<bool, ReaderError>
    ensures ok { IfOk result (λ is_done. Ends is_done command.now
        (R.remaining reader.old) (S.remaining second.old)
        (W.contents output.old) (W.contents output.new)
        (ReportsEach T.reported reporter.old reporter.new)) }
    ensures err { IfErr result (IsRefusedFor T.reported command.now
        (R.remaining reader.old) (S.remaining second.old)
        (W.contents output.old) (W.contents output.new)
        reporter.old reporter.new) }
    ensures read { OnOk result (IsAtEnd (R.remaining reader.new)) }
    ensures second_kept { KeepsSecond command.now second.old second.new }
    ensures second_read { OnOk result
        (EndsSecond command.now (S.remaining second.old) (S.remaining second.new)) }
{
    match command {
        Command::Once(request) => {
            let notes = perform(alloc, request, reader, output)?;
            if !notes.is_empty() {
                reporter.report(Message::Notes(notes));
            }
            Ok(true)
        }
        Command::Lines(conversion, text) => {
            let converter = read_converter(alloc, *conversion, text, reader)?;
            convert_lines(&converter, second, output, reporter)
        }
        Command::Diff(comparison) => compare(alloc, comparison, reader, second, output),
    }
}

/// Runs the command as [`run`], and gives its messages to any reporter in the place of a writer for
/// errors.
///
/// The status is that of [`run`]. The reporter is given the usage line at status 2, and at status 0
/// the notes, if there are any. At status 1 it is given a line for each bad line, and then the
/// error's, if there is one; where tables were compared and something changed, it is given nothing.
/// What the clauses say of a message is its text.
pub fn run_with<R: Read, S: BufRead, W: Write, T: Reporter<Message>>(
    alloc: Global,
    command: Option<&Command<'_>>,
    reader: &mut R,
    second: &mut S,
    output: &mut W,
    reporter: &mut T,
) -> u8
    ensures status { result ≤ 2 }

    // No command: nothing is read, and nothing is written to the output.
    ensures usage { result ≡ 2 → IsNone command.entry }
    ensures command { result ≢ 2 → IsSome command.entry }
    ensures unread { result ≡ 2 → (reader.new ≡ reader.old) × (second.new ≡ second.old) }
    ensures unwritten { result ≡ 2 → output.new ≡ output.old }
    ensures usage_reported { result ≡ 2 → T.reported reporter.old reporter.new usage_line }

    // The second input is read only where the command has no last argument, or compares tables.
    ensures second_unread { result ≢ 2 → IsSomeAnd command.entry
        (λ command. KeepsSecond command.now second.old second.new) }

    // A command that was done: the inputs were read to their ends, the output grew by exactly what
    // the command writes for them, and the notes were reported.
    ensures read { result ≡ 0 → IsAtEnd (R.remaining reader.new) }
    ensures second_read { result ≡ 0 → IsSomeAnd command.entry
        (λ command. EndsSecond command.now (S.remaining second.old) (S.remaining second.new)) }
    ensures done { result ≡ 0 → IsSomeAnd command.entry (λ command. Does command.now
        (R.remaining reader.old) (S.remaining second.old)
        (W.contents output.old) (W.contents output.new)
        (ReportsEach T.reported reporter.old reporter.new)) }

    // A command that is refused, or of which lines are bad: what was reported is so.
    ensures refused { result ≡ 1 → IsSomeAnd command.entry (λ command. Refuses command.now
        (R.remaining reader.old) (S.remaining second.old)
        (W.contents output.old) (W.contents output.new)
        (ReportsEach T.reported reporter.old reporter.new)) }
{
    let Some(command) = command else {
        reporter.report(Message::Usage);
        return 2;
    };
    match run_command(alloc, command, reader, second, output, reporter) {
        Ok(true) => 0,
        Ok(false) => 1,
        Err(error) => {
            reporter.report(Message::Refused(error));
            1
        }
    }
}

/// Runs the command that the program's arguments name, as `command_of` finds it, and returns the
/// status.
///
/// The reader gives what TABLE or OLD names, which the caller has opened; it is read to its end. It
/// must be a table, with nothing after it, or a node's metadata, or such bytes in hexadecimal
/// digits. The commands, by the arguments that name them:
///
/// - `table TABLE`: the bytes of the table are written to the output, and a line that says what the
///   input is to `errors`.
/// - `strip TABLE`: the table is written with all docs left out, and such a line to `errors`.
/// - `list TABLE [TYPE ..]`: the types are written as Rust declares them, each after a line with
///   its id and its path; all types, where none is given.
/// - `find TABLE PATTERN`: a line with its id and its path is written for each type in whose path
///   the segments of the pattern, its pieces around `::`, stand in a row.
/// - `prune TABLE TYPE ..`: the table of what the types reach is written, and a line of each old id
///   that is kept and its new one to `errors`.
/// - `graph TABLE TYPE ..`: what the types reach is written as a graph in the DOT language, which
///   Graphviz draws.
/// - `diff [--docs] OLD NEW [PATH ..]`: a line is written for each path of types that are only in
///   the table of OLD, `- PATH`, only in that of NEW, `+ PATH`, or in both and not the same,
///   `~ PATH: WHY`: first the paths of the old table, in order, and then the added ones. Where
///   paths are given, only the lines of these are written. Docs count only after `--docs`. WHY is
///   the first line of a declaration that differs, `OLD -> NEW`, after the path of the type that it
///   declares, where that is not the first type with PATH; with the colon it is left out where no
///   declaration differs, or one of the types reaches an id that is no index.
/// - `value TABLE TYPE [HEX]`: the JSON text of the value of the type that the hexadecimal digits
///   write, and a line feed, are written.
/// - `encode TABLE TYPE [JSON]`: the hexadecimal digits of the encoding of the value of the type
///   that the JSON text gives, after `0x`, and a line feed, are written.
///
/// A type is given by its id, which is one ASCII digit or more, of a number up to 4294967295, or
/// else by its path, which gives each type that has it.
///
/// Where `value` or `encode` has no last argument, each line of `second` is one value, and TABLE is
/// not `-`. A line ends with a line feed, which the last one may lack; a carriage return before a
/// line feed is no part of the line. The outputs of the lines that are read are written before the
/// program waits for more of `second`. A bad line has no output, and is reported by its number,
/// counted from 1; the lines after it are still converted. For `diff`, `second` gives what NEW
/// names, which is as OLD must be, and is read to its end; one of the two at most is `-`. The other
/// commands read nothing of `second`.
///
/// The status is 0 if that was done, no line was bad, and nothing changed. It is 2 if there is no
/// command: then nothing is read, no memory is asked for, and the usage line is written to `errors`.
/// It is 1 if something changed, as
/// the lines on the output say; or if a line was bad, or an error came up: then these lines are
/// written to `errors`, and nothing to the output but what good lines give.
///
/// - `type_reader: malformed`: there is no table in the input, or in one of two.
/// - `type_reader: trailing bytes`: the input is no metadata, and bytes come after its table.
/// - `type_reader: metadata of version N`: N is none of 14, 15 and 16.
/// - `type_reader: no such type N`: N is a given id, and no index of the table.
/// - `type_reader: no such path PATH`: no type has this path; where tables are compared, of either.
/// - `type_reader: several types with path PATH`: one type is to be given.
/// - `type_reader: no value: no hexadecimal digits`, or `no JSON`, `no such type`, `unsupported`,
///   `too deep`, `malformed`, `trailing bytes` or `mismatch` in their place: the last argument
///   gives no value of the type.
/// - `type_reader: line N: no value: mismatch`, or one of the others: the line N is bad.
/// - `type_reader: dangling id N`: N is reached from the given types, or an entry of a table that
///   is compared refers to it, and it is no index of the table.
/// - `type_reader: out of memory`: an allocation failed.
/// - `type_reader: input failed`: a read failed, or an input did not end within 4294967296 reads.
/// - `type_reader: output failed`: a write or a flush of the output failed. Where no lines are
///   converted, this line alone may come after a prefix of the output was written.
///
/// Each line ends with a line feed. If it can't be written, the status is the same.
pub fn run<R: Read, S: BufRead, W: Write, F: Write>(
    alloc: Global,
    command: Option<&Command<'_>>,
    reader: &mut R,
    second: &mut S,
    output: &mut W,
    errors: &mut F,
) -> u8
    ensures status { result ≤ 2 }

    // No command: nothing is read, and nothing is written but the usage line.
    ensures usage { result ≡ 2 → IsNone command.entry }
    ensures command { result ≢ 2 → IsSome command.entry }
    ensures unread { result ≡ 2 → (reader.new ≡ reader.old) × (second.new ≡ second.old) }
    ensures unwritten { result ≡ 2 → output.new ≡ output.old }
    ensures usage_reported { result ≡ 2
        → AppendsPrefix (F.contents errors.old) (F.contents errors.new) usage_line }

    // The second input is read only where the command has no last argument, or compares tables.
    ensures second_unread { result ≢ 2 → IsSomeAnd command.entry
        (λ command. KeepsSecond command.now second.old second.new) }

    // A command that was done: the inputs were read to their ends, the output grew by exactly what
    // the command writes for them, and `errors` by the notes, or a prefix of them.
    ensures read { result ≡ 0 → IsAtEnd (R.remaining reader.new) }
    ensures second_read { result ≡ 0 → IsSomeAnd command.entry
        (λ command. EndsSecond command.now (S.remaining second.old) (S.remaining second.new)) }
    ensures done { result ≡ 0 → IsSomeAnd command.entry (λ command. Does command.now
        (R.remaining reader.old) (S.remaining second.old)
        (W.contents output.old) (W.contents output.new)
        (ReportsEach AppendsPrefix (F.contents errors.old) (F.contents errors.new))) }

    // A command that is refused, or of which lines are bad: what is reported is so, and of each
    // text a prefix was written.
    ensures refused { result ≡ 1 → IsSomeAnd command.entry (λ command. Refuses command.now
        (R.remaining reader.old) (S.remaining second.old)
        (W.contents output.old) (W.contents output.new)
        (ReportsEach AppendsPrefix (F.contents errors.old) (F.contents errors.new))) }
    ensures explained { (error : ReaderErrorValue) → HasSmallNumber error
        → Reported (F.contents errors.old) (F.contents errors.new) (line_of error)
        → IsSomeAnd command.entry (λ command. IsSo command.now
        (R.remaining reader.old) (S.remaining second.old)
        (W.contents output.old) (W.contents output.new) error) }
{
    let mut reporter = ErrorWriter { errors };
    let status = run_with(alloc, command, reader, second, output, &mut reporter);
    // No effect at run time. The proof reads what `errors` holds from this use.
    let _ = &*reporter.errors;
    status
}
