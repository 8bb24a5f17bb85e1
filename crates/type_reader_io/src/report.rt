//! Messages on the writer for errors.
ghost use Rattle.std.specs.Io.KnownBytes.{Appends};
ghost use Rattle.std.specs.Prelude.{◌≡◌, OnOk};
ghost use Rattle.type_reader_io.specs.Lines.{bad_line, fault_text, line_of, message_text};
ghost use Rattle.type_table_io.specs.Reports.{AppendsPrefix};

use crate::error::{ReaderError, ValueFault};
use crate::message::Message;
use itoa::Buffer;
use std::io;
use std::io::Write;
pub use type_table_io::report::report_message;
use type_table_io::report::{report, report_line, report_number};
use type_table_io::text::HasText;
use type_table_io::writing::{write_all, write_line};

const USAGE: &str = "usage: type_reader table TABLE | strip TABLE | list TABLE [TYPE ..] | \
    find TABLE PATTERN | prune TABLE TYPE .. | graph TABLE TYPE .. | \
    diff [--docs] OLD NEW [PATH ..] | value TABLE TYPE [HEX] | encode TABLE TYPE [JSON]\n";

impl HasText for Message {
    ghost text = { message_text };

    fn write_text<F: Write>(&self, errors: &mut F) -> io::Result<()> {
        match self {
            Message::Usage => report(errors, USAGE.as_bytes()),
            Message::Refused(error) => error.write_text(errors),
            Message::Notes(notes) => report(errors, notes),
            Message::BadLine(number, fault) => report_bad_line(errors, *number, *fault),
        }
    }
}

/// Writes the line of a line that gives no value to the writer for errors. An Ok has written the
/// whole line. Does not allocate.
///
/// Errors: as those of [`report_message`].
fn report_bad_line<F: Write>(errors: &mut F, number: u64, fault: ValueFault) -> io::Result<()>
    ensures line { AppendsPrefix (F.contents errors.old) (F.contents errors.new)
        (bad_line number fault) }
    ensures whole { OnOk result (Appends (F.contents errors.old) (F.contents errors.new)
        (bad_line number fault)) }
{
    write_bad_line(errors, number, fault)?;
    errors.flush()
}

/// Writes the line of a line that gives no value. An Ok has written all of it.
///
/// Errors: that of a write that fails; then a prefix was written.
fn write_bad_line<W: Write>(writer: &mut W, number: u64, fault: ValueFault) -> io::Result<()>
    ensures line { AppendsPrefix (W.contents writer.old) (W.contents writer.new)
        (bad_line number fault) }
    ensures whole { OnOk result (Appends (W.contents writer.old) (W.contents writer.new)
        (bad_line number fault)) }
{
    let mut buffer = Buffer::new();
    write_all(writer, b"type_reader: line ")?;
    write_all(writer, buffer.format(number).as_bytes())?;
    write_line(writer, ": no value: ", fault_text(fault))
}

impl HasText for ReaderError {
    ghost text = { line_of };

    fn write_text<F: Write>(&self, errors: &mut F) -> io::Result<()> {
        match self {
            ReaderError::Malformed => report(errors, b"type_reader: malformed\n"),
            ReaderError::Version(version) => {
                report_number(errors, "type_reader: metadata of version ", *version as u32)
            }
            ReaderError::TrailingBytes => report(errors, b"type_reader: trailing bytes\n"),
            ReaderError::NoSuchType(id) => report_number(errors, "type_reader: no such type ", *id),
            ReaderError::NoSuchPath(path) => {
                report_line(errors, "type_reader: no such path ", path.as_str())
            }
            ReaderError::SharedPath(path) => {
                report_line(
                    errors,
                    "type_reader: several types with path ",
                    path.as_str(),
                )
            }
            ReaderError::NoValue(fault) => {
                report_line(errors, "type_reader: no value: ", fault_text(*fault))
            }
            ReaderError::Dangling(id) => report_number(errors, "type_reader: dangling id ", *id),
            ReaderError::Input => report(errors, b"type_reader: input failed\n"),
            ReaderError::Output => report(errors, b"type_reader: output failed\n"),
            ReaderError::Memory => report(errors, b"type_reader: out of memory\n"),
        }
    }
}

/// Why a text gives no value, in words.
fn fault_text(fault: ValueFault) -> &'static str
    ensures { result.now ≡ fault_text fault }
{
    match fault {
        ValueFault::NoDigits => "no hexadecimal digits",
        ValueFault::NoJson => "no JSON",
        ValueFault::NoSuchType => "no such type",
        ValueFault::Unsupported => "unsupported",
        ValueFault::TooDeep => "too deep",
        ValueFault::Malformed => "malformed",
        ValueFault::TrailingBytes => "trailing bytes",
        ValueFault::Mismatch => "mismatch",
    }
}
