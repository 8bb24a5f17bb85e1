//! Lines on the writer for errors.
ghost use Rattle.std.specs.Io.KnownBytes.{Appends};
ghost use Rattle.std.specs.Prelude.{◌≡◌, OnOk, decimal};
ghost use Rattle.type_table_io.specs.Lines.{line_of, line_with, message_line};
ghost use Rattle.type_table_io.specs.Reports.{AppendsPrefix};

use crate::error::RunError;
use crate::message::Message;
use crate::text::HasText;
use crate::writing::{write_all, write_line};
use itoa::Buffer;
use std::io;
use std::io::Write;

/// Writes the text of a message to a writer for errors. An Ok has written all of it. Does not
/// allocate.
///
/// For example, that of `Message::Usage` is `usage: type_table check | prune ID .. | json`, with a
/// line feed.
///
/// Errors: that of a write or a flush that fails; then a prefix was written.
pub fn report_message<F: Write, M: HasText>(errors: &mut F, message: &M) -> io::Result<()>
    ensures line { AppendsPrefix (F.contents errors.old) (F.contents errors.new)
        (M.text message.now) }
    ensures whole { OnOk result (Appends (F.contents errors.old) (F.contents errors.new)
        (M.text message.now)) }
{
    message.write_text(errors)
}

impl HasText for Message {
    ghost text = { message_line };

    fn write_text<F: Write>(&self, errors: &mut F) -> io::Result<()> {
        match self {
            Message::Usage => report(errors, b"usage: type_table check | prune ID .. | json\n"),
            Message::Refused(error) => error.write_text(errors),
        }
    }
}

impl HasText for RunError {
    ghost text = { line_of };

    fn write_text<F: Write>(&self, errors: &mut F) -> io::Result<()> {
        match self {
            RunError::Malformed => report(errors, b"type_table: malformed\n"),
            RunError::TrailingBytes => report(errors, b"type_table: trailing bytes\n"),
            RunError::NoSuchType(id) => report_number(errors, "type_table: no such type ", *id),
            RunError::Dangling(id) => report_number(errors, "type_table: dangling id ", *id),
            RunError::Memory => report(errors, b"type_table: out of memory\n"),
            RunError::Input => report(errors, b"type_table: input failed\n"),
            RunError::Output => report(errors, b"type_table: output failed\n"),
        }
    }
}

/// Writes bytes to the writer for errors. An Ok has written all of them. Does not allocate.
///
/// Errors: as those of [`report_message`].
pub fn report<F: Write>(errors: &mut F, text: &[u8]) -> io::Result<()>
    ensures line { AppendsPrefix (F.contents errors.old) (F.contents errors.new) text.now }
    ensures whole { OnOk result (Appends (F.contents errors.old) (F.contents errors.new) text.now) }
{
    write_all(errors, text)?;
    errors.flush()
}

/// Writes a text, a number and a line feed to the writer for errors. An Ok has written all of it.
/// Does not allocate.
///
/// Errors: as those of [`report_message`].
pub fn report_number<F: Write>(errors: &mut F, text: &str, number: u32) -> io::Result<()>
    ensures line { AppendsPrefix (F.contents errors.old) (F.contents errors.new)
        (line_with text.now (decimal number)) }
    ensures whole { OnOk result (Appends (F.contents errors.old) (F.contents errors.new)
        (line_with text.now (decimal number))) }
{
    let mut buffer = Buffer::new();
    report_line(errors, text, buffer.format(number))
}

/// Writes two texts and a line feed to the writer for errors. An Ok has written all of it. Does not
/// allocate.
///
/// Errors: as those of [`report_message`].
pub fn report_line<F: Write>(errors: &mut F, text: &str, end: &str) -> io::Result<()>
    ensures line { AppendsPrefix (F.contents errors.old) (F.contents errors.new)
        (line_with text.now end.now) }
    ensures whole { OnOk result (Appends (F.contents errors.old) (F.contents errors.new)
        (line_with text.now end.now)) }
{
    write_line(errors, text, end)?;
    errors.flush()
}
