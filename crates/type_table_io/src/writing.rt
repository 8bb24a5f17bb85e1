//! Writing whole.
ghost use Rattle.std.specs.Prelude.{OnOk};
ghost use Rattle.std.specs.Io.KnownBytes.{Appends};
ghost use Rattle.type_table_io.specs.Lines.{line_with};
ghost use Rattle.type_table_io.specs.Reports.{AppendsPrefix};

use std::io;
use std::io::{ErrorKind, Write};

/// Writes the bytes, by as many writes as they take.
///
/// A write that was interrupted is tried again. On an Err a prefix of the bytes was written, which
/// may be empty.
///
/// It is written out, since no clause of std's own call says which bytes were written before an
/// error.
///
/// Errors: that of a write that fails; `WriteZero`, if a write takes nothing.
pub fn write_all<W: Write>(writer: &mut W, bytes: &[u8]) -> io::Result<()>
    ensures ok { OnOk result (Appends (W.contents writer.old) (W.contents writer.new) bytes.now) }
    ensures prefix { AppendsPrefix (W.contents writer.old) (W.contents writer.new) bytes.now }
{
    let mut done = 0;
    for _ in 0..u64::MAX {
        if done == bytes.len() {
            return Ok(());
        }
        match writer.write(&bytes[done..]) {
            Ok(0) => return Err(io::Error::from(ErrorKind::WriteZero)),
            Ok(n) => done += n,
            Err(e) => {
                if e.kind() != ErrorKind::Interrupted {
                    return Err(e);
                }
            }
        }
    }
    Err(io::Error::from(ErrorKind::TimedOut))
}

/// Writes two texts and a line feed. An Ok has written all of it. Does not allocate.
///
/// Errors: that of a write that fails; then a prefix was written.
pub fn write_line<W: Write>(writer: &mut W, text: &str, end: &str) -> io::Result<()>
    ensures line { AppendsPrefix (W.contents writer.old) (W.contents writer.new)
        (line_with text.now end.now) }
    ensures whole { OnOk result (Appends (W.contents writer.old) (W.contents writer.new)
        (line_with text.now end.now)) }
{
    write_all(writer, text.as_bytes())?;
    write_all(writer, end.as_bytes())?;
    write_all(writer, b"\n")
}
