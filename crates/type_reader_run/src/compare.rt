//! Two inputs, read whole, and what changed between their tables, written whole.
ghost use Rattle.std.specs.Prelude.{[], IfErr, IfOk, IsFalse, IsTrue, OnOk};
ghost use Rattle.std.specs.Io.KnownBytes.{IsAtEnd};
ghost use Rattle.type_reader_run.specs.Differences.{ExplainsDiff, WritesChanges};
ghost use Rattle.type_reader_run.specs.Differences.{WritesSomeChange};

use crate::diff::lines_between;
use crate::reading::read_whole;
use std::alloc::Global;
use std::io::{Read, Write};
use type_reader_io::command::Comparison;
use type_reader_io::error::ReaderError;
use type_reader_io::writing::write_output;

/// Reads both inputs whole, and writes the lines of what changed between their tables. Whether
/// nothing did.
///
/// The output is made whole before anything of it is written.
pub fn compare<R: Read, S: Read, W: Write>(
    alloc: Global,
    comparison: &Comparison<'_>,
    reader: &mut R,
    second: &mut S,
    output: &mut W,
) -> Result<bool, ReaderError>
    ensures same { IfOk result (λ same. IsTrue same → WritesChanges comparison.now
        (R.remaining reader.old) (S.remaining second.old)
        (W.contents output.old) (W.contents output.new) []) }
    ensures changed { IfOk result (λ same. IsFalse same → WritesSomeChange comparison.now
        (R.remaining reader.old) (S.remaining second.old)
        (W.contents output.old) (W.contents output.new)) }
    ensures end { OnOk result (IsAtEnd (R.remaining reader.new)) }
    ensures second_end { OnOk result (IsAtEnd (S.remaining second.new)) }
    ensures err { IfErr result (ExplainsDiff comparison.now
        (R.remaining reader.old) (S.remaining second.old)
        (W.contents output.old) (W.contents output.new)) }
{
    let old = read_whole(alloc, reader)?;
    let new = read_whole(alloc, second)?;
    let lines = lines_between(alloc, comparison, &old, &new)?;
    if lines.is_empty() {
        return Ok(true);
    }
    write_output(output, &lines)?;
    Ok(false)
}
