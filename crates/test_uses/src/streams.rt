//! The program over readers and writers that are slow, are interrupted, or fail at each byte.
use crate::asserts::{holds, is};
use crate::runs::{expected, refused, run_from, run_words, wrote};
use std::alloc::Global;
use std::process::Abort;
use std::test::Fail;
use test_common::chains::chain_to_bool;
use test_common::encodings::into_encoding;
use test_common::parts::texts;
use test_common::rows::{MIXED, row_bytes};
use test_common::streams::{HaltingReader, HaltingWriter, InterruptedReader};

/// The commands, a line for each.
const COMMANDS: &str = "\
check
prune 17 1 9
json
";

/// Asserts that nothing is written where reading fails after any number of bytes.
fn reads_fail(rt: &impl Abort, alloc: Global, words: &str, input: &[u8]) -> Result<(), Fail> {
    let wanted = refused(alloc, "input failed")?;
    for end in 0..input.len() + 1 {
        let mut reader = HaltingReader::failing(&input[..end]);
        is(rt, words, &run_from(alloc, words, &mut reader)?, &wanted);
    }
    Ok(())
}

/// Asserts that a writer with this much room gets as much of the output, and that the status and
/// the line are these.
fn ends_so(
    rt: &impl Abort,
    alloc: Global,
    words: &str,
    input: &[u8],
    output: &[u8],
    room: usize,
    ends: (u8, &str),
) -> Result<(), Fail> {
    let (mut reader, mut writer) = (input, HaltingWriter::new(alloc, room));
    let (status, line) = run_words(alloc, words, &mut reader, &mut writer)?;
    is(rt, words, (status, line.as_str()), ends);
    let wanted = &output[..room.min(output.len())];
    is(rt, words, writer.taken.as_slice(), wanted);
    Ok(())
}

/// Asserts that the first bytes of the output are written where writing fails after these. A writer
/// that is just full fails at its flush, and one that has room for one more byte does not.
fn writes_fail(rt: &impl Abort, alloc: Global, words: &str, input: &[u8]) -> Result<(), Fail> {
    let output = expected(alloc, words, input)?.output;
    let fails = (1, "type_table: output failed\n");
    for room in 0..output.len() + 1 {
        ends_so(rt, alloc, words, input, &output, room, fails)?;
    }
    ends_so(rt, alloc, words, input, &output, output.len() + 1, (0, ""))
}

#[test]
fn failing_reads_and_writes_are_reported(rt: HostRuntime) -> Result<(), Fail> {
    let input = row_bytes(rt.alloc(), MIXED)?;
    for words in COMMANDS.lines() {
        reads_fail(&rt, rt.alloc(), words, &input)?;
        writes_fail(&rt, rt.alloc(), words, &input)?;
    }
    Ok(())
}

/// The encoding has 294340 bytes, and a buffer 64 KiB. It is read at once, byte by byte, and in
/// pieces, each after an interruption.
#[test]
fn a_table_may_be_longer_than_a_buffer(rt: HostRuntime) -> Result<(), Fail> {
    let large = into_encoding(rt.alloc(), chain_to_bool(rt.alloc(), 30000)?)?;
    let wanted = wrote(rt.alloc(), &large)?;
    for piece in [1, 40000, 300000] {
        let mut reader = HaltingReader::ending(&large, piece);
        let run = run_from(rt.alloc(), "check", &mut reader)?;
        holds(&rt, "large", run == wanted);
    }
    Ok(())
}

/// This shows only that many interruptions do not end the reading. The limit of 4294967296 reads,
/// past which the line is `input failed`, takes too long for a test.
#[test]
fn a_million_interrupted_reads_are_tried_again(rt: HostRuntime) -> Result<(), Fail> {
    let mut reader = InterruptedReader { left: 1000000 };
    let run = run_from(rt.alloc(), "check", &mut reader)?;
    is(&rt, "interrupted", run, refused(rt.alloc(), "malformed")?);
    Ok(())
}

/// A run that is refused: its arguments, its input, its status and its line.
type Refusal = (&'static [&'static str], &'static [u8], u8, &'static str);

const USAGE: &str = "usage: type_table check | prune ID .. | json\n";

/// Runs that are refused, of which none has a longer line than the usage.
const REFUSALS: [Refusal; 3] = [
    (&["check"], &[4], 1, "type_table: malformed\n"),
    (&["prune"], &[4], 2, USAGE),
    (
        &["prune", "4294967295"],
        &[0],
        1,
        "type_table: no such type 4294967295\n",
    ),
];

/// Asserts that the line of a run is written as far as there is room, and the status is the same.
fn may_be_cut(rt: &impl Abort, alloc: Global, run: &Refusal, room: usize) -> Result<(), Fail> {
    let (words, mut input, status, line) = *run;
    let arguments = texts(alloc, words)?;
    let (mut output, mut errors) = (Vec::new(alloc), HaltingWriter::new(alloc, room));
    let found = type_table_run::run(alloc, &arguments, &mut input, &mut output, &mut errors);
    is(rt, line, (found, output.len()), (status, 0));
    let wanted = &line.as_bytes()[..room.min(line.len())];
    is(rt, line, errors.taken.as_slice(), wanted);
    Ok(())
}

#[test]
fn a_line_that_cannot_be_written_changes_no_status(rt: HostRuntime) -> Result<(), Fail> {
    for run in &REFUSALS {
        for room in 0..USAGE.len() + 2 {
            may_be_cut(&rt, rt.alloc(), run, room)?;
        }
    }
    Ok(())
}
