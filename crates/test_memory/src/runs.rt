//! Runs of the program `type_table` over bytes that are read one by one, with interruptions.
use scale_info::Text;
use std::alloc::{AllocError, Global};
use std::test::Fail;
use test_common::parts::text;
use test_common::streams::HaltingReader;
use test_memory_common::answers::{Answer, done};
use test_memory_common::inputs::bytes_of;
use test_memory_common::marks::{begin, end};
use test_memory_common::outcomes::Outcome;
use type_table_run::{Message, outcome, report_message};

/// The argument of a word: `''` is empty, and `1_` ends with a blank.
fn argument(word: &str) -> &str {
    match word {
        "''" => "",
        "1_" => "1 ",
        _ => word,
    }
}

/// The arguments that blanks separate.
fn arguments(alloc: Global, words: &str) -> Result<Vec<Text>, AllocError> {
    let mut all = Vec::new(alloc);
    for word in words.split_whitespace() {
        all.push(text(alloc, argument(word))?)?;
    }
    Ok(all)
}

/// What was written: bytes, or a text of JSON and the byte after it.
fn written(alloc: Global, output: &[u8]) -> Result<String, Fail> {
    match output.split_last() {
        Some((last, text)) if output.starts_with(b"{") => {
            let last = hex::encode(alloc, &[*last])?;
            let text = str::from_utf8(text)?;
            Ok(format!(in alloc; "{text} {last}")?)
        }
        _ => Ok(hex::encode(alloc, output)?),
    }
}

/// The status, and the line of the message without its line feed.
fn ended(alloc: Global, outcome: Result<(), Message>) -> Result<Answer, Fail> {
    let Err(message) = outcome else {
        return Ok(done(format!(in alloc; "0"))?);
    };
    let status = match &message {
        Message::Usage => 2,
        Message::Refused(_) => 1,
    };
    let mut line = Vec::new(alloc);
    report_message(&mut line, &message)?;
    let line = str::from_utf8(line.as_slice())?;
    let line = line.trim_end();
    Ok(Answer::Failed(format!(in alloc; "{status} {line}")?))
}

/// Runs the program with these arguments.
fn run_over(rt: &HostRuntime, words: &str, mut reader: HaltingReader) -> Result<Outcome, Fail> {
    let arguments = arguments(rt.alloc(), words)?;
    let mut output = Vec::with_capacity(rt.alloc(), 4096)?;
    begin(rt);
    let outcome = outcome(rt.alloc(), &arguments, &mut reader, &mut output);
    end(rt);
    let after = written(rt.alloc(), &output)?;
    let answer = ended(rt.alloc(), outcome)?;
    Outcome::lending(Ok(String::new(rt.alloc())), Ok(after), Ok(answer))
}

/// Runs the program. A row is the arguments, a `<` and the input; without the last two the reader
/// fails when it is asked.
fn run(rt: &HostRuntime, row: &str) -> Result<Outcome, Fail> {
    match row.split_once('<') {
        Some((words, input)) => {
            let bytes = bytes_of(rt.alloc(), input)?;
            run_over(rt, words, HaltingReader::ending(&bytes, 1))
        }
        None => run_over(rt, row, HaltingReader::failing(&[])),
    }
}

/// Makes the call of this name, which runs a program.
pub fn call(rt: &HostRuntime, name: &str, input: &str) -> Result<Outcome, Fail> {
    match name {
        "type_table" => run(rt, input),
        _ => Err(Fail::new("no call has this name")),
    }
}
