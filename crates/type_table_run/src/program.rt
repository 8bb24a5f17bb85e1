//! The program over any reader and any writers.
ghost use Rattle.std.specs.Prelude.{◌≡◌, ◌≢◌, ◌≤◌, ℕ, Err, IfSome, IfErr, IsOk, OnOk};
ghost use Rattle.std.specs.Io.KnownBytes.{IsAtEnd, Keeps};
ghost use Rattle.scale_info_bytes.specs.Encodings.{HasNoPrefix};
ghost use Rattle.scale_info_grammar.specs.Ty.{EncodesTypes};
ghost use Rattle.scale_info_table_prune.specs.Prunes.{HasDangling, HasNoSuchType};
ghost use Rattle.scale_info_table_prune.specs.TableIndexes.{HasTrailing};
ghost use Rattle.type_table_io.specs.Commands.{HasCommand, HasIdTexts, IsCommand, given_ids};
ghost use Rattle.type_table_io.specs.Lines.{line_of, usage_line};
ghost use Rattle.type_table_io.specs.declared.error.RunError.{RunError};
ghost use Rattle.type_table_io.specs.declared.error.RunError.TheVariants as run_error;
ghost use Rattle.type_table_io.specs.declared.message.Message.TheVariants as messages;
ghost use Rattle.type_table_run.specs.Outputs.{Writes, WritesPrefix};
ghost use Rattle.type_table_run.specs.Refusals.{Explains, Refuses, Says};
ghost use Rattle.type_table_io.specs.Reports.{AppendsPrefix, Reported};

use crate::output::output_of;
use scale_info_collections::text::Text;
use std::alloc::Global;
use std::io::{Read, Write};
use type_table_io::command::{Command, command_of};
use type_table_io::error::RunError;
use type_table_io::message::Message;
use type_table_io::reading::read_to_end;
use type_table_io::report::report_message;
use type_table_io::writing::write_all;

/// Reads the input whole, and writes what the command writes for it.
///
/// The output is made whole before anything of it is written.
fn perform<R: Read, W: Write>(
    alloc: Global,
    command: &Command,
    reader: &mut R,
    output: &mut W,
) -> Result<(), RunError>
    requires { HasIdTexts command.now }
    ensures ok { OnOk result (IfSome (R.remaining reader.old)
        (Writes command.now (W.contents output.old) (W.contents output.new))) }
    ensures end { OnOk result (IsAtEnd (R.remaining reader.new)) }
    ensures err { IfErr result (Explains command.now (R.remaining reader.old)
        (W.contents output.old) (W.contents output.new)) }
{
    let input = read_to_end(alloc, reader)?;
    let bytes = output_of(alloc, command, input)?;
    if write_all(output, &bytes).is_err() {
        return Err(RunError::Output);
    }
    match output.flush() {
        Ok(()) => Ok(()),
        Err(_) => Err(RunError::Output),
    }
}

/// Runs the command that the arguments name, as [`run`], and returns its message.
///
/// Errors: [`Message::Usage`], where the arguments name no command: then nothing was read, and
/// nothing written. [`Message::Refused`] with the error that came up.
pub fn outcome<R: Read, W: Write>(
    alloc: Global,
    arguments: &[Text],
    reader: &mut R,
    output: &mut W,
) -> Result<(), Message>
    // The command was done: the output grew by exactly what it writes for the input.
    ensures done { OnOk result (HasCommand arguments.now (λ command.
        IfSome (R.remaining reader.old)
        (Writes command (W.contents output.old) (W.contents output.new)))) }
    ensures read { OnOk result (IsAtEnd (R.remaining reader.new)) }

    // It was not: what the message says is so.
    ensures says { IfErr result (Says arguments.now (R.remaining reader.old)
        (W.contents output.old) (W.contents output.new)) }
    ensures unread { IfErr result (λ message. message ≡ messages.Usage
        → reader.new ≡ reader.old) }
    ensures unwritten { IfErr result (λ message. message ≡ messages.Usage
        → output.new ≡ output.old) }
{
    let Some(command) = command_of(arguments) else {
        return Err(Message::Usage);
    };
    match perform(alloc, &command, reader, output) {
        Ok(()) => Ok(()),
        Err(error) => Err(Message::Refused(error)),
    }
}

/// Writes the line of a run's message, if it has one, and returns its status.
///
/// If the line can't be written, the status is the same.
fn report_outcome<F: Write>(outcome: &Result<(), Message>, errors: &mut F) -> u8
    ensures status { result ≤ 2 }
    ensures done { result ≡ 0 → IsOk outcome.now × (errors.new ≡ errors.old) }
    ensures usage { result ≡ 2 → (outcome.now ≡ Err messages.Usage)
        × AppendsPrefix (F.contents errors.old) (F.contents errors.new) usage_line }
    ensures refused { result ≡ 1 → (error : RunError) × (outcome.now ≡ Err (messages.Refused error))
        × AppendsPrefix (F.contents errors.old) (F.contents errors.new) (line_of error) }
{
    let Err(message) = outcome else {
        return 0;
    };
    let _ = report_message(errors, message);
    match message {
        Message::Usage => 2,
        Message::Refused(_) => 1,
    }
}

/// Runs the command that the arguments name, and returns the status.
///
/// The arguments are looked at before anything is read and before memory is asked for. The input
/// is then read to its end, and must be one table with nothing after it. The commands:
///
/// - `check`: the input is written to the output again.
/// - `prune ID ..`: the table of what the given ids reach is written to the output. The ids are
///   taken in ascending order, each once. An id is one ASCII digit or more, of a number up to
///   4294967295; zeros may lead.
/// - `json`: the compact JSON text of the table and a line feed are written to the output.
///
/// The status is 0 if that was done. It is 2 if the arguments are not a command: then the usage
/// line is written to `errors`. It is 1 if an error came up: then one of these lines is written to
/// `errors`, and nothing to the output.
///
/// - `type_table: malformed`: no prefix of the input is a table.
/// - `type_table: trailing bytes`: bytes come after the table.
/// - `type_table: no such type N`: N is the first given id that is no index of the table.
/// - `type_table: dangling id N`: N is reached from the given ids, and is no index of the table.
/// - `type_table: out of memory`: an allocation failed.
/// - `type_table: input failed`: a read failed, or the input did not end within 4294967296 reads.
/// - `type_table: output failed`: a write or a flush of the output failed. This line alone may come
///   after a prefix of the output was written.
///
/// Each line ends with a line feed. If it can't be written, the status is the same.
pub fn run<R: Read, W: Write, F: Write>(
    alloc: Global,
    arguments: &[Text],
    reader: &mut R,
    output: &mut W,
    errors: &mut F,
) -> u8
    ensures status { result ≤ 2 }

    // Arguments that name no command: nothing is read, and nothing is written but the usage line.
    ensures usage { result ≡ 2 → ¬ IsCommand arguments.now }
    ensures command { result ≢ 2 → IsCommand arguments.now }
    ensures unread { result ≡ 2 → reader.new ≡ reader.old }
    ensures unwritten { result ≡ 2 → output.new ≡ output.old }
    ensures usage_reported { result ≡ 2
        → AppendsPrefix (F.contents errors.old) (F.contents errors.new) usage_line }

    // A command that was done: the output grew by exactly what the command writes for the input.
    ensures read { result ≡ 0 → IsAtEnd (R.remaining reader.new) }
    ensures done { result ≡ 0 → HasCommand arguments.now (λ command. IfSome (R.remaining reader.old)
        (Writes command (W.contents output.old) (W.contents output.new))) }
    ensures unreported { result ≡ 0 → errors.new ≡ errors.old }

    // A command that is refused reports one error, and what it reports is so.
    ensures refused { result ≡ 1 → HasCommand arguments.now (λ command. Refuses command
        (R.remaining reader.old) (W.contents output.old) (W.contents output.new)
        (F.contents errors.old) (F.contents errors.new)) }
    ensures malformed { Reported (F.contents errors.old) (F.contents errors.new)
        (line_of run_error.Malformed)
        → IfSome (R.remaining reader.old) (HasNoPrefix EncodesTypes)
        × Keeps (W.contents output.old) (W.contents output.new) }
    ensures trailing_bytes { Reported (F.contents errors.old) (F.contents errors.new)
        (line_of run_error.TrailingBytes)
        → IfSome (R.remaining reader.old) HasTrailing
        × Keeps (W.contents output.old) (W.contents output.new) }
    ensures no_such_type { (id : ℕ) → id ≤ 4294967295
        → Reported (F.contents errors.old) (F.contents errors.new)
        (line_of (run_error.NoSuchType id))
        → HasCommand arguments.now (λ command. IfSome (R.remaining reader.old)
        (λ input. HasNoSuchType input (given_ids command) id))
        × Keeps (W.contents output.old) (W.contents output.new) }
    ensures dangling { (id : ℕ) → id ≤ 4294967295
        → Reported (F.contents errors.old) (F.contents errors.new)
        (line_of (run_error.Dangling id))
        → HasCommand arguments.now (λ command. IfSome (R.remaining reader.old)
        (λ input. HasDangling input (given_ids command) id))
        × Keeps (W.contents output.old) (W.contents output.new) }
    ensures out_of_memory { Reported (F.contents errors.old) (F.contents errors.new)
        (line_of run_error.Memory)
        → Keeps (W.contents output.old) (W.contents output.new) }
    ensures input_failed { Reported (F.contents errors.old) (F.contents errors.new)
        (line_of run_error.Input)
        → Keeps (W.contents output.old) (W.contents output.new) }
    ensures output_failed { Reported (F.contents errors.old) (F.contents errors.new)
        (line_of run_error.Output)
        → HasCommand arguments.now (λ command. IfSome (R.remaining reader.old)
        (WritesPrefix command (W.contents output.old) (W.contents output.new))) }
{
    let outcome = outcome(alloc, arguments, reader, output);
    report_outcome(&outcome, errors)
}
