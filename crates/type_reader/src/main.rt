//! The program `type_reader`: reads a table of descriptions of types from a file or from the
//! standard input, and writes what a command makes of it to the standard output. Where a command
//! converts lines, they are those of the standard input. Where it compares two tables, the second
//! one is read from a file or from the standard input too.
#![tactic(auto)]

mod color;
mod help;
mod source;

use crate::color::Painter;
use crate::help::help_of;
use crate::source::TableSource;
use scale_info_collections::text::Text;
use std::env::VarError;
use std::io::{BufRead, BufReader, ErrorKind, Input, IsTerminal, Write};
use std::process::ExitCode;
use std::{env, io};
use type_reader_io::command::{Command, Comparison, Request, command_of};
use type_reader_run::run;

/// How many bytes of lines are read at once, where there are as many.
const BUFFER_SIZE: usize = 65536;

/// The arguments after the program's name.
fn arguments_of(rt: &HostRuntime) -> io::Result<Vec<Text>> {
    let mut arguments = Vec::new(rt.alloc());
    for argument in env::args(rt)?.skip(1) {
        arguments.push(Text::from(argument))?;
    }
    Ok(arguments)
}

/// Runs the command over these inputs and this output, and returns the exit code.
fn run_to<S: BufRead, W: Write>(
    rt: &HostRuntime,
    command: Option<&Command<'_>>,
    table: &mut TableSource,
    second: &mut S,
    output: &mut W,
) -> ExitCode {
    let mut errors = rt.stderr();
    ExitCode::from(run(rt.alloc(), command, table, second, output, &mut errors))
}

/// Whether the output is a terminal that shows types, and the variable `NO_COLOR` is not set.
fn is_painted(rt: &HostRuntime, command: Option<&Command<'_>>) -> bool {
    let is_list = matches!(command, Some(Command::Once(Request::List(_))));
    if !is_list || !rt.stdout().is_terminal() {
        return false;
    }
    match env::var(rt, "NO_COLOR") {
        Ok(value) => value.is_empty(),
        Err(error) => error == VarError::NotPresent,
    }
}

/// Runs the command over these inputs, and returns the exit code.
fn run_over<S: BufRead>(
    rt: &HostRuntime,
    command: Option<&Command<'_>>,
    mut table: TableSource,
    second: &mut S,
) -> ExitCode {
    if is_painted(rt, command) {
        let mut output = Painter::new(rt.stdout());
        return run_to(rt, command, &mut table, second, &mut output);
    }
    run_to(rt, command, &mut table, second, &mut rt.stdout())
}

/// Says that an allocation failed, and returns the exit code.
fn out_of_memory(rt: &HostRuntime) -> ExitCode {
    let _ = rt.stderr().write_all(b"type_reader: out of memory\n");
    ExitCode::FAILURE
}

/// Writes a help text to the output, and returns the exit code.
fn print_help(rt: &HostRuntime, text: &str) -> ExitCode {
    match rt.stdout().write_all(text.as_bytes()) {
        Ok(()) => ExitCode::SUCCESS,
        Err(_) => {
            let _ = rt.stderr().write_all(b"type_reader: output failed\n");
            ExitCode::FAILURE
        }
    }
}

/// Runs the command that compares two tables, and returns the exit code.
fn run_diff(
    rt: &HostRuntime,
    command: Option<&Command<'_>>,
    comparison: &Comparison<'_>,
) -> ExitCode {
    let old = TableSource::of_name(rt, comparison.old.as_str());
    match BufReader::new(
        rt.alloc(),
        TableSource::of_name(rt, comparison.new.as_str()),
    ) {
        Ok(mut new) => run_over(rt, command, old, &mut new),
        Err(_) => out_of_memory(rt),
    }
}

fn main(rt: HostRuntime) -> ExitCode {
    let arguments = match arguments_of(&rt) {
        Ok(arguments) => arguments,
        Err(e) => {
            if e.kind() == ErrorKind::OutOfMemory {
                return out_of_memory(&rt);
            }
            // An argument that is not UTF-8: no command has one, so `run` prints the usage line.
            Vec::new(rt.alloc())
        }
    };
    if let Some(text) = help_of(&arguments) {
        return print_help(&rt, text);
    }
    let found = command_of(&arguments);
    let command = found.as_ref();
    if let Some(Command::Diff(comparison)) = command {
        return run_diff(&rt, command, comparison);
    }
    let table = TableSource::of_arguments(&rt, &arguments, command);
    if matches!(command, Some(Command::Lines(..))) {
        let second = BufReader::with_capacity(rt.alloc(), BUFFER_SIZE, rt.stdin());
        if let Ok(mut second) = second {
            return run_over(&rt, command, table, &mut second);
        }
    }
    // Nothing is read, or it is read without a buffer, where there is no memory for one.
    run_over(&rt, command, table, &mut rt.reader())
}
