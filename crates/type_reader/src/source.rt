//! Where a table is read from.

use scale_info_collections::text::Text;
use std::fs::File;
use std::io;
use std::io::{ErrorKind, Read, Stdin};
use type_reader_io::command::Command;

/// Where a table is read from.
#[derive(Drop)]
pub enum TableSource {
    /// A file.
    File(File),
    /// The standard input.
    Stdin(Stdin),
    /// Nothing: the file can't be opened, or there is none to open. Each read fails.
    Missing,
}

impl TableSource {
    /// The table that the second argument names: the standard input for `-`, and else a file. No
    /// file is opened where the arguments name no command.
    pub fn of_arguments(
        rt: &HostRuntime,
        arguments: &[Text],
        command: Option<&Command<'_>>,
    ) -> TableSource {
        match arguments {
            [_, table, ..] if command.is_some() => TableSource::of_name(rt, table.as_str()),
            _ => TableSource::Missing,
        }
    }

    /// The standard input for `-`, and else the file with this name.
    pub fn of_name(rt: &HostRuntime, name: &str) -> TableSource {
        if name == "-" {
            return TableSource::Stdin(rt.stdin());
        }
        match File::open(rt, name) {
            Ok(file) => TableSource::File(file),
            Err(_) => TableSource::Missing,
        }
    }
}

impl Read for TableSource {
    fn read(&mut self, buf: &mut [u8]) -> io::Result<usize> {
        match self {
            TableSource::File(file) => file.read(buf),
            TableSource::Stdin(stdin) => stdin.read(buf),
            TableSource::Missing => Err(io::Error::from(ErrorKind::NotFound)),
        }
    }
}
