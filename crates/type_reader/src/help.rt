//! The help texts of the program.

use scale_info_collections::text::Text;

/// What the program is for, with a line for each command.
const PROGRAM: &str = "\
type_reader reads a node's metadata or a table of its types, and values by it.

usage: type_reader COMMAND TABLE ..

TABLE is a file, or - for the standard input: metadata of the versions 14 to 16, a table alone, or
either in hexadecimal digits. TYPE is an id, or the path of a type.

  list TABLE [TYPE ..]            types, as Rust declares them
  find TABLE PATTERN              the ids and paths of types, by a part of the path
  value TABLE TYPE [HEX]          the JSON text of a value
  encode TABLE TYPE [JSON]        the bytes of a value
  diff [--docs] OLD NEW [PATH ..] what changed between two tables
  prune TABLE TYPE ..             the table of what some types reach
  strip TABLE                     the table without docs
  table TABLE                     the table alone
  graph TABLE TYPE ..             what some types reach, as a graph

type_reader COMMAND --help says more of a command, with an example.
";

/// The help text of `table`.
const TABLE: &str = "\
usage: type_reader table TABLE

Writes the bytes of the table, and to the standard error what the input is.

  type_reader table samples/metadata.hex > types.scale
";

/// The help text of `strip`.
const STRIP: &str = "\
usage: type_reader strip TABLE

Writes the bytes of the table with all docs left out, and to the standard error what the input is.

  type_reader strip samples/chain.hex > short.scale
";

/// The help text of `list`.
const LIST: &str = "\
usage: type_reader list TABLE [TYPE ..]

Writes types as Rust declares them, each after a line with its id and its path: those that are
named, in that order; or all, first those that have a path and then the others.

  type_reader list samples/chain.hex demo::Account
";

/// The help text of `find`.
const FIND: &str = "\
usage: type_reader find TABLE PATTERN

Writes the id and the path of each type in whose path the segments of the pattern stand in a row.

  type_reader find samples/chain.hex demo
";

/// The help text of `prune`.
const PRUNE: &str = "\
usage: type_reader prune TABLE TYPE ..

Writes the table of what the types reach, and to the standard error a line with the old id and the
new one of each type that is kept.

  type_reader prune samples/chain.hex demo::Call > calls.scale
";

/// The help text of `graph`.
const GRAPH: &str = "\
usage: type_reader graph TABLE TYPE ..

Writes what the types reach in the DOT language, which Graphviz draws.

  type_reader graph samples/chain.hex demo::Call | dot -Tsvg > calls.svg
";

/// The help text of `diff`.
const DIFF: &str = "\
usage: type_reader diff [--docs] OLD NEW [PATH ..]

Writes a line for each path of types that only the old table has (-), that only the new one has
(+), or that both have and that changed (~, and why): those of the given paths, or all. Docs count
only after --docs, which stands before the tables. The status is 1 where something changed.

  type_reader diff samples/chain.hex samples/chain_next.hex
";

/// The help text of `value`.
const VALUE: &str = "\
usage: type_reader value TABLE TYPE [HEX]

Writes the JSON text of the value of this type whose encoding is given in hexadecimal digits.
Without them each line of the standard input is one, and a line that is none is reported.

  type_reader value samples/chain.hex demo::AccountId 0x01020304
";

/// The help text of `encode`.
const ENCODE: &str = "\
usage: type_reader encode TABLE TYPE [JSON]

Writes the encoding of the value of this type that the JSON text gives, in hexadecimal digits.
Without it each line of the standard input is one, and a line that is none is reported.

  type_reader encode samples/chain.hex demo::Call '{\"remark\":{\"text\":\"hello\"}}'
";

/// Whether an argument asks for help.
fn asks(argument: &Text) -> bool {
    matches!(argument.as_str(), "--help" | "-h")
}

/// The help text of a command; None where no command has this word.
fn help_of_command(word: &str) -> Option<&'static str> {
    match word {
        "table" => Some(TABLE),
        "strip" => Some(STRIP),
        "list" => Some(LIST),
        "find" => Some(FIND),
        "prune" => Some(PRUNE),
        "graph" => Some(GRAPH),
        "diff" => Some(DIFF),
        "value" => Some(VALUE),
        "encode" => Some(ENCODE),
        _ => None,
    }
}

/// The help text that the arguments ask for: that of the program by `--help` or `help`, and that of
/// a command by its word and `--help`; None where they ask for none.
pub fn help_of(arguments: &[Text]) -> Option<&'static str> {
    match arguments {
        [word] if asks(word) || word.as_str() == "help" => Some(PROGRAM),
        [word, question] if asks(question) => help_of_command(word.as_str()),
        _ => None,
    }
}
