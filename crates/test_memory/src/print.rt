//! Reads a value out of bytes by a table, and prints it.
use scale_info::value::{Value, decode_value};
use scale_info::{Items, PortableRegistry, Text};
use std::alloc::Global;
use std::io;
use std::io::Write;

/// How deep a printed value goes: as deep as a decoded one.
const VALUE_DEPTH: u8 = 128;

/// Prints the value of the type with this id that the input begins with, and returns the rest.
pub fn print_decoded<'a, W: Write>(
    alloc: Global,
    table: &PortableRegistry,
    id: u32,
    input: &'a [u8],
    output: &mut W,
) -> anyhow::Result<&'a [u8]> {
    let (value, rest) = decode_value(alloc, table, id, input)?;
    print_value(&value, VALUE_DEPTH, output)?;
    Ok(rest)
}

/// Prints a value, this many values deep.
#[cycle(print)]
fn print_value<W: Write>(value: &Value, depth: u8, output: &mut W) -> io::Result<()> {
    if depth == 0 {
        return write!(output, "..");
    }
    match value {
        Value::Bool(truth) => write!(output, "{truth}"),
        Value::Unsigned(number) => write!(output, "{number}"),
        Value::Signed(number) => write!(output, "{number}"),
        Value::Text(text) => write!(output, "\"{}\"", text.as_str()),
        Value::List(values) => print_values(values, depth - 1, output),
        Value::Record(fields) => print_fields(fields, depth - 1, output),
        Value::Variant { name, fields, .. } => {
            write!(output, "{} ", name.as_str())?;
            print_fields(fields, depth - 1, output)
        }
    }
}

/// Prints values in brackets, with commas between them.
#[cycle(print)]
fn print_values<W: Write>(values: &Items<Value>, depth: u8, output: &mut W) -> io::Result<()> {
    write!(output, "[")?;
    if let Some((first, more)) = values.as_slice().split_first() {
        print_value(first, depth, output)?;
        for value in more {
            write!(output, ", ")?;
            print_value(value, depth, output)?;
        }
    }
    write!(output, "]")
}

/// Prints fields in braces, with commas between them.
#[cycle(print)]
fn print_fields<W: Write>(
    fields: &Items<(Option<Text>, Value)>,
    depth: u8,
    output: &mut W,
) -> io::Result<()> {
    write!(output, "{{")?;
    if let Some((first, more)) = fields.as_slice().split_first() {
        print_field(first, depth, output)?;
        for field in more {
            write!(output, ", ")?;
            print_field(field, depth, output)?;
        }
    }
    write!(output, "}}")
}

/// Prints a field: its name, if it has one, and its value.
#[cycle(print)]
fn print_field<W: Write>(
    field: &(Option<Text>, Value),
    depth: u8,
    output: &mut W,
) -> io::Result<()> {
    let (name, value) = field;
    if let Some(name) = name {
        write!(output, "{}: ", name.as_str())?;
    }
    print_value(value, depth, output)
}
