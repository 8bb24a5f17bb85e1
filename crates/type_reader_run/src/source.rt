//! What is noted of an input.
ghost use Rattle.std.specs.Prelude.{◌≡◌, ◌++◌, IfOk, codes, decimal};
ghost use Rattle.scale_info_table_describe.specs.TypeNames.{Appends};
ghost use Rattle.type_reader_run.specs.Tables.{source_line, source_text};

use itoa::Buffer;
use scale_info_table_metadata::metadata::Source;
use std::alloc::{AllocError, Global};

/// Appends the words for metadata of this version.
fn append_version(out: &mut String, version: u8) -> Result<(), AllocError>
    ensures { Appends result out.old out.new (codes "metadata of version " ++ decimal version) }
{
    let mut buffer = Buffer::new();
    out.push_str("metadata of version ")?;
    out.push_str(buffer.format(version as u32))
}

/// Appends what bytes that have a table are, in words.
fn append_source(out: &mut String, source: Source) -> Result<(), AllocError>
    ensures { Appends result out.old out.new (source_text source) }
{
    match source {
        Source::Table => out.push_str("a table"),
        Source::Metadata(version) => append_version(out, version),
    }
}

/// The line that says what an input is.
///
/// Errors: an allocation failed.
pub fn source_line(
    alloc: Global,
    source: Source,
    is_hexadecimal: bool,
) -> Result<Vec<u8>, AllocError>
    ensures { IfOk result (λ line. line.items ≡ source_line source is_hexadecimal) }
{
    let mut line = String::new(alloc);
    line.push_str("input: ")?;
    append_source(&mut line, source)?;
    if is_hexadecimal {
        line.push_str(", in hexadecimal digits")?;
    }
    line.push_str("\n")?;
    Ok(line.into_bytes())
}
