//! What is written of a table.
ghost use Rattle.std.specs.Prelude.{◌≡◌, IfOk, IfErr};
ghost use Rattle.scale_info_grammar.specs.Ty.{EncodesTypes};
ghost use Rattle.type_reader_io.specs.declared.error.ReaderError.TheVariants as reader_error;
ghost use Rattle.type_reader_run.specs.Outputs.{IsFinding, IsGraph, IsListing, IsPruning, MakesOf};
ghost use Rattle.type_reader_run.specs.Outputs.{OutputsOf, bytes_of};
ghost use Rattle.type_reader_run.specs.Refusals.{HasSelectionError, IsGraphingError};
ghost use Rattle.type_reader_run.specs.Refusals.{IsMakingError, IsOutputError, IsPruningError};
ghost use Rattle.type_reader_run.specs.Selections.{AreSelected};
ghost use Rattle.type_reader_run.specs.Tables.{IsOneTable, source_line};

use crate::convert::converted;
use crate::graph::graph_of;
use crate::listing::{all_ids, list_of, titles_of};
use crate::pruning::pruned;
use crate::selection::selected;
use crate::source::source_line;
use crate::strip::stripped;
use crate::table::{TableInput, find_table, registry_of};
use scale_info_collections::text::Text;
use scale_info_table::portable::PortableRegistry;
use scale_info_table_describe::search::find_containing;
use scale_info_table_metadata::metadata::Source;
use std::alloc::{AllocError, Global};
use type_reader_io::command::Request;
use type_reader_io::error::ReaderError;

/// The bytes of an output.
#[derive(Drop)]
pub enum OutputBytes<'a> {
    /// They stand in the input.
    Borrowed(&'a [u8]),
    /// They were made.
    Made(Vec<u8>),
}

impl OutputBytes<'_> {
    /// The bytes.
    pub fn as_slice(&self) -> &[u8]
        ensures { result.now ≡ bytes_of self.now }
    {
        match self {
            OutputBytes::Borrowed(bytes) => bytes,
            OutputBytes::Made(bytes) => bytes,
        }
    }
}

/// What is written of a table.
#[derive(Drop)]
pub struct Output<'a> {
    /// The bytes of the output.
    pub bytes: OutputBytes<'a>,
    /// Lines about it, each with a line feed.
    pub notes: Vec<u8>,
}

/// An output of these bytes, of which it is noted what the input is.
fn with_source(
    alloc: Global,
    bytes: OutputBytes<'_>,
    source: Source,
    is_hexadecimal: bool,
) -> Result<Output<'_>, AllocError>
    ensures bytes { IfOk result (λ output. bytes_of output.bytes ≡ bytes_of bytes.entry) }
    ensures notes { IfOk result
        (λ output. output.notes.items ≡ source_line source is_hexadecimal) }
{
    Ok(Output {
        bytes,
        notes: source_line(alloc, source, is_hexadecimal)?,
    })
}

/// The types that the texts give, as Rust declares them; all, where there is no text.
///
/// Errors: as [`selected`].
fn listed(alloc: Global, table: &[u8], texts: &[Text]) -> Result<Vec<u8>, ReaderError>
    requires { IsOneTable table.now }
    ensures ok { IfOk result (λ lines. IsListing table.now texts.now lines.items) }
    ensures err { IfErr result (HasSelectionError table.now texts.now) }
{
    let registry = registry_of(alloc, table)?;
    if texts.is_empty() {
        let ids = all_ids(alloc, &registry)?;
        return Ok(list_of(alloc, &registry, &ids)?);
    }
    let ids = selected(alloc, &registry, texts)?;
    Ok(list_of(alloc, &registry, &ids)?)
}

/// The ids and the paths of the types whose path contains the segments of the pattern.
///
/// Errors: `Memory`, if an allocation failed.
fn found(alloc: Global, table: &[u8], pattern: &Text) -> Result<Vec<u8>, ReaderError>
    requires { IsOneTable table.now }
    ensures ok { IfOk result (λ lines. IsFinding table.now pattern.now lines.items) }
    ensures err { IfErr result (λ e. e ≡ reader_error.Memory) }
{
    let registry = registry_of(alloc, table)?;
    let ids = find_containing(alloc, &registry, pattern.as_str())?;
    Ok(titles_of(alloc, &registry, &ids)?)
}

/// The descriptions of a table, and the ids of the types that the texts give of it.
///
/// Errors: as [`selected`].
fn selected_of(
    alloc: Global,
    table: &[u8],
    texts: &[Text],
) -> Result<(PortableRegistry, Vec<u32>), ReaderError>
    requires { IsOneTable table.now }
    ensures ok { IfOk result (λ found. EncodesTypes found.0.types table.now
        × AreSelected found.0.types texts.now found.1.items) }
    ensures err { IfErr result (HasSelectionError table.now texts.now) }
{
    let registry = registry_of(alloc, table)?;
    let ids = selected(alloc, &registry, texts)?;
    Ok((registry, ids))
}

/// The table of what the types reach that the texts give.
///
/// Errors: as [`selected`] and [`pruned`].
fn pruned_to(alloc: Global, table: &[u8], texts: &[Text]) -> Result<Output<'static>, ReaderError>
    requires { IsOneTable table.now }
    ensures ok { IfOk result
        (λ output. IsPruning table.now texts.now (bytes_of output.bytes) output.notes.items) }
    ensures err { IfErr result (IsPruningError table.now texts.now) }
{
    let (_, ids) = selected_of(alloc, table, texts)?;
    pruned(alloc, table, &ids)
}

/// The graph of what the types reach that the texts give.
///
/// Errors: as [`selected`] and [`graph_of`].
fn graphed(alloc: Global, table: &[u8], texts: &[Text]) -> Result<Vec<u8>, ReaderError>
    requires { IsOneTable table.now }
    ensures ok { IfOk result (λ output. IsGraph table.now texts.now output.items) }
    ensures err { IfErr result (IsGraphingError table.now texts.now) }
{
    let (registry, ids) = selected_of(alloc, table, texts)?;
    graph_of(alloc, &registry, &ids)
}

/// The output of a request for a table, which was found in such an input.
fn output_for<'a>(
    alloc: Global,
    request: &Request,
    source: Source,
    is_hexadecimal: bool,
    table: &'a [u8],
) -> Result<Output<'a>, ReaderError>
    requires { IsOneTable table.now }
    ensures ok { IfOk result (λ output. OutputsOf request.now (source_line source is_hexadecimal)
        table.now (bytes_of output.bytes) output.notes.items) }
    ensures err { IfErr result (IsOutputError request.now table.now) }
{
    let bytes = match request {
        Request::Table => {
            let bytes = OutputBytes::Borrowed(table);
            return Ok(with_source(alloc, bytes, source, is_hexadecimal)?);
        }
        Request::Strip => {
            let bytes = OutputBytes::Made(stripped(alloc, table)?);
            return Ok(with_source(alloc, bytes, source, is_hexadecimal)?);
        }
        Request::Prune(texts) => return pruned_to(alloc, table, texts),
        Request::List(texts) => listed(alloc, table, texts)?,
        Request::Find(pattern) => found(alloc, table, pattern)?,
        Request::Graph(texts) => graphed(alloc, table, texts)?,
        Request::Convert(conversion, text, value) => {
            converted(alloc, *conversion, table, text, value)?
        }
    };
    Ok(Output {
        bytes: OutputBytes::Made(bytes),
        notes: Vec::new(alloc),
    })
}

/// The whole output of a request for an input.
///
/// The input is a table and nothing else, or a node's metadata.
///
/// Errors: `Malformed`, where there is no table in the input; `TrailingBytes`, where it is no
/// metadata and more comes after its table; `Version`, where it is metadata of a version that is
/// not read; `NoSuchType` and `NoSuchPath`, where a given type is none of the table; `Dangling`,
/// where a given type reaches an id that is no index; `SharedPath`, where one type is to be given,
/// and several have its path; `NoValue`, where a text gives no value; `Memory`, if an allocation
/// failed.
pub fn output_of<'a>(
    alloc: Global,
    request: &Request,
    input: &'a TableInput,
) -> Result<Output<'a>, ReaderError>
    ensures ok { IfOk result (λ output. MakesOf request.now input.now.is_hexadecimal
        input.now.bytes.items (bytes_of output.bytes) output.notes.items) }
    ensures err { IfErr result (IsMakingError request.now input.now.bytes.items) }
{
    let (source, table) = find_table(&input.bytes)?;
    output_for(alloc, request, source, input.is_hexadecimal, table)
}
