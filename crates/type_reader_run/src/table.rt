//! The table of an input.
ghost use Rattle.std.specs.Prelude.{◌≡◌, IfOk, IfErr};
ghost use Rattle.scale_info_grammar.specs.Ty.{EncodesTypes};
ghost use Rattle.scale_info_table_metadata.specs.TablesFound.{IsTableOf};
ghost use Rattle.type_reader_io.specs.declared.error.ReaderError.TheVariants as reader_error;
ghost use Rattle.type_reader_run.specs.Tables.{HasTable, IsFoundError, IsOneTable, error_of};
ghost use Rattle.type_reader_run.specs.Tables.{input_bytes, is_hexadecimal};

use scale_info_table::portable::PortableRegistry;
use scale_info_table_metadata::hexadecimal::bytes_of_text;
use scale_info_table_metadata::metadata::{MetadataError, Source, table_of};
use std::alloc::{AllocError, Global};
use type_reader_io::error::ReaderError;

/// An input.
#[derive(Drop)]
pub struct TableInput {
    /// Its bytes: those that it writes in hexadecimal digits, or its own.
    pub bytes: Vec<u8>,
    /// Whether it writes them in hexadecimal digits.
    pub is_hexadecimal: bool,
}

/// The input that has these bytes of its own.
///
/// Errors: an allocation failed.
pub fn input_of(alloc: Global, input: Vec<u8>) -> Result<TableInput, AllocError>
    ensures bytes { IfOk result (λ found. found.bytes.items ≡ input_bytes input.items) }
    ensures form { IfOk result (λ found. found.is_hexadecimal ≡ is_hexadecimal input.items) }
{
    match bytes_of_text(alloc, &input)? {
        Some(bytes) => Ok(TableInput {
            bytes,
            is_hexadecimal: true,
        }),
        None => Ok(TableInput {
            bytes: input,
            is_hexadecimal: false,
        }),
    }
}

/// The program's error for one of finding a table.
fn error_of(error: MetadataError) -> ReaderError
    ensures { result ≡ error_of error }
{
    match error {
        MetadataError::Version(version) => ReaderError::Version(version),
        MetadataError::Malformed => ReaderError::Malformed,
        MetadataError::Trailing => ReaderError::TrailingBytes,
    }
}

/// What the bytes are, and those of their table. Nothing is allocated.
///
/// Errors: `Version`, where they are metadata of a version that is not read; `TrailingBytes`, where
/// they are no metadata and more comes after their table; `Malformed`, where there is no table in
/// them.
pub fn find_table(bytes: &[u8]) -> Result<(Source, &[u8]), ReaderError>
    ensures ok { IfOk result (λ found. IsTableOf bytes.now found.0 found.1.now) }
    ensures table { IfOk result (λ found. IsOneTable found.1.now) }
    ensures err { IfErr result (IsFoundError bytes.now) }
{
    match table_of(bytes) {
        Ok(found) => Ok(found),
        Err(error) => Err(error_of(error)),
    }
}

/// The bytes of the table of an input. Nothing is allocated.
///
/// Errors: as those of [`find_table`].
pub fn table_in(input: &TableInput) -> Result<&[u8], ReaderError>
    ensures ok { IfOk result (λ table. HasTable input.now.bytes.items table.now) }
    ensures table { IfOk result (λ table. IsOneTable table.now) }
    ensures err { IfErr result (IsFoundError input.now.bytes.items) }
{
    let (_, table) = find_table(&input.bytes)?;
    Ok(table)
}

/// The descriptions of a table.
///
/// Errors: `Memory`, if an allocation failed.
pub fn registry_of(alloc: Global, table: &[u8]) -> Result<PortableRegistry, ReaderError>
    requires { IsOneTable table.now }
    ensures ok { IfOk result (λ registry. EncodesTypes registry.types table.now) }
    ensures err { IfErr result (λ e. e ≡ reader_error.Memory) }
{
    match PortableRegistry::decode(alloc, table) {
        Ok((registry, _)) => Ok(registry),
        Err(_) => Err(ReaderError::Memory),
    }
}
