//! Tables as they are compared, and why a path has changed between two of them.
ghost use Rattle.std.specs.Prelude.{◌≡◌, IfErr, IfOk, List, option_map, string_bytes};
ghost use Rattle.scale_info_grammar.specs.Ty.{EncodesTypes};
ghost use Rattle.scale_info_types.specs.declared.ty.PortableType.{PortableType};
ghost use Rattle.type_reader_io.specs.declared.error.ReaderError.TheVariants as reader_error;
ghost use Rattle.type_reader_run.specs.Differences.{IsReason, compared};

use scale_info_collections::text::Text;
use scale_info_table_diff::declarations::declared_change_of;
use scale_info_table_diff::named::NamedTable;
use scale_info_table_diff::tables::without_docs;
use scale_info_table_prune::prune::PruneError;
use std::alloc::{AllocError, Global};
use type_reader_io::command::Docs;
use type_reader_io::error::ReaderError;

/// The bytes of a table as it is compared, by whether docs count.
///
/// Errors: `Memory`, if an allocation failed; what is given is a table.
pub fn compared_bytes(alloc: Global, docs: Docs, table: &[u8]) -> Result<Vec<u8>, ReaderError>
    ensures ok { IfOk result (λ bytes. (types : List PortableType)
        → EncodesTypes types table.now → EncodesTypes (compared docs types) bytes.items) }
    ensures err { IfErr result (λ e. e ≡ reader_error.Memory) }
{
    match docs {
        Docs::LeftOut => match without_docs(alloc, table) {
            Ok(bytes) => Ok(bytes),
            Err(_) => Err(ReaderError::Memory),
        },
        Docs::Compared => {
            let mut bytes = Vec::new(alloc);
            bytes.extend_from_slice(table)?;
            Ok(bytes)
        }
    }
}

/// The table that these bytes are, with its types by their paths.
///
/// Errors: `Memory`, if an allocation failed; what is given is a table.
pub fn named_table(alloc: Global, bytes: &[u8]) -> Result<NamedTable<'_>, ReaderError>
    ensures ok { IfOk result (λ table. EncodesTypes table bytes.now) }
    ensures err { IfErr result (λ e. e ≡ reader_error.Memory) }
{
    match NamedTable::of(alloc, bytes) {
        Ok(table) => Ok(table),
        Err(_) => Err(ReaderError::Memory),
    }
}

/// Why a path has changed between two tables: what they declare otherwise first, from the types
/// with the path on; None, where that is nothing, or where an id is reached that is no index.
///
/// Errors: `AllocError`, if an allocation failed.
pub fn reason_of(
    alloc: Global,
    old: &mut NamedTable<'_>,
    new: &mut NamedTable<'_>,
    path: &Text,
) -> Result<Option<String>, AllocError>
    ensures ok { IfOk result
        (λ reason. IsReason old.old new.old path.now (option_map string_bytes reason)) }
    ensures old { old.new ≡ old.old }
    ensures new { new.new ≡ new.old }
{
    match declared_change_of(alloc, old, new, path) {
        Ok(found) => Ok(found),
        Err(PruneError::Dangling(_)) => Ok(None),
        Err(_) => Err(AllocError),
    }
}
