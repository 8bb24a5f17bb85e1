//! Pruned tables.
ghost use Rattle.std.specs.Prelude.{◌≡◌, IfOk, IfErr, List, ℕ};
ghost use Rattle.std.specs.List.{flat_map};
ghost use Rattle.scale_info_table_describe.specs.TypeNames.{Appends};
ghost use Rattle.scale_info_table_diff.specs.TableChanges.{IsCompareError};
ghost use Rattle.scale_info_table_prune.specs.Prunes.{IsPruneError};
ghost use Rattle.scale_info_types.specs.declared.ty.PortableType.{PortableType};
ghost use Rattle.type_reader_run.specs.Differences.{IsReferenceError};
ghost use Rattle.type_reader_run.specs.Outputs.{IsPruned, bytes_of, id_line};
ghost use Rattle.type_reader_run.specs.Refusals.{IsReachingError};

use crate::output::{Output, OutputBytes};
use itoa::Buffer;
use scale_info_table_prune::prune::{PruneError, prune};
use std::alloc::{AllocError, Global};
use std::collections::BTreeMap;
use type_reader_io::error::ReaderError;

/// Appends the line of an old id and its new one.
fn append_ids(out: &mut String, old: u32, new: u32) -> Result<(), AllocError>
    ensures { Appends result out.old out.new (id_line (old, new)) }
{
    let mut buffer = Buffer::new();
    out.push_str(buffer.format(old))?;
    out.push_str(" -> ")?;
    out.push_str(buffer.format(new))?;
    out.push_str("\n")
}

/// The lines of old and new ids, by the old ones.
fn lines_of(alloc: Global, new_ids: &BTreeMap<u32, u32>) -> Result<Vec<u8>, AllocError>
    ensures { IfOk result (λ lines. lines.items ≡ flat_map id_line new_ids.now.entries) }
{
    let mut out = String::new(alloc);
    for (old, new) in new_ids {
        append_ids(&mut out, *old, *new)?;
    }
    Ok(out.into_bytes())
}

/// The program's error for one of pruning, or of comparing. Those that don't come here, as what is
/// given is a table, and each id an index of it, are as that of an allocation.
pub fn error_of(error: PruneError) -> ReaderError
    ensures pruning { (table ids : List ℕ) → IsPruneError table ids error
        → IsReachingError table ids result }
    ensures comparing { (types others : List PortableType) → IsCompareError types others error
        → IsReferenceError types others result }
{
    match error {
        PruneError::Dangling(id) => ReaderError::Dangling(id),
        _ => ReaderError::Memory,
    }
}

/// The table of what the ids reach, with a note of each old id and its new one.
///
/// Errors: `Dangling`, where an id is reached that is no index; `Memory`, if an allocation failed.
pub fn pruned(alloc: Global, table: &[u8], ids: &[u32]) -> Result<Output<'static>, ReaderError>
    ensures ok { IfOk result
        (λ output. IsPruned table.now ids.now (bytes_of output.bytes) output.notes.items) }
    ensures err { IfErr result (IsReachingError table.now ids.now) }
{
    let mut bytes = Vec::new(alloc);
    match prune(alloc, table, ids, &mut bytes) {
        Ok(new_ids) => Ok(Output {
            bytes: OutputBytes::Made(bytes),
            notes: lines_of(alloc, &new_ids)?,
        }),
        Err(error) => Err(error_of(error)),
    }
}
