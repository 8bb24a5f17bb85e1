//! The index of a whole table, and the writing of the entries that are kept.
ghost use Rattle.std.specs.Prelude.{◌≡◌, ◌<◌, ◌≤◌, List, All, IfOk, IfErr, OnOk, OnErr, length};
ghost use Rattle.scale_info_bytes.specs.Encodings.{HasNoPrefix};
ghost use Rattle.scale_info_passes.specs.Entries.{AreAtOffsets, HasEntriesAt};
ghost use Rattle.scale_info_passes.specs.Visits.{renumbered};
ghost use Rattle.scale_info_types.specs.declared.ty.PortableType.{PortableType};
ghost use Rattle.scale_info_table_prune.specs.Prunes.{IsTableError};
ghost use Rattle.scale_info_table_prune.specs.TableIndexes.{AppendsKeptTable, IsTableIndex};

use crate::prune::PruneError;
use scale_info_bytes::integer::{decode_compact, encode_compact};
use scale_info_passes::entries::{EntryIndex, index_entries, renumber_entries};
use scale_info_walk::walk::Renumbering;
use std::alloc::{AllocError, Global};

/// The number of entries of a table, its bytes after that number, and where the entries are.
///
/// Errors: `Malformed`, where no prefix of the input is a table; `Trailing`, where bytes come after
/// it; `Memory`, where an allocation failed.
pub(crate) fn index_table(
    alloc: Global,
    input: &[u8],
) -> Result<(u32, &[u8], EntryIndex), PruneError>
    ensures ok { IfOk result (λ found. (types : List PortableType)
        × IsTableIndex types found.0 input.now found.1.now
        found.2.offsets.items found.2.starts.items found.2.references.items) }
    ensures err { IfErr result (IsTableError input.now) }
{
    let Some((count, body)) = decode_compact(input) else {
        return Err(PruneError::Malformed);
    };
    let Some((index, rest)) = index_entries(alloc, count, body)? else {
        return Err(PruneError::Malformed);
    };
    if !rest.is_empty() {
        return Err(PruneError::Trailing);
    }
    Ok((count, body, index))
}

/// Appends the table of the entries in an order, each with its new id and new references.
///
/// Errors: `AllocError`, where an allocation failed; then the output is as before.
pub(crate) fn append_kept(
    alloc: Global,
    body: &[u8],
    index: &EntryIndex,
    found: &Renumbering,
    out: &mut Vec<u8>,
) -> Result<(), AllocError>
    requires offsets { HasEntriesAt body.now index.now.offsets.items }
    requires within { All (λ entry. entry < length index.now.offsets.items) found.now.order.items }
    requires few { length found.now.order.items ≤ 4294967295 }
    ensures ok { OnOk result ((entries : List PortableType) →
        AreAtOffsets body.now entries index.now.offsets.items →
        AppendsKeptTable entries (renumbered found.now.numbers.items) found.now.order.items
        out.old.items out.new.items) }
    ensures err { OnErr result (out.new.items ≡ out.old.items) }
{
    let start = out.len();
    encode_compact(out, found.order.len() as u32)?;
    let appended = renumber_entries(
        alloc,
        body,
        &index.offsets,
        &found.numbers,
        &found.order,
        out,
    );
    if appended.is_err() {
        out.truncate(start);
    }
    appended
}
