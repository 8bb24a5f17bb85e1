//! The entries of a table, with no descriptions made.
ghost use Rattle.std.specs.Prelude.{◌≡◌, ◌<◌, ◌≤◌, List, length, IfOk, IfSome, IfNone, OnOk, OnErr};
ghost use Rattle.std.specs.List.{All};
ghost use Rattle.scale_info_types.specs.declared.ty.PortableType.{PortableType};
ghost use Rattle.scale_info_bytes.specs.Encodings.{IsPrefix};
ghost use Rattle.scale_info_grammar.specs.Ty.{EncodesPortableType};
ghost use Rattle.scale_info_bytes.specs.Parts.{HasNoItems};
ghost use Rattle.scale_info_passes.specs.Entries.{AreAtOffsets, HasEntriesAt, IsEntryIndex};
ghost use Rattle.scale_info_passes.specs.Entries.{AppendsKeptEntry, AppendsKeptEntries};
ghost use Rattle.scale_info_passes.specs.Visits.{renumbered};

use crate::visitors::{gather, renumber, skip};
use scale_info_bytes::integer::encode_compact;
use scale_info_type_ids::impls::Compact;
use scale_info_types::form::PortableForm;
use scale_info_types::ty::Description;
use std::alloc::{AllocError, Global};

/// Where the entries of a table are in its bytes, and what they refer to.
#[derive(Drop)]
pub struct EntryIndex {
    /// The offset of each entry's description.
    pub offsets: Vec<usize>,
    /// The index in `references` of each entry's first reference.
    pub starts: Vec<usize>,
    /// The references, entry by entry.
    pub references: Vec<u32>,
}

/// Finds where so many entries are and what they refer to, and returns the rest of the input.
///
/// None, if no prefix of the input encodes so many entries. Error: an allocation failed.
pub fn index_entries(
    alloc: Global,
    count: u32,
    input: &[u8],
) -> Result<Option<(EntryIndex, &[u8])>, AllocError>
    ensures some { IfOk result (λ found. IfSome found (λ f.
        IsEntryIndex count input.now f.1.now
        f.0.offsets.items f.0.starts.items f.0.references.items)) }
    ensures none { IfOk result (λ found.
        IfNone found (HasNoItems EncodesPortableType count input.now)) }
{
    let mut offsets = Vec::new(alloc);
    let mut starts = Vec::new(alloc);
    let mut references = Vec::new(alloc);
    let mut rest = input;
    for _ in 0..count {
        match skip::<Compact<u32>>(rest) {
            None => return Ok(None),
            Some(description) => {
                offsets.push(input.len().saturating_sub(description.len()))?;
                starts.push(references.as_slice().len())?;
                match gather::<Description<PortableForm>>(description, references)? {
                    None => return Ok(None),
                    Some((gathered, after)) => {
                        references = gathered;
                        rest = after;
                    }
                }
            }
        }
    }
    let index = EntryIndex {
        offsets,
        starts,
        references,
    };
    Ok(Some((index, rest)))
}

/// Appends the entry at this index with another id, each reference by its new number. On an error
/// part of it may have been appended.
fn append_entry(
    alloc: Global,
    input: &[u8],
    offsets: &[usize],
    numbers: &[u32],
    id: u32,
    index: u32,
    out: &mut Vec<u8>,
) -> Result<(), AllocError>
    requires offsets { HasEntriesAt input.now offsets.now }
    requires within { index < length offsets.now }
    ensures ok { OnOk result ((entries : List PortableType) →
        AreAtOffsets input.now entries offsets.now →
        AppendsKeptEntry entries (renumbered numbers.now) id index
        out.old.items out.new.items) }
    ensures keeps { IsPrefix out.old.items out.new.items }
{
    encode_compact(out, id)?;
    let description = &input[offsets[index as usize]..];
    let _ = renumber::<Description<PortableForm>>(alloc, description, numbers, out)?;
    Ok(())
}

/// Appends the entries at these indices, in this order, with the ids 0, 1 and so on, and each
/// reference by its new number.
///
/// `offsets` are those of the entries' descriptions in the input, as `index_entries` finds them;
/// `numbers` has at index `id` the new number of the reference `id`, and a reference that is no
/// index of it stays. Error: an allocation failed, and then the output is as before.
pub fn renumber_entries(
    alloc: Global,
    input: &[u8],
    offsets: &[usize],
    numbers: &[u32],
    indices: &[u32],
    out: &mut Vec<u8>,
) -> Result<(), AllocError>
    requires offsets { HasEntriesAt input.now offsets.now }
    requires within { All (λ index. index < length offsets.now) indices.now }
    requires few { length indices.now ≤ 4294967295 }
    ensures ok { OnOk result ((entries : List PortableType) →
        AreAtOffsets input.now entries offsets.now →
        AppendsKeptEntries entries (renumbered numbers.now) indices.now
        out.old.items out.new.items) }
    ensures err { OnErr result (out.new.items ≡ out.old.items) }
{
    let start = out.len();
    for (id, index) in indices.iter().enumerate() {
        if let Err(error) = append_entry(alloc, input, offsets, numbers, id as u32, *index, out) {
            out.truncate(start);
            return Err(error);
        }
    }
    Ok(())
}
