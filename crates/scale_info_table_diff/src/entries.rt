//! The entries of a table, read one at a time.
ghost use Rattle.std.specs.Prelude.{◌≡◌, ◌<◌, All, IsTrue, IfOk, IfSome, length};
ghost use Rattle.std.proofs.Props.{props};
ghost use Rattle.scale_info_table_diff.specs.Differing.{HasParts};

use scale_info_passes::visitors::{gather, renumber};
use scale_info_table_prune::indexed::IndexedTable;
use scale_info_types::form::PortableForm;
use scale_info_types::ty::Description;
use std::alloc::{AllocError, Global};

/// An entry in two parts.
#[derive(Drop)]
pub(crate) struct Parts {
    /// The encoding of its description with 0 in the place of each reference.
    pub contents: Vec<u8>,
    /// Its references.
    pub references: Vec<u32>,
}

/// The entries of a table.
#[derive(Drop)]
pub(crate) struct EntryReader<'t, 'a> {
    /// The table.
    pub table: &'t IndexedTable<'a>,
    /// As many zeros as there are entries: what is written in the place of references to them.
    pub zeros: Vec<u32>,
    ghost zero: { All (λ number. number ≡ 0) zeros.items } by { Prim.hlevel props },
}

impl<'t, 'a> EntryReader<'t, 'a> {
    /// The entries of this table.
    ///
    /// Errors: `AllocError`, if an allocation failed.
    pub fn of(alloc: Global, table: &'t IndexedTable<'a>) -> Result<EntryReader<'t, 'a>, AllocError>
        ensures { IfOk result (λ entries. entries.table.now ≡ table.now) }
    {
        let mut zeros = Vec::new(alloc);
        zeros.resize(table.len(), 0)?;
        Ok(EntryReader { table, zeros })
    }

    /// The two parts of the entry with this id; None, where the id is no index, or one of its
    /// references is none.
    ///
    /// Errors: `AllocError`, if an allocation failed.
    pub fn parts_of(&self, alloc: Global, id: u32) -> Result<Option<Parts>, AllocError>
        ensures { IfOk result (λ found. IfSome found
            (λ parts. HasParts self.now.table.now id parts.contents.items
            parts.references.items)) }
    {
        let Some(description) = self.table.description_at(id) else {
            return Ok(None);
        };
        let gathered = gather::<Description<PortableForm>>(description, Vec::new(alloc))?;
        let Some((references, _)) = gathered else {
            return Ok(None);
        };
        if !are_below(&references, self.zeros.len()) {
            return Ok(None);
        }
        let mut contents = Vec::new(alloc);
        let _ = renumber::<Description<PortableForm>>(
            alloc,
            description,
            &self.zeros,
            &mut contents,
        )?;
        Ok(Some(Parts {
            contents,
            references,
        }))
    }
}

/// Whether each of the ids is below this count.
fn are_below(ids: &[u32], count: usize) -> bool
    ensures { IsTrue result → All (λ id. id < count) ids.now }
{
    for id in ids {
        if *id as usize >= count {
            return false;
        }
    }
    true
}
