//! The index of a table's bytes, as something that has references.
ghost use Rattle.std.specs.Prelude.{length};
ghost use Rattle.scale_info_table_prune.specs.ByteIndexLaws.{nothing_past_index};
ghost use Rattle.scale_info_table_prune.specs.ByteIndexes.{index_system};

use scale_info_walk::references::References;
use scale_info_walk::refs::Refs;
use std::alloc::{AllocError, Global};

/// The references of the entries of a table, by where each entry's begin in the list of all.
#[derive(Drop)]
pub struct ByteReferences<'a> {
    /// The index in `references` of each entry's first reference.
    pub starts: &'a [usize],
    /// The references, entry by entry.
    pub references: &'a [u32],
}

impl<'a> References for ByteReferences<'a> {
    ghost Shape = { Unit {0} };

    ghost system = { λ index. index_system index.starts.now index.references.now };

    ghost count = { λ index. length index.starts.now };

    ghost outside = { λ index id past.
        nothing_past_index index.starts.now index.references.now id past };

    fn len(&self) -> usize {
        self.starts.len()
    }

    fn prepend_refs(&self, _alloc: Global, id: u32, refs: &mut Refs) -> Result<(), AllocError> {
        let start = self.starts[id as usize];
        let end = match self.starts.get(id as usize + 1) {
            Some(end) => *end,
            None => self.references.len(),
        };
        let rest = &self.references[start.min(self.references.len())..];
        refs.prepend(&rest[..end.saturating_sub(start).min(rest.len())])
    }
}
