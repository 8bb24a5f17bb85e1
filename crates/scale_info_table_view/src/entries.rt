//! The entries of a view, decoded one after another.
ghost use Rattle.std.specs.Iterator.{item_count};
ghost use Rattle.scale_info_table_view.specs.ViewEntries.{YieldsFirstOrFails};

use crate::view::TableView;
use scale_info_types::form::PortableForm;
use scale_info_types::ty::Type;
use std::alloc::{AllocError, Global};
use std::marker::Model;

/// The descriptions of a view in order, each with its index. Each is decoded when it is asked for.
///
/// It is returned by [`TableView::entries`]. Contracts see it as the list of the items that are
/// still to come. Where an allocation fails, the item is the error: its description is left out,
/// and the next one comes next.
#[derive(Drop)]
pub struct ViewedEntries<'v, 'i> {
    pub(crate) view: &'v TableView<'i>,
    pub(crate) alloc: Global,
    pub(crate) index: usize,
    pub(crate) end: usize,
}

impl<'v, 'i> Model for ViewedEntries<'v, 'i> {
    ghost use Rattle.std.specs.Prelude.{◌≡◌, ℕ, List, length, drop, ◌≤◌};
    ghost use Rattle.scale_info_types.specs.Portable.{Description};
    ghost use Rattle.scale_info_table.specs.IndexedEntries.{indexed_from};

    ghost Value = { List (ℕ × Description) };

    ghost view = { λ entries.
        indexed_from entries.index (drop entries.index entries.view.now.types) };

    ghost invariant = { λ entries. (entries.end ≡ length entries.view.now.types)
        × (entries.end ≤ 4294967295) };
}

impl<'v, 'i> Iterator for ViewedEntries<'v, 'i> {
    type Item = Result<(u32, Type<PortableForm>), AllocError>;

    ghost next_gives = { YieldsFirstOrFails };

    ghost remaining = { item_count (λ rest. rest) };

    fn next(&mut self) -> Option<Result<(u32, Type<PortableForm>), AllocError>> {
        let index = self.index;
        if index >= self.end {
            return None;
        }
        self.index += 1;
        match self.view.entry(self.alloc, index) {
            Ok(Some(entry)) => Some(Ok((index as u32, entry.ty))),
            Ok(None) => unreachable!(),
            Err(error) => Some(Err(error)),
        }
    }
}
