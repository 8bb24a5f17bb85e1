//! The entries of a table, each with its index.
ghost use Rattle.std.specs.Iterator.{YieldsFirstBy, item_count};
ghost use Rattle.std.specs.Prelude.{◌≡◌, ◌≤◌, ◌++◌, ◌∷◌, [], length, IfOk, OnOk};
ghost use Rattle.scale_info_table.specs.BuiltTables.{numbered_from};

use scale_info_collections::items::Items;
use scale_info_collections::try_clone::TryClone;
use scale_info_types::form::PortableForm;
use scale_info_types::ty::{PortableType, Type};
use std::alloc::{AllocError, Global};
use std::marker::Model;

/// The entries of a table, each with the index that references to it have, in ascending order.
///
/// It is returned by [`PortableRegistry::entries`](super::PortableRegistry::entries). Contracts see
/// it as the list of the items that are still to come.
#[derive(Drop)]
pub struct Entries<'a> {
    pub(super) types: &'a [PortableType],
    pub(super) index: usize,
}

impl<'a> Model for Entries<'a> {
    ghost use Rattle.std.specs.Prelude.{ℕ, List, length, ◌+◌, ◌≤◌};
    ghost use Rattle.scale_info_types.specs.Portable.{Description};
    ghost use Rattle.scale_info_table.specs.IndexedEntries.{indexed_from};

    ghost Value = { List (ℕ × Description) };

    ghost view = { λ entries. indexed_from entries.index entries.types.now };

    ghost invariant = { λ entries. entries.index + length entries.types.now ≤ 4294967296 };
}

impl<'a> Iterator for Entries<'a> {
    type Item = (u32, &'a Type<PortableForm>);

    ghost next_gives = { YieldsFirstBy (λ item. (item.0, item.1.now)) (λ rest. rest) };

    ghost remaining = { item_count (λ rest. rest) };

    fn next(&mut self) -> Option<(u32, &'a Type<PortableForm>)> {
        let (entry, rest) = self.types.split_first()?;
        let index = self.index as u32;
        self.types = rest;
        self.index += 1;
        Some((index, &entry.ty))
    }

    #[tactic(auto, using(crate::proofs::IndexedEntries::length_indexed))]
    fn size_hint(&self) -> (usize, Option<usize>) {
        (self.types.len(), Some(self.types.len()))
    }
}

/// Descriptions as the entries of a table, each with its index as its id. They are moved, and none
/// is copied.
pub(super) fn of_descriptions(
    alloc: Global,
    types: Vec<Type<PortableForm>>,
) -> Result<Items<PortableType>, AllocError>
    requires { length types.items ≤ 4294967295 }
    ensures { IfOk result (λ entries. entries ≡ numbered_from 0 types.items) }
{
    let mut entries = Items::with_capacity(alloc, types.len())?;
    for ty in types {
        push_entry(ty, &mut entries)?;
    }
    Ok(entries)
}

/// Copies of descriptions as the entries of a table.
pub(super) fn copies_of(
    alloc: Global,
    types: &[Type<PortableForm>],
) -> Result<Items<PortableType>, AllocError>
    requires { length types.now ≤ 4294967295 }
    ensures { IfOk result (λ entries. entries ≡ numbered_from 0 types.now) }
{
    let mut entries = Items::with_capacity(alloc, types.len())?;
    for ty in types {
        push_copy(alloc, ty, &mut entries)?;
    }
    Ok(entries)
}

/// Appends a copy of a description, with its index as its id.
fn push_copy(
    alloc: Global,
    ty: &Type<PortableForm>,
    entries: &mut Items<PortableType>,
) -> Result<(), AllocError>
    requires { length entries.old ≤ 4294967295 }
    ensures { OnOk result (entries.new
        ≡ entries.old ++ numbered_from (length entries.old) (ty.now ∷ [])) }
{
    push_entry(ty.try_clone(alloc)?, entries)
}

/// Appends a description, with its index as its id.
fn push_entry(ty: Type<PortableForm>, entries: &mut Items<PortableType>) -> Result<(), AllocError>
    requires { length entries.old ≤ 4294967295 }
    ensures { OnOk result (entries.new
        ≡ entries.old ++ numbered_from (length entries.old) (ty ∷ [])) }
{
    let id = entries.len() as u32;
    entries.push(PortableType::new(id, ty))?;
    Ok(())
}
