//! Tables that keep what some of their entries reach.
ghost use Rattle.std.specs.Prelude.{◌≡◌, ◌≢◌, ◌<◌, ◌≤◌, ◌↔◌, ℕ, List, [], Some, All, IfOk, IfErr};
ghost use Rattle.std.specs.Prelude.{OnErr, OnOk, length, slice_get, vec_capacity};
ghost use Rattle.std.specs.BTreeMap.{get};
ghost use Rattle.std.specs.Ordering.{nat_cmp};
ghost use Rattle.scale_info_numberings.specs.Numberings.{AreDistinct};
ghost use Rattle.scale_info_references.specs.Conversions.{number_of};
ghost use Rattle.scale_info_walk.specs.Kept.{AreKept};
ghost use Rattle.scale_info_table.specs.Pruned.{IsChosen, IsPruned, IsRetainError};

use crate::chosen::chosen_ids;
use crate::renumbering::renumbered;
use scale_info_collections::items::Items;
use scale_info_types::ty::{PortableType, Type, TypeDef, TypeDefPrimitive};
use scale_info_walk::numbers::map_of_numbers;
use scale_info_walk::walk::{RetainError, number_entries};
use std::alloc::{AllocError, Global};
use std::collections::BTreeMap;
use std::mem;

/// Keeps what the chosen entries reach, in depth-first order of discovery, and returns the new id
/// of each old one that is kept. The filter is asked once for each id from 0 up, before anything
/// else is done; with more than 4294967295 entries it is not asked. Kept entries are moved, and
/// none is copied: all memory is there before the first one moves.
///
/// Errors: `Dangling`, where an id is reached from the chosen ones that is no index;
/// `TooManyTypes`, where there are more than 4294967295 entries; `Memory`, where an allocation
/// failed. On an Err the list is as before.
pub(crate) fn retain_types<F: FnMut(u32) -> bool>(
    alloc: Global,
    types: &mut Items<PortableType>,
    filter: F,
) -> Result<BTreeMap<u32, u32>, RetainError>
    requires { F.IsAlwaysCallable filter }
    ensures ok { IfOk result (λ new_ids. (chosen : List ℕ) × (last : F)
        × IsChosen F.step filter (length types.old) chosen last
        × IsPruned types.old chosen types.new new_ids) }
    ensures err { OnErr result (types.new ≡ types.old) }
    ensures cause { IfErr result (IsRetainError F.step filter types.old) }
{
    if types.len() > 4294967295 {
        return Err(RetainError::TooManyTypes);
    }
    let chosen = chosen_ids(alloc, types.len() as u32, filter)?;
    let found = number_entries(alloc, types.as_slice(), &chosen)?;
    let new_ids = map_of_numbers(alloc, &found.numbers)?;
    keep_entries(alloc, types, &found.order, &found.numbers)?;
    Ok(new_ids)
}

/// Keeps the entries at these indices in turn, with ids from 0 up and new numbers for their
/// references.
///
/// Errors: `AllocError`, if an allocation failed; then the list is as before.
fn keep_entries(
    alloc: Global,
    types: &mut Items<PortableType>,
    order: &[u32],
    numbers: &[u32],
) -> Result<(), AllocError>
    requires within { All (λ index. index < length types.old) order.now }
    requires distinct { AreDistinct order.now }
    requires few { length order.now ≤ 4294967295 }
    ensures ok { OnOk result (AreKept types.old order.now (number_of numbers.now) types.new) }
    ensures err { OnErr result (types.new ≡ types.old) }
{
    let (old, room) = taken_with_room(alloc, types, order.len())?;
    *types = Items::from(kept_entries(alloc, old, order, numbers, room));
    Ok(())
}

/// Takes all items out of a list, and returns them and an empty vector with room for so many more.
///
/// Errors: `AllocError`, if an allocation failed; then the list is as before.
fn taken_with_room<T: Drop>(
    alloc: Global,
    items: &mut Items<T>,
    count: usize,
) -> Result<(Vec<T>, Vec<T>), AllocError>
    ensures taken { IfOk result (λ taken. taken.0.items ≡ items.old) }
    ensures empty { IfOk result (λ taken. taken.1.items ≡ []) }
    ensures room { IfOk result (λ taken. count ≤ vec_capacity taken.1) }
    ensures err { OnErr result (items.new ≡ items.old) }
{
    let room = Vec::with_capacity(alloc, count)?;
    let old = mem::replace(items, Items::new(alloc)).into_vec();
    Ok((old, room))
}

/// The entries at these indices in turn, with ids from 0 up and new numbers for their references.
///
/// They are moved out of `types`, and nothing is allocated: `kept` is empty and has the room.
fn kept_entries(
    alloc: Global,
    mut types: Vec<PortableType>,
    order: &[u32],
    numbers: &[u32],
    mut kept: Vec<PortableType>,
) -> Vec<PortableType>
    requires within { All (λ index. index < length types.items) order.now }
    requires distinct { AreDistinct order.now }
    requires few { length order.now ≤ 4294967295 }
    requires empty { kept.items ≡ [] }
    requires room { length order.now ≤ vec_capacity kept }
    ensures { AreKept types.items order.now (number_of numbers.now) result.items }
{
    for index in order {
        let old = mem::replace(&mut types[*index as usize], placeholder(alloc));
        let id = kept.len() as u32;
        let ty = renumbered(numbers, old.ty);
        kept.push_reserved(PortableType { id, ty });
    }
    kept
}

/// An entry that does not allocate, to stand where one was moved out.
fn placeholder(alloc: Global) -> PortableType {
    let ty = Type::from_def(alloc, TypeDef::Primitive(TypeDefPrimitive::Bool));
    PortableType { id: 0, ty }
}
