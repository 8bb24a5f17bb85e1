//! The new ids of given ones, and tables that were written, compared.
ghost use Rattle.std.specs.Prelude.{◌≡◌, ◌↔◌, ℕ, List, All, Contains, IfOk, IsTrue};
ghost use Rattle.std.specs.Prelude.{slice_index_or};
ghost use Rattle.scale_info_numberings.specs.Tables.{ArePlaces};
ghost use Rattle.scale_info_walk.specs.Walks.{AreNumbers};

use std::alloc::{AllocError, Global};

/// The number of an id by a dense list; the id itself past its end.
fn number_of(numbers: &[u32], id: u32) -> u32
    ensures { result ≡ slice_index_or numbers.now id id }
{
    match numbers.get(id as usize) {
        Some(number) => *number,
        None => id,
    }
}

/// The new ids of ids that are all in an order, by its dense list.
pub(crate) fn new_ids_of(
    alloc: Global,
    numbers: &[u32],
    ids: &[u32],
) -> Result<Vec<u32>, AllocError>
    ensures { IfOk result (λ new_ids. (order : List ℕ) → AreNumbers order numbers.now
        → All (λ id. Contains order id) ids.now → ArePlaces order ids.now new_ids.items) }
{
    let mut new_ids = Vec::with_capacity(alloc, ids.len())?;
    for id in ids {
        new_ids.push(number_of(numbers, *id))?;
    }
    Ok(new_ids)
}

/// Whether both lists of bytes and both lists of ids are equal.
pub(crate) fn are_equal(bytes: &[u8], other_bytes: &[u8], ids: &[u32], other_ids: &[u32]) -> bool
    ensures { IsTrue result ↔ ((bytes.now ≡ other_bytes.now) × (ids.now ≡ other_ids.now)) }
{
    bytes == other_bytes && ids == other_ids
}
