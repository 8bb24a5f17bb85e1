//! Room for a list that gets longer and shorter.
//!
//! A `Vec` that gets shorter keeps its room, and a smaller one would be a new allocation. Here the
//! rooms that a list had before it grew are kept beside it, each half of the next, and the list
//! goes back to them. So its room follows its length, and what shortens it does not allocate.
ghost use Rattle.std.specs.Prelude.{◌≡◌, ◌≤◌, ◌/◌, ◌++◌, ◌∷◌, [], length, vec_capacity};

use std::alloc::Global;
use std::mem;

/// A list of fewer elements than this grows as any `Vec` does, and keeps its room.
const SMALL: usize = 64;

/// Doubles the room of a list that fills it, and keeps the room that it had. Where an allocation
/// fails, the list stays where it is, or that room is not kept.
pub fn widen<T: Drop>(alloc: Global, list: &mut Vec<T>, rooms: &mut Vec<Vec<T>>)
    ensures { list.new.items ≡ list.old.items }
{
    let len = list.len();
    if len < SMALL || len < list.capacity() {
        return;
    }
    let Ok(mut double) = Vec::with_capacity(alloc, len.saturating_mul(2)) else {
        return;
    };
    if double.append(list).is_ok() {
        let _kept = rooms.push(mem::replace(list, double));
    }
}

/// Moves a list back to the room that it had before, if it fills no more than half of that. Does
/// not allocate.
pub fn narrow<T: Drop>(list: &mut Vec<T>, rooms: &mut Vec<Vec<T>>)
    ensures items { list.new.items ≡ list.old.items }
    // The last room is taken for the list.
    ensures taken { (kept : _) (room : _) → rooms.old.items ≡ kept ++ room ∷ []
        → length list.old.items ≤ vec_capacity room / 2
        → rooms.new.items ≡ kept }
{
    let fits = match rooms.last() {
        Some(room) => list.len() <= room.capacity() / 2,
        None => false,
    };
    if !fits {
        return;
    }
    let Some(mut room) = rooms.pop() else {
        return;
    };
    room.clear();
    if room.append(list).is_ok() {
        *list = room;
    }
}
