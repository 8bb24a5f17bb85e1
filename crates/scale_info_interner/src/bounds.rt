//! Copies of elements, by which a search finds its chunk.
//!
//! Each chunk of indices but the first has a bound: a copy of the least element that it had when it
//! was split off. The bounds lie one after another, so that a search among them reads little
//! memory, where indices lead it all over the elements. Bounds only say where a search begins, and
//! what it finds doesn't rest on them.
ghost use Rattle.std.specs.List.{insert, remove};
ghost use Rattle.std.specs.Prelude.{◌≡◌, ◌≢◌, ◌≤◌, ◌+◌, ◌↔◌, ℕ, IsTrue, OnErr, OnOk, length};
ghost use Rattle.std.specs.declared.cmp.Ordering.TheVariants.{Greater};
ghost use Rattle.scale_info_interner.specs.ElementOrders.{against};

use scale_info_collections::try_clone::TryClone;
use std::alloc::{AllocError, Global};

/// Whether a bound is above a value; one that is not there is.
fn is_above<T: Ord>(bounds: &[T], at: usize, value: &T) -> bool
    ensures { IsTrue result ↔ (against T.cmp bounds.now value.now at ≡ Greater) }
{
    match bounds.get(at) {
        Some(bound) => bound.cmp(value).is_gt(),
        None => true,
    }
}

/// The number of bounds that are not above a value, where these ascend.
///
/// Each step settles a bit of the number. The test becomes that bit and no branch, since a
/// processor guesses such a branch wrong every second time.
pub fn chunk_of<T: Ord>(bounds: &[T], value: &T) -> usize
    ensures upto { (i : ℕ) → result ≡ i + 1 → against T.cmp bounds.now value.now i ≢ Greater }
    ensures past { against T.cmp bounds.now value.now result ≡ Greater }
{
    if bounds.is_empty() {
        return 0;
    }
    let mut bits = bounds.len().ilog2() + 1;
    let mut number = 0;
    while bits > 0 {
        bits -= 1;
        let step = 1usize << bits;
        let is_past = is_above(bounds, number + (step - 1), value);
        number += (!is_past as usize) << bits;
    }
    number
}

/// Puts a copy of an element at a place among the bounds. Where an allocation fails, all is as
/// before.
pub fn put_bound<T: TryClone>(
    alloc: Global,
    bounds: &mut Vec<T>,
    at: usize,
    element: &T,
) -> Result<(), AllocError>
    ensures ok { OnOk result (at ≤ length bounds.old.items
        → bounds.new.items ≡ insert bounds.old.items at element.now) }
    ensures err { OnErr result (bounds.new.items ≡ bounds.old.items) }
{
    let bound = element.try_clone(alloc)?;
    let end = bounds.len();
    bounds.insert(at.min(end), bound)?;
    Ok(())
}

/// Drops the bound at a place, if there is one.
pub fn drop_bound<T: Drop>(bounds: &mut Vec<T>, at: usize)
    ensures { bounds.new.items ≡ remove bounds.old.items at }
{
    if at < bounds.len() {
        bounds.remove(at);
    }
}
