//! The numbers of a walk as a map.
ghost use Rattle.std.specs.Prelude.{◌≡◌, ◌≢◌, ◌≤◌, ◌↔◌, ℕ, Some, IfOk, length, slice_get};
ghost use Rattle.std.specs.BTreeMap.{get};
ghost use Rattle.std.specs.Ordering.{nat_cmp};

use crate::walk::NONE;
use std::alloc::{AllocError, Global};
use std::collections::BTreeMap;

/// The new number of each old index that has one, as a map.
///
/// Errors: `AllocError`, if an allocation failed.
pub fn map_of_numbers(alloc: Global, numbers: &[u32]) -> Result<BTreeMap<u32, u32>, AllocError>
    requires { length numbers.now ≤ 4294967295 }
    ensures { IfOk result (λ new_ids. (old new : ℕ) → (get nat_cmp new_ids old ≡ Some new)
        ↔ ((slice_get numbers.now old ≡ Some new) × (new ≢ 4294967295))) }
{
    let mut new_ids = BTreeMap::new(alloc);
    for (old, number) in numbers.iter().enumerate() {
        if *number == NONE {
            continue;
        }
        if new_ids.insert(old as u32, *number).is_err() {
            return Err(AllocError);
        }
    }
    Ok(new_ids)
}
