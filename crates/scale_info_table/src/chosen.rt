//! The ids of a table that a filter chooses.
ghost use Rattle.std.specs.Prelude.{◌≡◌, ◌<◌, ◌≤◌, ◌+◌, ◌++◌, ◌∷◌, [], Bool, IfOk, cond};
ghost use Rattle.std.specs.Prelude.{vec_capacity, vec_len};
ghost use Rattle.scale_info_table.specs.Pruned.{IsChosen};

use std::alloc::{AllocError, Global};

/// The ids below `count` for which the filter returns true. It is asked once for each, from 0 up,
/// after all memory is there: so on an Err it was not asked.
///
/// ```text
/// chosen_ids(alloc, 5, |id| id % 2 == 1)?  // 1 and 3
/// ```
///
/// Errors: `AllocError`, if an allocation failed.
pub fn chosen_ids<F: FnMut(u32) -> bool>(
    alloc: Global,
    count: u32,
    mut filter: F,
) -> Result<Vec<u32>, AllocError>
    requires { F.IsAlwaysCallable filter }
    ensures { IfOk result (λ chosen. (last : F) × IsChosen F.step filter count chosen.items last) }
{
    let mut chosen = Vec::with_capacity(alloc, count as usize)?;
    for id in 0..count {
        choose(&mut filter, id, &mut chosen);
    }
    Ok(chosen)
}

/// Asks the filter for an id, and adds the id to the chosen ones where it returns true.
fn choose<F: FnMut(u32) -> bool>(filter: &mut F, id: u32, chosen: &mut Vec<u32>)
    requires callable { F.IsAlwaysCallable filter.old }
    requires room { vec_len chosen.old < vec_capacity chosen.old }
    ensures callable { F.IsAlwaysCallable filter.new }
    ensures asked { (answer : Bool) × F.step filter.old id answer filter.new
        × (chosen.new.items ≡ cond answer (chosen.old.items ++ id ∷ []) chosen.old.items) }
    ensures room { vec_capacity chosen.new ≡ vec_capacity chosen.old }
    ensures few { vec_len chosen.new ≤ vec_len chosen.old + 1 }
{
    if filter(id) {
        chosen.push_reserved(id);
    }
}
