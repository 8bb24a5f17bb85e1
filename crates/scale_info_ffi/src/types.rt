//! Exports on types of tables.
ghost use Rattle.std.specs.Prelude.{◌≡◌, ◌≢◌, ◌≤◌, ◌⊎◌, ◌∷◌, [], IsUtf8};
ghost use Rattle.scale_info_bytes.specs.Encodings.{HasNoPrefix};
ghost use Rattle.scale_info_calls.specs.Changes.{AreChangeLines, HasDanglingEntry};
ghost use Rattle.scale_info_calls.specs.Rooms.{Gives, IsTooShort};
ghost use Rattle.scale_info_calls.specs.SameTypes.{TellsOfInputs};
ghost use Rattle.scale_info_calls.specs.Types.{AreFound, IsDeclaration, IsOutside};
ghost use Rattle.scale_info_grammar.specs.Ty.{EncodesTypes};
ghost use Rattle.scale_info_table_prune.specs.Prunes.{HasNoSuchType};
ghost use Rattle.scale_info_table_prune.specs.SameTypes.{ReachesOutside};
ghost use Rattle.scale_info_table_prune.specs.TableIndexes.{HasTrailing};

use scale_info_calls::answer::answer;
use scale_info_calls::{changes, describe, find, same};
use std::alloc::Global;

/// Writes the ids of the types with this path to the room, ascending; none, where no type has it.
#[unsafe(no_mangle)]
pub extern "C" fn scale_info_ffi_find(
    alloc: Global,
    input: &[u8],
    path: &[u8],
    room: &mut [u32],
    count: &mut usize,
) -> u8
    ensures status { (result ≤ 2) ⊎ ((result ≡ 5) ⊎ ((result ≡ 6) ⊎ (result ≡ 8))) }
    ensures done { result ≡ 0 → Gives (AreFound input.now path.now) room.old room.new count.new }
    ensures malformed { result ≡ 1 → HasNoPrefix EncodesTypes input.now × (count.new ≡ 0) }
    ensures trailing_bytes { result ≡ 2 → HasTrailing input.now × (count.new ≡ 0) }
    ensures out_of_memory { result ≡ 5 → count.new ≡ 0 }
    ensures no_room { result ≡ 6 → IsTooShort (AreFound input.now path.now) room.old count.new }
    ensures no_text { result ≡ 8 → ¬ (IsUtf8 path.now) × (count.new ≡ 0) }
    ensures kept { result ≢ 0 → room.new ≡ room.old }
{
    answer(find::find(alloc, input, path, room), count)
}

/// Writes the type with this id to the room, as Rust declares it.
#[unsafe(no_mangle)]
pub extern "C" fn scale_info_ffi_describe(
    alloc: Global,
    input: &[u8],
    id: u32,
    room: &mut [u8],
    count: &mut usize,
) -> u8
    ensures status { (result ≤ 3) ⊎ ((result ≡ 5) ⊎ (result ≡ 6)) }
    ensures done { result ≡ 0 → Gives (IsDeclaration input.now id) room.old room.new count.new }
    ensures malformed { result ≡ 1 → HasNoPrefix EncodesTypes input.now × (count.new ≡ 0) }
    ensures trailing_bytes { result ≡ 2 → HasTrailing input.now × (count.new ≡ 0) }
    ensures no_such_type { result ≡ 3 → IsOutside input.now id × (count.new ≡ id) }
    ensures out_of_memory { result ≡ 5 → count.new ≡ 0 }
    ensures no_room { result ≡ 6 → IsTooShort (IsDeclaration input.now id) room.old count.new }
    ensures kept { result ≢ 0 → room.new ≡ room.old }
{
    answer(describe::describe(alloc, input, id, room), count)
}

/// Compares a type of the first table with one of the second. Where they are the same, nothing is
/// written, and `count` is 0; else what differs first is written to the room.
#[unsafe(no_mangle)]
pub extern "C" fn scale_info_ffi_same(
    alloc: Global,
    first: &[u8],
    id: u32,
    second: &[u8],
    other: u32,
    room: &mut [u8],
    count: &mut usize,
) -> u8
    ensures status { result ≤ 6 }
    ensures done { result ≡ 0
        → Gives (TellsOfInputs first.now id second.now other) room.old room.new count.new }
    ensures malformed { result ≡ 1 → (HasNoPrefix EncodesTypes first.now
        ⊎ HasNoPrefix EncodesTypes second.now) × (count.new ≡ 0) }
    ensures trailing_bytes { result ≡ 2 → (HasTrailing first.now ⊎ HasTrailing second.now)
        × (count.new ≡ 0) }
    ensures no_such_type { result ≡ 3 → HasNoSuchType first.now (id ∷ []) count.new
        ⊎ HasNoSuchType second.now (other ∷ []) count.new }
    ensures dangling { result ≡ 4 → ReachesOutside first.now (id ∷ []) count.new
        ⊎ ReachesOutside second.now (other ∷ []) count.new }
    ensures out_of_memory { result ≡ 5 → count.new ≡ 0 }
    ensures no_room { result ≡ 6
        → IsTooShort (TellsOfInputs first.now id second.now other) room.old count.new }
    ensures kept { result ≢ 0 → room.new ≡ room.old }
{
    answer(same::same(alloc, first, id, second, other, room), count)
}

/// Writes a line for each path of types that changed between two tables to the room.
#[unsafe(no_mangle)]
pub extern "C" fn scale_info_ffi_changes(
    alloc: Global,
    old: &[u8],
    new: &[u8],
    room: &mut [u8],
    count: &mut usize,
) -> u8
    ensures status { (result ≤ 2) ⊎ ((result ≡ 4) ⊎ ((result ≡ 5) ⊎ (result ≡ 6))) }
    ensures done { result ≡ 0 → Gives (AreChangeLines old.now new.now) room.old room.new count.new }
    ensures malformed { result ≡ 1 → (HasNoPrefix EncodesTypes old.now
        ⊎ HasNoPrefix EncodesTypes new.now) × (count.new ≡ 0) }
    ensures trailing_bytes { result ≡ 2 → (HasTrailing old.now ⊎ HasTrailing new.now)
        × (count.new ≡ 0) }
    ensures dangling { result ≡ 4
        → HasDanglingEntry old.now count.new ⊎ HasDanglingEntry new.now count.new }
    ensures out_of_memory { result ≡ 5 → count.new ≡ 0 }
    ensures no_room { result ≡ 6 → IsTooShort (AreChangeLines old.now new.now) room.old count.new }
    ensures kept { result ≢ 0 → room.new ≡ room.old }
{
    answer(changes::changes(alloc, old, new, room), count)
}
