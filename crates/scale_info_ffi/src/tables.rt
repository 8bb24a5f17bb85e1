//! Exports on whole tables.
ghost use Rattle.std.specs.Prelude.{◌≡◌, ◌≢◌, ◌≤◌, ◌⊎◌};
ghost use Rattle.scale_info_bytes.specs.Encodings.{HasNoPrefix};
ghost use Rattle.scale_info_calls.specs.FoundTables.{HasNoTable, HasTable, input_bytes};
ghost use Rattle.scale_info_calls.specs.Rooms.{Gives, IsTooShort};
ghost use Rattle.scale_info_calls.specs.WholeTables.{IsJsonOf, IsOneTable, IsPruned};
ghost use Rattle.scale_info_calls.specs.declared.error.CallError.TheVariants as call_error;
ghost use Rattle.scale_info_table_diff.specs.NamedTables.{IsWithoutDocs};
ghost use Rattle.scale_info_grammar.specs.Ty.{EncodesTypes};
ghost use Rattle.scale_info_table_prune.specs.Prunes.{HasDangling, HasNoSuchType};
ghost use Rattle.scale_info_table_prune.specs.TableIndexes.{HasTrailing};

use scale_info_calls::answer::answer;
use scale_info_calls::{check, json, prune, strip, table};
use std::alloc::Global;

/// Finds whether the input is one table, with nothing after it. Does not allocate.
#[unsafe(no_mangle)]
pub extern "C" fn scale_info_ffi_check(input: &[u8]) -> u8
    ensures status { result ≤ 2 }
    ensures done { result ≡ 0 → IsOneTable input.now }
    ensures malformed { result ≡ 1 → HasNoPrefix EncodesTypes input.now }
    ensures trailing_bytes { result ≡ 2 → HasTrailing input.now }
{
    match check::check(input) {
        Ok(()) => 0,
        Err(error) => error.status(),
    }
}

/// Writes the table of what the ids reach to the room. It is never longer than the input.
#[unsafe(no_mangle)]
pub extern "C" fn scale_info_ffi_prune(
    alloc: Global,
    input: &[u8],
    ids: &[u32],
    room: &mut [u8],
    count: &mut usize,
) -> u8
    ensures status { result ≤ 6 }
    ensures done { result ≡ 0 → Gives (IsPruned input.now ids.now) room.old room.new count.new }
    ensures malformed { result ≡ 1 → HasNoPrefix EncodesTypes input.now × (count.new ≡ 0) }
    ensures trailing_bytes { result ≡ 2 → HasTrailing input.now × (count.new ≡ 0) }
    ensures no_such_type { result ≡ 3 → HasNoSuchType input.now ids.now count.new }
    ensures dangling { result ≡ 4 → HasDangling input.now ids.now count.new }
    ensures out_of_memory { result ≡ 5 → count.new ≡ 0 }
    ensures no_room { result ≡ 6 → IsTooShort (IsPruned input.now ids.now) room.old count.new }
    ensures kept { result ≢ 0 → room.new ≡ room.old }
{
    answer(prune::prune(alloc, input, ids, room), count)
}

/// Writes the JSON text of the table that the input is to the room.
#[unsafe(no_mangle)]
pub extern "C" fn scale_info_ffi_json(
    alloc: Global,
    input: &[u8],
    room: &mut [u8],
    count: &mut usize,
) -> u8
    ensures status { (result ≤ 2) ⊎ ((result ≡ 5) ⊎ (result ≡ 6)) }
    ensures done { result ≡ 0 → Gives (IsJsonOf input.now) room.old room.new count.new }
    ensures malformed { result ≡ 1 → HasNoPrefix EncodesTypes input.now × (count.new ≡ 0) }
    ensures trailing_bytes { result ≡ 2 → HasTrailing input.now × (count.new ≡ 0) }
    ensures out_of_memory { result ≡ 5 → count.new ≡ 0 }
    ensures no_room { result ≡ 6 → IsTooShort (IsJsonOf input.now) room.old count.new }
    ensures kept { result ≢ 0 → room.new ≡ room.old }
{
    answer(json::json(alloc, input, room), count)
}

/// Writes the table that the input is to the room, without docs. It is never longer than the input.
#[unsafe(no_mangle)]
pub extern "C" fn scale_info_ffi_strip(
    alloc: Global,
    input: &[u8],
    room: &mut [u8],
    count: &mut usize,
) -> u8
    ensures status { (result ≤ 2) ⊎ ((result ≡ 5) ⊎ (result ≡ 6)) }
    ensures done { result ≡ 0 → Gives (IsWithoutDocs input.now) room.old room.new count.new }
    ensures malformed { result ≡ 1 → HasNoPrefix EncodesTypes input.now × (count.new ≡ 0) }
    ensures trailing_bytes { result ≡ 2 → HasTrailing input.now × (count.new ≡ 0) }
    ensures out_of_memory { result ≡ 5 → count.new ≡ 0 }
    ensures no_room { result ≡ 6 → IsTooShort (IsWithoutDocs input.now) room.old count.new }
    ensures kept { result ≢ 0 → room.new ≡ room.old }
{
    answer(strip::strip(alloc, input, room), count)
}

/// Writes the table of a node's metadata, or of a table, to the room; of either also as a text of
/// hexadecimal digits. It is never longer than the input.
#[unsafe(no_mangle)]
pub extern "C" fn scale_info_ffi_table(
    alloc: Global,
    input: &[u8],
    room: &mut [u8],
    count: &mut usize,
) -> u8
    ensures status { (result ≤ 2) ⊎ ((result ≡ 5) ⊎ ((result ≡ 6) ⊎ (result ≡ 7))) }
    ensures done { result ≡ 0
        → Gives (HasTable (input_bytes input.now)) room.old room.new count.new }
    ensures malformed { result ≡ 1
        → HasNoTable (input_bytes input.now) call_error.Malformed × (count.new ≡ 0) }
    ensures trailing_bytes { result ≡ 2
        → HasNoTable (input_bytes input.now) call_error.TrailingBytes × (count.new ≡ 0) }
    ensures out_of_memory { result ≡ 5 → count.new ≡ 0 }
    ensures no_room { result ≡ 6
        → IsTooShort (HasTable (input_bytes input.now)) room.old count.new }
    ensures version { result ≡ 7
        → HasNoTable (input_bytes input.now) (call_error.Version count.new) }
    ensures kept { result ≢ 0 → room.new ≡ room.old }
{
    answer(table::table(alloc, input, room), count)
}
