//! Exports on values of a table's types.
ghost use Rattle.std.specs.Prelude.{◌≡◌, ◌≢◌, ◌≤◌, ◌⊎◌};
ghost use Rattle.serde_json.specs.Data.{Data};
ghost use Rattle.scale_info_bytes.specs.Encodings.{HasNoPrefix};
ghost use Rattle.scale_info_calls.specs.Encodings.{GivesNoValue, IsEncoded, IsJson};
ghost use Rattle.scale_info_calls.specs.Rooms.{Gives, IsTooShort};
ghost use Rattle.scale_info_calls.specs.Values.{HasNoValue, IsValueText};
ghost use Rattle.scale_info_calls.specs.declared.error.CallError.TheVariants as call_error;
ghost use Rattle.scale_info_grammar.specs.Ty.{EncodesTypes};
ghost use Rattle.scale_info_table_prune.specs.TableIndexes.{HasTrailing};

use scale_info_calls::answer::answer;
use scale_info_calls::{encode, value};
use std::alloc::Global;

/// Writes the JSON text of the bytes, as one value of the type with this id, to the room.
#[unsafe(no_mangle)]
pub extern "C" fn scale_info_ffi_value(
    alloc: Global,
    input: &[u8],
    id: u32,
    bytes: &[u8],
    room: &mut [u8],
    count: &mut usize,
) -> u8
    ensures status { (result ≤ 3) ⊎ ((result ≡ 5) ⊎ ((result ≡ 6)
        ⊎ ((10 ≤ result) × (result ≤ 13)))) }
    ensures done { result ≡ 0
        → Gives (IsValueText input.now id bytes.now) room.old room.new count.new }
    ensures malformed { result ≡ 1 → HasNoPrefix EncodesTypes input.now × (count.new ≡ 0) }
    ensures trailing_bytes { result ≡ 2 → HasTrailing input.now × (count.new ≡ 0) }
    ensures no_such_type { result ≡ 3
        → HasNoValue input.now id bytes.now (call_error.NoSuchType id) × (count.new ≡ id) }
    ensures out_of_memory { result ≡ 5 → count.new ≡ 0 }
    ensures no_room { result ≡ 6
        → IsTooShort (IsValueText input.now id bytes.now) room.old count.new }
    ensures unsupported { result ≡ 10
        → HasNoValue input.now id bytes.now call_error.Unsupported × (count.new ≡ 0) }
    ensures too_deep { result ≡ 11
        → HasNoValue input.now id bytes.now call_error.TooDeep × (count.new ≡ 0) }
    ensures malformed_value { result ≡ 12
        → HasNoValue input.now id bytes.now call_error.MalformedValue × (count.new ≡ 0) }
    ensures trailing_value { result ≡ 13
        → HasNoValue input.now id bytes.now call_error.TrailingValue × (count.new ≡ 0) }
    ensures kept { result ≢ 0 → room.new ≡ room.old }
{
    answer(value::value(alloc, input, id, bytes, room), count)
}

/// Writes the encoding of the value of the type with this id that the JSON text gives to the room.
#[unsafe(no_mangle)]
pub extern "C" fn scale_info_ffi_encode(
    alloc: Global,
    input: &[u8],
    id: u32,
    json: &[u8],
    room: &mut [u8],
    count: &mut usize,
) -> u8
    ensures status { (result ≤ 3) ⊎ ((result ≡ 5) ⊎ ((result ≡ 6) ⊎ ((result ≡ 9)
        ⊎ ((result ≡ 10) ⊎ ((result ≡ 11) ⊎ (result ≡ 14)))))) }
    ensures done { result ≡ 0 → Gives (IsEncoded input.now id json.now) room.old room.new count.new }
    ensures malformed { result ≡ 1 → HasNoPrefix EncodesTypes input.now × (count.new ≡ 0) }
    ensures trailing_bytes { result ≡ 2 → HasTrailing input.now × (count.new ≡ 0) }
    ensures no_such_type { result ≡ 3
        → GivesNoValue input.now id json.now (call_error.NoSuchType id) × (count.new ≡ id) }
    ensures out_of_memory { result ≡ 5 → count.new ≡ 0 }
    ensures no_room { result ≡ 6
        → IsTooShort (IsEncoded input.now id json.now) room.old count.new }
    ensures no_json { result ≡ 9
        → ((tree : Data) → ¬ (IsJson tree json.now)) × (count.new ≡ 0) }
    ensures unsupported { result ≡ 10
        → GivesNoValue input.now id json.now call_error.Unsupported × (count.new ≡ 0) }
    ensures too_deep { result ≡ 11
        → GivesNoValue input.now id json.now call_error.TooDeep × (count.new ≡ 0) }
    ensures mismatch { result ≡ 14
        → GivesNoValue input.now id json.now call_error.Mismatch × (count.new ≡ 0) }
    ensures kept { result ≢ 0 → room.new ≡ room.old }
{
    answer(encode::encode(alloc, input, id, json, room), count)
}
