//! Laws of the values that are encoded by a table. A law does nothing when it runs: its contract is
//! the law.
ghost use Rattle.std.specs.Prelude.{◌≡◌, ◌++◌, List, ℕ, [], Some, map, slice_get};
ghost use Rattle.std.specs.List.{AllByRecursion};
ghost use Rattle.scale_info_bytes.specs.Encodings.{HasPrefix, IsByte};
ghost use Rattle.scale_info_numberings.specs.Tables.{IsTable};
ghost use Rattle.scale_info_table.specs.TableSystems.{system_of};
ghost use Rattle.scale_info_walk.specs.TypeSystems.{entry_of};
ghost use Rattle.scale_info_table.specs.declared.portable.PortableRegistry.{PortableRegistry};
ghost use Rattle.scale_info_value.specs.declared.value.Value.{Value};
ghost use Rattle.scale_info_value.specs.Equalities.{DecidesValues};
ghost use Rattle.scale_info_value.specs.Outcomes.{decoded};
ghost use Rattle.scale_info_value.specs.Readings.{reading};
ghost use Rattle.scale_info_value_encode.specs.Writers.{Refusal, written, refused};
ghost use Rattle.scale_info_value_encode.specs.Writings.{writing};

use crate::error::EncodeValueError;

pub mod examples;

/// The bytes of a value are decoded as that value, whatever follows them.
pub fn read_back()
    ensures { (table : PortableRegistry) (id depth : ℕ) (value : Value) (bytes : List ℕ)
        → writing table id depth value ≡ written bytes → (rest : List ℕ)
        → reading table id depth (bytes ++ rest) ≡ decoded value rest }
{}

/// A value that was decoded is encoded to the very bytes that it was decoded from.
pub fn written_as_read()
    ensures { (table : PortableRegistry) (id depth : ℕ) (input : List ℕ) (value : Value)
        (rest : List ℕ) → AllByRecursion IsByte input
        → reading table id depth input ≡ decoded value rest
        → HasPrefix (λ bytes. writing table id depth value ≡ written bytes) input rest }
{}

/// No two inputs are decoded as one value with nothing left: a value has one encoding by a type.
pub fn one_reading()
    ensures { (table : PortableRegistry) (id depth : ℕ) (input other : List ℕ) (value : Value)
        → AllByRecursion IsByte input → AllByRecursion IsByte other
        → reading table id depth input ≡ decoded value []
        → reading table id depth other ≡ decoded value [] → input ≡ other }
{}

/// A value that has no encoding, whatever the reason, is decoded from no input.
pub fn never_read()
    ensures { (table : PortableRegistry) (id depth : ℕ) (value : Value) (why : Refusal)
        (input rest : List ℕ) → writing table id depth value ≡ refused why
        → AllByRecursion IsByte input → reading table id depth input ≡ decoded value rest → ⊥ }
{}

/// Pruning a table changes no encoding. Where a new table is the table of a list of nodes of an old
/// one, what comes of a value by the new table, at the index of a node in that list, is what comes
/// of it by the old table at the node: the same bytes, or the same refusal, with the same path.
///
/// `[bool, Vec<u32>, text, u32]` pruned to the vector is `[Vec<u32>, u32]`. There a value is
/// encoded at id 0 as it was at id 1 before.
pub fn writes_alike()
    ensures { (old new : PortableRegistry) (kept : List ℕ)
        → IsTable (system_of old) kept (map entry_of new.types)
        → (index id : ℕ) → slice_get kept index ≡ Some id
        → (depth : ℕ) (value : Value)
        → writing new index depth value ≡ writing old id depth value }
{}

/// Errors of encoding values are equal exactly where they are one value.
pub fn equal_encode_errors()
    ensures { DecidesValues ⟦<EncodeValueError as PartialEq>⟧.eq }
{}
