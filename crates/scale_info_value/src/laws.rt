//! Laws of the values that are decoded by a table. A law does nothing when it runs: its contract is
//! the law.
ghost use Rattle.std.specs.Prelude.{◌≡◌, ◌-◌, ◌++◌, IsTrue, Some, List, ℕ, map, slice_get};
ghost use Rattle.std.specs.List.{AllByRecursion};
ghost use Rattle.scale_info_bytes.specs.Encodings.{HasPrefix, IsByte};
ghost use Rattle.scale_info_bytes.specs.Integers.{EncodesCompact};
ghost use Rattle.scale_info_bytes.specs.Strings.{EncodesText};
ghost use Rattle.scale_info_numberings.specs.Tables.{IsTable};
ghost use Rattle.scale_info_numberings.specs.Unfoldings.{unfold_to};
ghost use Rattle.scale_info_table.specs.TableSystems.{system_of};
ghost use Rattle.scale_info_walk.specs.TypeSystems.{entry_of};
ghost use Rattle.scale_info_table.specs.declared.portable.PortableRegistry.{PortableRegistry};
ghost use Rattle.scale_info_value.specs.declared.value.Value.TheVariants as Values;
ghost use Rattle.scale_info_value.specs.Equalities.{DecidesValues};
ghost use Rattle.scale_info_value.specs.ValueDefinitions.{text};
ghost use Rattle.scale_info_value.specs.IntegerDecoders.{count};
ghost use Rattle.scale_info_value.specs.Outcomes.{decoded};
ghost use Rattle.scale_info_value.specs.Readings.{reading};

pub mod examples;

use crate::value::{Failure, Value, ValueError};

/// What is decoded at an id depends on nothing but what the id unfolds to: where two ids, in one
/// table or in two, unfold to the same tree, each input is decoded alike at both. At depth 1 the
/// tree is 129 levels deep.
///
/// A sequence of itself and two sequences of one another unfold alike, so values of them are
/// decoded alike.
pub fn unfolding_decides()
    ensures { (table other : PortableRegistry) (id index depth : ℕ)
        → unfold_to (130 - depth) (system_of table) id
        ≡ unfold_to (130 - depth) (system_of other) index
        → (input : List ℕ) → reading table id depth input ≡ reading other index depth input }
{}

/// Pruning a table changes no value. Where a new table is the table of a list of nodes of an old
/// one, each input is decoded at each depth by the new table, at the index of a node in that list,
/// as by the old table at the node.
///
/// `[bool, Vec<u32>, text, u32]` pruned to the vector is `[Vec<u32>, u32]`. There id 0 decodes what
/// id 1 decoded before.
pub fn reads_alike()
    ensures { (old new : PortableRegistry) (kept : List ℕ)
        → IsTable (system_of old) kept (map entry_of new.types)
        → (index id : ℕ) → slice_get kept index ≡ Some id
        → (depth : ℕ) (input : List ℕ)
        → reading new index depth input ≡ reading old id depth input }
{}

/// A count of items or of bytes is a compact integer of the grammar of tables: each encoding is
/// decoded, whatever follows it, and nothing else is.
///
/// `fd 03` is 255 in both.
pub fn counts_as_in_tables()
    ensures encodings { (n : ℕ) (b rest : List ℕ)
        → EncodesCompact n b → count (b ++ rest) ≡ decoded n rest }
    ensures nothing_else { (input rest : List ℕ) (n : ℕ) → AllByRecursion IsByte input
        → count input ≡ decoded n rest → HasPrefix (EncodesCompact n) input rest }
{}

/// A text is a string of the grammar of tables: each encoding is decoded, whatever follows it, and
/// nothing else is.
///
/// `08 68 69` is `hi` in both.
pub fn texts_as_in_tables()
    ensures encodings { (t b rest : List ℕ)
        → EncodesText t b → text (b ++ rest) ≡ decoded (Values.Text t) rest }
    ensures nothing_else { (input rest t : List ℕ) → AllByRecursion IsByte input
        → text input ≡ decoded (Values.Text t) rest → HasPrefix (EncodesText t) input rest }
{}

/// Decoded values are equal exactly where they are one value.
pub fn equal_values()
    ensures { DecidesValues ⟦<Value as PartialEq>⟧.eq }
{
    equals_itself::<Value>()
}

/// A value equals itself.
fn equals_itself<T: Eq>()
    ensures { (a : T) → IsTrue (T.eq a a) }
{}

/// Errors of decoding values are equal exactly where they are one value.
pub fn equal_value_errors()
    ensures { DecidesValues ⟦<ValueError as PartialEq>⟧.eq }
{}

/// Failures of decoding values are equal exactly where they are one value.
pub fn equal_failures()
    ensures { DecidesValues ⟦<Failure as PartialEq>⟧.eq }
{}
