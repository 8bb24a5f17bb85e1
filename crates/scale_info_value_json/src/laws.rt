//! Laws of the values that are taken from trees. A law does nothing when it runs: its contract is
//! the law.
ghost use Rattle.std.specs.Prelude.{◌≡◌, ◌≤◌, ◌++◌, List, ℕ, Some, true};
ghost use Rattle.std.specs.List.{AllByRecursion};
ghost use Rattle.json.specs.Tree.{depth};
ghost use Rattle.serde_json.specs.Data.{Data};
ghost use Rattle.serde_json.specs.Read.{read, max_depth};
ghost use Rattle.scale_info_bytes.specs.Encodings.{IsByte, HasPrefix};
ghost use Rattle.scale_info_table.specs.declared.portable.PortableRegistry.{PortableRegistry};
ghost use Rattle.scale_info_value.specs.declared.value.Value.{Value};
ghost use Rattle.scale_info_value.specs.Equalities.{DecidesValues};
ghost use Rattle.scale_info_value.specs.Outcomes.{decoded};
ghost use Rattle.scale_info_value.specs.Readings.{reading};
ghost use Rattle.scale_info_value_encode.specs.Writers.{written};
ghost use Rattle.scale_info_value_encode.specs.Writings.{writing};
ghost use Rattle.scale_info_value_json.specs.Takers.{taken};
ghost use Rattle.scale_info_value_json.specs.Takings.{taking};
ghost use Rattle.scale_info_value_json.specs.TreesOfTexts.{IsTakenFrom, has_own_names};
ghost use Rattle.scale_info_value_json.specs.TreesOfTexts.{IsTreeOf};
ghost use Rattle.scale_info_value_text.specs.ValueTexts.{value_text};

pub mod examples;

use crate::error::ValueJsonError;

/// The tree of the text of a value that was decoded is taken as that value, where each name comes
/// once among the fields of each record and of each variant in it.
///
/// `08 01 00 00 00 02 00 00 00` is decoded by `Vec<u32>` as the list of 1 and 2, its text is
/// `[1,2]`, and from the tree of that text the list of 1 and 2 is taken.
pub fn text_taken_back()
    ensures { (table : PortableRegistry) (id depth : ℕ) (input : List ℕ) (value : Value)
        (rest : List ℕ) → AllByRecursion IsByte input
        → reading table id depth input ≡ decoded value rest → has_own_names value ≡ true
        → IsTakenFrom table id depth value }
{}

/// So is the tree of the text of a value that is encoded, which need not have been decoded.
pub fn encoded_text_taken_back()
    ensures { (table : PortableRegistry) (id depth : ℕ) (value : Value) (bytes : List ℕ)
        → writing table id depth value ≡ written bytes → AllByRecursion IsByte bytes
        → has_own_names value ≡ true → IsTakenFrom table id depth value }
{}

/// A text is that of one tree, and `serde_json` reads it as no other. It reads each text of which
/// the arrays and objects nest up to 127 deep.
pub fn one_tree()
    ensures unique { (text : List ℕ) (tree other : Data)
        → IsTreeOf text tree → IsTreeOf text other → tree ≡ other }
    ensures read { (text : List ℕ) (tree other : Data)
        → IsTreeOf text tree → read text ≡ Some other → other ≡ tree }
    ensures shallow { (text : List ℕ) (tree : Data) → (t : IsTreeOf text tree)
        → depth t.json ≤ max_depth → read text ≡ Some tree }
{}

/// From bytes to JSON and back. Of a value that was decoded from bytes, the tree that `serde_json`
/// reads of its text is taken as that value, and its encoding is the bytes that it was decoded
/// from.
pub fn json_and_bytes()
    ensures { (table : PortableRegistry) (id depth : ℕ) (input : List ℕ) (value : Value)
        (rest : List ℕ) (tree : Data) → AllByRecursion IsByte input
        → reading table id depth input ≡ decoded value rest → has_own_names value ≡ true
        → read (value_text table id value) ≡ Some tree
        → (taking table id depth tree ≡ taken value)
        × HasPrefix (λ bytes. writing table id depth value ≡ written bytes) input rest }
{}

/// From JSON to bytes and back. A value that is taken from a tree has an encoding, which is decoded
/// as that value, whatever follows it.
pub fn taken_is_encoded()
    ensures { (table : PortableRegistry) (id depth : ℕ) (tree : Data) (value : Value)
        → taking table id depth tree ≡ taken value
        → (bytes : List ℕ) × (writing table id depth value ≡ written bytes)
        × ((rest : List ℕ) → reading table id depth (bytes ++ rest) ≡ decoded value rest) }
{}

/// Errors of taking values are equal exactly where they are one value.
pub fn equal_value_json_errors()
    ensures { DecidesValues ⟦<ValueJsonError as PartialEq>⟧.eq }
{}
