//! Laws of tables: their equality, and which of them have an encoding.
ghost use Rattle.scale_info_table.specs.TableEncoding.{EncodesRegistry};
ghost use Rattle.scale_info_table.specs.TableEncoding.{EncodesRegistryWithoutMaps};
ghost use Rattle.scale_info_table.specs.declared.portable.PortableRegistry as tables;
ghost use Rattle.scale_info_grammar.specs.Limits.{AreEntriesWithinLimits};
ghost use Rattle.std.specs.Prelude.{◌≡◌, ◌↔◌, IsTrue, List, ℕ};

use crate::portable::PortableRegistry;
use scale_info_types::laws::equal_portable;

/// Tables are equal exactly where they are one value: ids, descriptions and the order of the
/// entries all count.
pub fn equal_tables()
    ensures { (a b : tables.PortableRegistry)
        → IsTrue (⟦<PortableRegistry as PartialEq>⟧.eq a b) ↔ (a ≡ b) }
{
    equal_portable();
}

/// A table within the limits of the encoding has an encoding: its numbers are of their types, its
/// texts are UTF-8, and no list or text of it has more than 4294967295 items or bytes.
///
/// So `encode` never reports that such a table is too long.
pub fn spelled_within_limits()
    ensures { (table : tables.PortableRegistry)
        → AreEntriesWithinLimits table.types → (bytes : List ℕ) × EncodesRegistry table bytes }
{}

/// What encodes a table by the grammar without maps encodes the same table by the whole grammar.
///
/// So bytes that the crate `scale-info` wrote are read as the table that it wrote.
pub fn old_texts_stay()
    ensures { (table : tables.PortableRegistry) (bytes : List ℕ)
        → EncodesRegistryWithoutMaps table bytes → EncodesRegistry table bytes }
{}
