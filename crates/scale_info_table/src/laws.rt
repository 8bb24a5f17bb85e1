//! Laws of the encodings of tables. A law does nothing when it runs: its contract is the law.
ghost use Rattle.std.specs.Prelude.{◌≡◌, ◌++◌, List, ℕ};
ghost use Rattle.scale_info_table.specs.TableEncoding.{EncodesRegistry};
ghost use Rattle.scale_info_table.specs.declared.portable.PortableRegistry.{PortableRegistry};

pub mod examples;
mod tables;

pub use tables::{equal_tables, old_texts_stay, spelled_within_limits};

/// A table has at most one encoding, and no encoding of a table is a proper prefix of another: if
/// bytes begin with the encodings of two tables, the encodings are equal, and so are the tables.
///
/// So `00` is the only encoding of the empty table, and what follows an encoding never changes how
/// it is read.
pub fn one_text()
    ensures one { (table : PortableRegistry) (b c : List ℕ)
        → EncodesRegistry table b → EncodesRegistry table c → b ≡ c }
    ensures prefix_free { (table other : PortableRegistry) (b c x y : List ℕ)
        → EncodesRegistry table b → EncodesRegistry other c → b ++ x ≡ c ++ y
        → (b ≡ c) × (table ≡ other) }
{}
