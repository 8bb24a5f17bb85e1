//! Laws. Each is the contract of a function without work.
ghost use Rattle.std.specs.Prelude.{◌≡◌, ◌↔◌, ◌++◌, IsTrue, codes};
ghost use Rattle.serde_json.specs.Data.{Data};
ghost use Rattle.serde_json.specs.Written.{compact_text};
ghost use Rattle.scale_info_json_tree.specs.JsonTables.{table_tree, MeansTable};
ghost use Rattle.scale_info_json_tree.specs.JsonExamples.{vec_u32};
ghost use Rattle.scale_info_json_tree.specs.declared.error.JsonError as json_errors;

use crate::error::JsonError;
use scale_info_table::portable::PortableRegistry;

/// A tree means at most one table.
pub fn one_meaning()
    ensures { (tree : Data) (table other : PortableRegistry)
        → MeansTable tree table → MeansTable tree other → table ≡ other }
{}

/// The text of the table of `Vec<u32>`, which has two entries.
pub fn example_text()
    ensures { compact_text (table_tree vec_u32)
        ≡ codes "{\"types\":[{\"id\":0,\"type\":{\"def\":{\"sequence\":{\"type\":1}}}},"
        ++ codes "{\"id\":1,\"type\":{\"def\":{\"primitive\":\"u32\"}}}]}" }
{}

/// Errors of reading are equal exactly where they are one value.
pub fn equal_json_errors()
    ensures { (a b : json_errors.JsonError)
        → IsTrue (⟦<JsonError as PartialEq>⟧.eq a b) ↔ (a ≡ b) }
{}
