//! Laws. Each is the contract of a function without work.
ghost use Rattle.std.specs.Prelude.{◌≡◌, ◌↔◌, IsTrue};
ghost use Rattle.scale_info_json_text.specs.declared.error.JsonTextError as errors;

use crate::error::JsonTextError;

/// Errors of reading a text are equal exactly where they are one value.
pub fn equal_json_text_errors()
    ensures { (a b : errors.JsonTextError)
        → IsTrue (⟦<JsonTextError as PartialEq>⟧.eq a b) ↔ (a ≡ b) }
{}
