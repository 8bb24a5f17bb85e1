//! Laws of errors. Nothing here does any work when it runs.
ghost use Rattle.std.specs.Prelude.{◌≡◌, ◌↔◌, IsTrue};
ghost use Rattle.scale_info_type_info.specs.declared.type_info.InfoError as info_errors;

use crate::type_info::InfoError;

/// Errors of describing a type are equal exactly where they are one value.
pub fn equal_info_errors()
    ensures { (a b : info_errors.InfoError)
        → IsTrue (⟦<InfoError as PartialEq>⟧.eq a b) ↔ (a ≡ b) }
{}
