//! Laws of what walks return. Nothing here does any work when it runs.
ghost use Rattle.std.specs.Prelude.{◌≡◌, ◌↔◌, IsTrue};
ghost use Rattle.scale_info_walk.specs.declared.walk.Numbering as numberings;
ghost use Rattle.scale_info_walk.specs.declared.walk.RetainError as retain_errors;

use crate::walk::{Numbering, RetainError};

/// Errors of walks are equal exactly where they are one value.
///
/// So a walk that comes to the id 7, which is no index, is refused otherwise than one that comes to
/// the id 8.
pub fn equal_retain_errors()
    ensures { (a b : retain_errors.RetainError)
        → IsTrue (⟦<RetainError as PartialEq>⟧.eq a b) ↔ (a ≡ b) }
{}

/// Numberings are equal exactly where their orders and their steps are.
///
/// So those of one order differ where one of the walks looked at more references.
pub fn equal_numberings()
    ensures { (a b : numberings.Numbering) → IsTrue (⟦<Numbering as PartialEq>⟧.eq a b)
        ↔ ((a.order.items ≡ b.order.items) × (a.steps ≡ b.steps)) }
{}
