//! Laws of symbols that borrow, and of errors of interners. Nothing here does any work when it
//! runs.
ghost use Rattle.scale_info_interner.specs.declared.interner.InternError as intern_errors;
ghost use Rattle.scale_info_interner.specs.declared.interner.Symbol as tracked;
ghost use Rattle.std.specs.Ordering.{nat_cmp};
ghost use Rattle.std.specs.Prelude.{◌≡◌, ◌↔◌, IsTrue};

use crate::interner::{InternError, Symbol};

/// Symbols that borrow their interner are equal, and ordered, by their numbers.
pub fn tracked_symbols_by_number<'a, T: 'a>()
    ensures equal { (a b : tracked.Symbol T)
        → IsTrue (⟦<Symbol<'a, T> as PartialEq>⟧.eq a b) ↔ (a.id ≡ b.id) }
    ensures ordered { (a b : tracked.Symbol T)
        → ⟦<Symbol<'a, T> as Ord>⟧.cmp a b ≡ nat_cmp a.id b.id }
{}

/// Errors of interners are equal exactly where they are one value.
pub fn equal_intern_errors()
    ensures { (a b : intern_errors.InternError)
        → IsTrue (⟦<InternError as PartialEq>⟧.eq a b) ↔ (a ≡ b) }
{}
