//! Laws of identities and symbols. Nothing here does any work when it runs.
ghost use Rattle.std.specs.Prelude.{◌≡◌, ◌↔◌, IsTrue};
ghost use Rattle.std.specs.Cmp.Lexicographic.{slice_cmp};
ghost use Rattle.std.specs.Ordering.{nat_cmp, ordering_then};
ghost use Rattle.scale_info_identities.specs.TypeIds.{term_of};
ghost use Rattle.scale_info_identities.specs.declared.symbol.UntrackedSymbol as untracked;
ghost use Rattle.scale_info_identities.specs.declared.type_id.TypeId.{TypeId, out-TypeId};

use crate::symbol::UntrackedSymbol;

/// Two identities are equal exactly where their terms are: heads by their bytes, numbers and
/// arguments.
///
/// So the identity of `Vec<u8>` equals any other with the head `Vec`, no numbers and `u8` as its
/// one argument, wherever its text and its lists lie in memory.
pub fn equal_type_ids()
    ensures { (a b : TypeId)
        → IsTrue (⟦<crate::type_id::TypeId as PartialEq>⟧.eq a b) ↔ (term_of a ≡ term_of b) }
{}

/// Identities are ordered by their heads, then by their numbers, then by their arguments.
pub fn ordered_type_ids()
    ensures { (a b : TypeId) → ⟦<crate::type_id::TypeId as Ord>⟧.cmp a b
        ≡ ordering_then (slice_cmp nat_cmp (out-TypeId a).head.now (out-TypeId b).head.now)
        (ordering_then (slice_cmp nat_cmp (out-TypeId a).nums (out-TypeId b).nums)
        (slice_cmp ⟦<crate::type_id::TypeId as Ord>⟧.cmp (out-TypeId a).args (out-TypeId b).args)) }
{}

/// Equal identities are hashed alike.
pub fn hashed_type_ids()
    ensures { (a b : TypeId) → IsTrue (⟦<crate::type_id::TypeId as PartialEq>⟧.eq a b)
        → ⟦<crate::type_id::TypeId as std::hash::Hash>⟧.hash_input a
        ≡ ⟦<crate::type_id::TypeId as std::hash::Hash>⟧.hash_input b }
{}

/// Symbols are equal, and ordered, by their numbers.
///
/// So the symbol with the number 2 comes before the one with the number 10.
pub fn symbols_by_number<T>()
    ensures equal { (a b : untracked.UntrackedSymbol T)
        → IsTrue (⟦<UntrackedSymbol<T> as PartialEq>⟧.eq a b) ↔ (a.id ≡ b.id) }
    ensures ordered { (a b : untracked.UntrackedSymbol T)
        → ⟦<UntrackedSymbol<T> as Ord>⟧.cmp a b ≡ nat_cmp a.id b.id }
{}
