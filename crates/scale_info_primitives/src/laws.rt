//! Laws of built-in types. Nothing here does any work when it runs.
ghost use Rattle.std.specs.Ordering.{nat_cmp};
ghost use Rattle.std.specs.Prelude.{◌≡◌, ◌↔◌, IsTrue};
ghost use Rattle.scale_info_primitives.specs.Primitives.{primitive_index};
ghost use Rattle.scale_info_primitives.specs.declared.primitive.TypeDefPrimitive as primitives;

use crate::primitive::TypeDefPrimitive;

/// Primitives are equal exactly where they are one value.
pub fn equal_primitives()
    ensures { (a b : primitives.TypeDefPrimitive)
        → IsTrue (⟦<TypeDefPrimitive as PartialEq>⟧.eq a b) ↔ (a ≡ b) }
{}

/// Primitives are ordered as declared: `bool`, `char`, `str`, the unsigned numbers from `u8` to
/// `u256`, and the signed ones from `i8` to `i256`.
pub fn ordered_primitives()
    ensures { (a b : primitives.TypeDefPrimitive)
        → ⟦<TypeDefPrimitive as Ord>⟧.cmp a b ≡ nat_cmp (primitive_index a) (primitive_index b) }
{}
