//! Laws of the segments of paths. Nothing here does any work when it runs.
ghost use Rattle.std.specs.Prelude.{◌≡◌, ◌↔◌, IsTrue, ℕ, List};
ghost use Rattle.scale_info_segments.specs.TypePaths.{IsPieces};
ghost use Rattle.scale_info_segments.specs.declared.segments.PathError as path_errors;

use crate::segments::PathError;

/// A text has one list of pieces around `::`.
///
/// `a:::b` has the pieces `a` and `:b`, since the first `::` counts, and no others.
pub fn one_list_of_pieces()
    ensures { (text : List ℕ) (pieces others : List (List ℕ)) → IsPieces text pieces
        → IsPieces text others → pieces ≡ others }
{}

/// Errors of paths are equal exactly where they are one value.
///
/// So a path whose first bad segment has the index 0 is refused otherwise than one where it has the
/// index 1.
pub fn equal_path_errors()
    ensures { (a b : path_errors.PathError)
        → IsTrue (⟦<PathError as PartialEq>⟧.eq a b) ↔ (a ≡ b) }
{}
