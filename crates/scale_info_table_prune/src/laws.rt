//! Laws of what pruning of bytes returns. Nothing here does any work when it runs.
ghost use Rattle.std.specs.Prelude.{◌≡◌, ◌↔◌, IsTrue};
ghost use Rattle.scale_info_table_prune.specs.declared.prune.PruneError as prune_errors;

use crate::prune::PruneError;

/// Errors of pruning are equal exactly where they are one value.
///
/// So bytes are refused otherwise where the given id 7 is no index than where the given id 8 is
/// none.
pub fn equal_prune_errors()
    ensures { (a b : prune_errors.PruneError)
        → IsTrue (⟦<PruneError as PartialEq>⟧.eq a b) ↔ (a ≡ b) }
{}
