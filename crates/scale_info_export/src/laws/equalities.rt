//! What `==` compares in what [`export`](crate::export::export) returns.
ghost use Rattle.std.specs.Prelude.{◌≡◌, ◌↔◌, IsTrue};
ghost use Rattle.scale_info_export.specs.Exports.{AreSameExportErrors};
ghost use Rattle.scale_info_export.specs.declared.export.ExportError as export_errors;
ghost use Rattle.scale_info_export.specs.declared.export.Exported as exporteds;

use crate::export::{ExportError, Exported};
use scale_info_identities::laws::equal_type_ids;

/// What is returned is equal exactly where the ids are, in order, and the maps have the same
/// entries.
pub fn equal_exported()
    ensures { (a b : exporteds.Exported) → IsTrue (⟦<Exported as PartialEq>⟧.eq a b)
        ↔ ((a.ids.items ≡ b.ids.items) × (a.map.entries ≡ b.map.entries)) }
{}

/// Errors of exports are equal exactly where they are of one variant and what they hold is the
/// same; an identity within is compared as its term.
///
/// So `Undescribed` of `u32` is another error than `Undescribed` of `u64`.
pub fn equal_export_errors()
    ensures { (a b : export_errors.ExportError)
        → IsTrue (⟦<ExportError as PartialEq>⟧.eq a b) ↔ AreSameExportErrors a b }
{
    equal_type_ids();
}
