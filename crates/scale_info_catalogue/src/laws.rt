//! Laws of errors. Nothing here does any work when it runs.
ghost use Rattle.std.specs.Prelude.{◌≡◌, ◌↔◌, IsTrue};
ghost use Rattle.scale_info_catalogue.specs.Discoveries.{AreSameRegisterErrors};
ghost use Rattle.scale_info_catalogue.specs.declared.catalogue.CatalogueError as catalogue_errors;
ghost use Rattle.scale_info_catalogue.specs.declared.discovery.RegisterError as register_errors;

use crate::catalogue::CatalogueError;
use crate::discovery::RegisterError;
use scale_info_identities::laws::equal_type_ids;

/// Errors of catalogues are equal exactly where they are one value.
pub fn equal_catalogue_errors()
    ensures { (a b : catalogue_errors.CatalogueError)
        → IsTrue (⟦<CatalogueError as PartialEq>⟧.eq a b) ↔ (a ≡ b) }
{}

/// Errors of registrations are equal exactly where they are of one variant, and the identities that
/// they name, if any, have one term.
///
/// So `Undescribed` of `u32` is another error than `Undescribed` of `u64`.
pub fn equal_register_errors()
    ensures { (a b : register_errors.RegisterError)
        → IsTrue (⟦<RegisterError as PartialEq>⟧.eq a b) ↔ AreSameRegisterErrors a b }
{
    equal_type_ids();
}
