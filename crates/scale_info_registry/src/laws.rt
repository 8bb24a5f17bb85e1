//! Laws of registrations. Nothing here does any work when it runs.
ghost use Rattle.std.specs.Prelude.{◌≡◌, ◌↔◌, ◌++◌, ◌∷◌, [], IsTrue, List, length, map};
ghost use Rattle.scale_info_identities.specs.TypeIds.{Term};
ghost use Rattle.scale_info_numberings.specs.Numberings.{IsNumbering};
ghost use Rattle.scale_info_numberings.specs.Systems.{System, Grows};
ghost use Rattle.scale_info_numberings.specs.Tables.{IsTable};
ghost use Rattle.scale_info_catalogue.specs.Catalogues.{AreSame, HasOneMore};
ghost use Rattle.scale_info_types.specs.MetaDescriptions.{MetaDescription};
ghost use Rattle.scale_info_types.specs.Shapes.{Shape};
ghost use Rattle.scale_info_catalogue.specs.declared.catalogue.Catalogue.{Catalogue};
ghost use Rattle.scale_info_catalogue.specs.CatalogueSystems.{catalogue_system};
ghost use Rattle.scale_info_catalogue.specs.Discoveries.{nodes_of};
ghost use Rattle.scale_info_registry.specs.Registrations.{
  AreSteps,
  IsRegistration,
  Registered,
  Step,
  last_step,
  portable_entry,
  registered,
  step_roots,
};

use crate::registry::Registry;
use scale_info_identities::laws::equal_type_ids;
use scale_info_types::laws::equal_portable;

/// One registration after another is a registration of both lists of roots, also where the
/// catalogue grew in between.
///
/// So `bool` registered, and then `Vec<u8>`, gives what both in one list give.
pub fn registrations_compose()
    ensures { (S T : System Shape Term) (a b c : Registered) (R Q : List Term)
        → Grows S T → IsRegistration S a R b → IsRegistration T b Q c
        → IsRegistration T a (R ++ Q) c }
{}

/// What is registered into an empty registry is the one numbering from the roots, and its
/// descriptions are the table of that.
///
/// So `Vec<u8>` registered into an empty registry gives it the id 0, and `u8` the id 1.
pub fn registered_afresh()
    ensures { (S : System Shape Term) (R : List Term) (r : Registered)
        → IsRegistration S (registered [] []) R r → length r.types ≡ length r.identities
        → IsNumbering S R (nodes_of r.identities)
        × IsTable S (nodes_of r.identities) (map portable_entry r.types) }
{}

/// After one registration or more under a catalogue that only grew, the first into an empty
/// registry, the identities are the one numbering of the last catalogue from all roots, joined in
/// order, and the descriptions are its table.
///
/// So it makes no difference whether `bool` and `Vec<u8>` are registered in two calls or in one.
pub fn registrations_afresh()
    ensures { (first : Step) (later : List Step)
        → IsRegistration first.catalogue (registered [] []) first.roots first.registry
        → AreSteps first later
        → length (last_step first later).registry.types
        ≡ length (last_step first later).registry.identities
        → IsNumbering (last_step first later).catalogue (step_roots (first ∷ later))
        (nodes_of (last_step first later).registry.identities)
        × IsTable (last_step first later).catalogue
        (nodes_of (last_step first later).registry.identities)
        (map portable_entry (last_step first later).registry.types) }
{}

/// A catalogue with one more description has each entry that it had.
pub fn catalogue_grows()
    ensures one_more { (old new : Catalogue) (t : Term) (d : MetaDescription)
        → HasOneMore old new t d → Grows (catalogue_system old) (catalogue_system new) }
    ensures same { (old new : Catalogue) → AreSame old new
        → Grows (catalogue_system old) (catalogue_system new) }
{}

/// Registries are equal exactly where their identities have the same terms and their descriptions
/// are the same, in order.
///
/// So `bool` and `u8`, registered in this order, and the same two in the other order, give two
/// registries that are not equal.
pub fn equal_registries()
    ensures { (a b : Registered) → IsTrue (⟦<Registry as PartialEq>⟧.eq a b)
        ↔ ((nodes_of a.identities ≡ nodes_of b.identities) × (a.types ≡ b.types)) }
{
    equal_type_ids();
    equal_portable();
}
