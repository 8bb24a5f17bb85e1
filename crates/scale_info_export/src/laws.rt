//! The law of the whole: what the bytes of a pruned table say of the types that were registered.
//! Nothing here does any work when it runs.
ghost use Rattle.std.specs.Prelude.{◌≡◌, ◌↔◌, [], Contains, List, map, ℕ};
ghost use Rattle.scale_info_export.specs.Headline.{AreAccepted, AreChosenTypes, AreNewIds};
ghost use Rattle.scale_info_export.specs.Headline.{History, IsTableOf, IsWritten, Pruning};
ghost use Rattle.scale_info_export.specs.Headline.{catalogue_of, registry_of};
ghost use Rattle.scale_info_identities.specs.TypeIds.{Term};
ghost use Rattle.scale_info_numberings.specs.Matches.{IsMatch};
ghost use Rattle.scale_info_numberings.specs.Numberings.{IsNumbering};
ghost use Rattle.scale_info_numberings.specs.Systems.{IsReached, System};
ghost use Rattle.scale_info_numberings.specs.Tables.{IsTable};
ghost use Rattle.scale_info_registry.specs.Registrations.{IsRegistration, Registered};
ghost use Rattle.scale_info_registry.specs.Registrations.{registered};
ghost use Rattle.scale_info_table.specs.TableEncoding.{EncodesRegistry};
ghost use Rattle.scale_info_table.specs.TableSystems.{system_of};
ghost use Rattle.scale_info_table.specs.declared.portable.PortableRegistry as tables;
ghost use Rattle.scale_info_types.specs.Shapes.{Shape};
ghost use Rattle.scale_info_walk.specs.TypeSystems.{entry_of};

use scale_info_registry::laws::{registered_afresh, registrations_afresh};
use scale_info_table::laws::one_text;
use scale_info_types::laws::shape_and_references;

mod equalities;
mod registries;

pub use equalities::{equal_export_errors, equal_exported};
pub use registries::registered_tables;

/// After any list of accepted registrations and one successful `retain`, the bytes are the
/// grammar's only text of the one depth-first numbering of what the chosen types reach, as if
/// registered afresh; and between any two tables, bytes and new ids of the chosen types agree
/// exactly where the chosen parts match one to one in order, contents and references.
///
/// In clauses: the bytes are the only encoding of the kept table, and encode no other one
/// (`only_text`). Each chosen id is that of a type (`chosen_types`). The kept table is the table of
/// the one numbering of the catalogue from the chosen types (`one_numbering`), which holds what
/// they reach, no more and no less (`reached_exactly`). A registration of the chosen types alone,
/// into an empty registry, has the same table (`registered_afresh`). Two prunings, of any two
/// tables, have the same bytes and the same new ids of the chosen ones, in order, exactly where a
/// match of what the chosen ones reach takes the ones to the others in order (`match_exactly`).
pub fn headline()
    ensures only_text { (p : Pruning) → IsWritten p
        → ((bytes : List ℕ) → EncodesRegistry p.kept bytes → bytes ≡ p.bytes)
        × ((table : tables.PortableRegistry) → EncodesRegistry table p.bytes → table ≡ p.kept) }
    ensures chosen_types { (h : History) (p : Pruning)
        → AreAccepted h → IsTableOf (registry_of h) p.whole → IsWritten p
        → (types : List Term) × AreChosenTypes (registry_of h) p types }
    ensures one_numbering { (h : History) (p : Pruning) (types : List Term)
        → AreAccepted h → IsTableOf (registry_of h) p.whole → IsWritten p
        → AreChosenTypes (registry_of h) p types
        → (kept : List Term) × IsNumbering (catalogue_of h) types kept
        × IsTable (catalogue_of h) kept (map entry_of p.kept.types)
        × ((other : List Term) → IsNumbering (catalogue_of h) types other → other ≡ kept) }
    ensures reached_exactly { (S : System Shape Term) (types kept : List Term)
        → IsNumbering S types kept → (t : Term) → Contains kept t ↔ IsReached S types t }
    ensures registered_afresh { (h : History) (p : Pruning) (types : List Term)
        (afresh : Registered) (table : tables.PortableRegistry)
        → AreAccepted h → IsTableOf (registry_of h) p.whole → IsWritten p
        → AreChosenTypes (registry_of h) p types
        → IsRegistration (catalogue_of h) (registered [] []) types afresh → IsTableOf afresh table
        → table ≡ p.kept }
    ensures match_exactly { (p q : Pruning) (ids others : List ℕ)
        → IsWritten p → IsWritten q → AreNewIds p ids → AreNewIds q others
        → ((p.bytes ≡ q.bytes) × (ids ≡ others))
        ↔ ((pairs : List (ℕ × ℕ))
        × IsMatch (system_of p.whole) p.chosen (system_of q.whole) q.chosen pairs) }
{
    shape_and_references();
    one_text();
    registered_afresh();
    registrations_afresh();
}
