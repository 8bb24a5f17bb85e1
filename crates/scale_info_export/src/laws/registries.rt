//! Tables of registries.
ghost use Rattle.scale_info_identities.specs.TypeIds.{Term};
ghost use Rattle.scale_info_numberings.specs.Numberings.{IsNumbering};
ghost use Rattle.scale_info_numberings.specs.Systems.{System};
ghost use Rattle.scale_info_numberings.specs.Tables.{IsTable};
ghost use Rattle.scale_info_catalogue.specs.Discoveries.{nodes_of};
ghost use Rattle.scale_info_registry.specs.Registrations.{IsRegistration, Registered, registered};
ghost use Rattle.scale_info_types.specs.Shapes.{Shape};
ghost use Rattle.scale_info_walk.specs.TypeSystems.{entry_of};
ghost use Rattle.scale_info_table.specs.BuiltTables.{numbered_from};
ghost use Rattle.scale_info_table.specs.declared.portable.PortableRegistry as tables;
ghost use Rattle.std.specs.Prelude.{◌≡◌, [], List, length, map};

use scale_info_registry::laws::registered_afresh;

/// Where the roots were registered into an empty registry, its identities are the one numbering
/// from the roots, and the table of the registry is the table of that.
///
/// So the table of a registry with `Vec<u8>`, and nothing before it, has a sequence of the type at
/// index 1 and then `u8`.
pub fn registered_tables()
    ensures { (S : System Shape Term) (R : List Term) (r : Registered)
        (table : tables.PortableRegistry)
        → IsRegistration S (registered [] []) R r
        → table.types ≡ numbered_from 0 r.types → length table.types ≡ length r.identities
        → IsNumbering S R (nodes_of r.identities)
        × IsTable S (nodes_of r.identities) (map entry_of table.types) }
{
    registered_afresh();
}
