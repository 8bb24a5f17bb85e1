//! Programs' bodies that register types of the program and make a table of them.
ghost use Rattle.scale_info.specs.TypeIds.{Term};
ghost use Rattle.scale_info.specs.Numberings.{IsNumbering};
ghost use Rattle.scale_info.specs.Tables.{IsTable};
ghost use Rattle.scale_info.specs.CatalogueSystems.{catalogue_system};
ghost use Rattle.scale_info.specs.Discoveries.{roots_of};
ghost use Rattle.scale_info.specs.TypeSystems.{entry_of};
ghost use Rattle.std.specs.Prelude.{◌++◌, List, IfOk, map};

use scale_info::laws::{catalogue_grows, registered_tables, registrations_compose};
use scale_info::meta_type::Catalogue;
use scale_info::{MetaType, PortableRegistry, Registry, TypeInfo};
use std::alloc::Global;
use std::io::Write;

/// Writes the bytes of the table of `Vec<u32>`: a sequence of the type at index 1, and `u32`.
pub fn write_numbers<W: Write>(alloc: Global, output: &mut W) -> anyhow::Result<()> {
    let mut catalogue = Catalogue::new(alloc);
    catalogue.add::<Vec<u32>>()?;
    catalogue.add::<u32>()?;
    let mut registry = Registry::new(alloc);
    registry.register_type(&MetaType::new::<Vec<u32>>(alloc)?, &catalogue)?;
    let mut bytes = Vec::new(alloc);
    PortableRegistry::from_registry(alloc, &registry)?.encode(&mut bytes)?;
    output.write_all(&bytes)?;
    Ok(())
}

/// The table of types that are registered in two steps; between the two, the catalogue gets the
/// description of `T`. It is the table of the one numbering from all of them, in order, as if they
/// had been registered at once.
pub fn table_in_two_steps<T: TypeInfo>(
    alloc: Global,
    catalogue: &mut Catalogue,
    first: Vec<MetaType>,
    second: Vec<MetaType>,
) -> anyhow::Result<PortableRegistry>
    ensures { IfOk result (λ table. (order : List Term)
        × IsNumbering (catalogue_system catalogue.new)
        (roots_of first.items ++ roots_of second.items)
        order
        × IsTable (catalogue_system catalogue.new) order (map entry_of table.types)) }
{
    catalogue_grows();
    registrations_compose();
    registered_tables();
    let mut registry = Registry::new(alloc);
    registry.register_types(first, catalogue)?;
    catalogue.add::<T>()?;
    registry.register_types(second, catalogue)?;
    Ok(PortableRegistry::from_registry(alloc, &registry)?)
}
