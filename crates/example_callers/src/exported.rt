//! Exports types, with a contract that speaks of every numbering. There is only one.
ghost use Rattle.scale_info.specs.Encodings.{AppendsEncoding};
ghost use Rattle.scale_info.specs.CatalogueSystems.{catalogue_system};
ghost use Rattle.scale_info.specs.Discoveries.{roots_of};
ghost use Rattle.scale_info.specs.TypeIds.{Term};
ghost use Rattle.scale_info.specs.Numberings.{IsNumbering};
ghost use Rattle.scale_info.specs.Tables.{ArePlaces, IsTable};
ghost use Rattle.scale_info.specs.TableEncoding.{EncodesRegistry};
ghost use Rattle.scale_info.specs.Types.{PortableRegistry};
ghost use Rattle.scale_info.specs.Pruned.{IsChosen};
ghost use Rattle.scale_info.specs.TypeSystems.{entry_of};
ghost use Rattle.std.specs.BTreeMap.{get};
ghost use Rattle.std.specs.Ordering.{nat_cmp};
ghost use Rattle.std.specs.Prelude.{◌≡◌, ◌↔◌, IfOk, List, OnErr, Some, length, map, slice_get, ℕ};

use scale_info::MetaType;
use scale_info::export::{ExportError, Exported, export};
use scale_info::meta_type::Catalogue;
use std::alloc::Global;

/// Appends the table of what the chosen types reach.
///
/// For each numbering of the catalogue from the types, the ids are their places in it, and by these
/// ids the filter was asked. For each numbering from the types that it chose, the output grew by an
/// encoding of the table of that, and a kept type has its place there as new id.
pub fn export_chosen<F: FnMut(u32) -> bool>(
    alloc: Global,
    catalogue: &Catalogue,
    types: &[MetaType],
    filter: F,
    out: &mut Vec<u8>,
) -> Result<Exported, ExportError>
    requires { F.IsAlwaysCallable filter }
    ensures ok { IfOk result (λ exported. (order : List Term)
        → IsNumbering (catalogue_system catalogue.now) (roots_of types.now) order
        → ArePlaces order (roots_of types.now) exported.ids.items
        × ((chosen : List ℕ) × (last : F) × (tops : List Term)
        × IsChosen F.step filter (length order) chosen last × ArePlaces order tops chosen
        × ((kept : List Term) → IsNumbering (catalogue_system catalogue.now) tops kept
        → ((table : PortableRegistry)
        × IsTable (catalogue_system catalogue.now) kept (map entry_of table.types)
        × AppendsEncoding (EncodesRegistry table) out.old.items out.new.items)
        × ((old new : ℕ) → (get nat_cmp exported.map old ≡ Some new)
        ↔ ((t : Term) × (slice_get order old ≡ Some t) × (slice_get kept new ≡ Some t)))))) }
    ensures err { OnErr result (out.new.items ≡ out.old.items) }
{
    export(alloc, catalogue, types, filter, out)
}
