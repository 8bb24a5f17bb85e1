//! Registers types one by one, prunes their table, and writes what is kept.
ghost use Rattle.scale_info.specs.Headline.{AreAccepted, AreChosenTypes, History, IsTableOf};
ghost use Rattle.scale_info.specs.Headline.{IsWritten, Pruning, catalogue_of, registry_of};
ghost use Rattle.scale_info.specs.TypeIds.{Term};
ghost use Rattle.scale_info.specs.Numberings.{IsNumbering};
ghost use Rattle.scale_info.specs.Systems.{IsReached};
ghost use Rattle.scale_info.specs.Tables.{IsTable};
ghost use Rattle.scale_info.specs.CatalogueSystems.{catalogue_system};
ghost use Rattle.scale_info.specs.TableEncoding.{EncodesRegistry};
ghost use Rattle.scale_info.specs.TypeSystems.{entry_of};
ghost use Rattle.scale_info.specs.Discoveries.{roots_of};
ghost use Rattle.scale_info.specs.Registrations.{step_roots};
ghost use Rattle.scale_info.specs.MetaDescriptions.{type_term};
ghost use Rattle.std.specs.Prelude.{◌≡◌, ◌↔◌, ◌++◌, ◌∷◌, Contains, IfOk, List, map, ℕ};

use scale_info::laws::{headline, registrations_compose};
use scale_info::meta_type::Catalogue;
use scale_info::{MetaType, PortableRegistry, Registry};
use std::alloc::Global;
use std::collections::BTreeMap;

/// Appends the bytes of the table of what the chosen types reach, and returns the new id of each
/// old one. `first` is registered, and then the others, in a loop.
///
/// The clause is the law of the whole: the registrations were accepted, and the table was pruned
/// and written; what was appended is the only encoding of the table of the one numbering from the
/// chosen types, which holds what they reach and nothing else.
pub fn register_prune_write<F: FnMut(u32) -> bool>(
    alloc: Global,
    catalogue: &Catalogue,
    first: &MetaType,
    others: &[MetaType],
    filter: F,
    out: &mut Vec<u8>,
) -> anyhow::Result<BTreeMap<u32, u32>>
    requires { F.IsAlwaysCallable filter }
    ensures { IfOk result (λ new_ids. (h : History) × (p : Pruning) × (types kept : List Term)
        × AreAccepted h × (catalogue_of h ≡ catalogue_system catalogue.now)
        × (step_roots (h.first ∷ h.later) ≡ type_term first.now ∷ roots_of others.now)
        × IsTableOf (registry_of h) p.whole × IsWritten p × (p.new_ids ≡ new_ids)
        × (out.new.items ≡ out.old.items ++ p.bytes)
        × ((bytes : List ℕ) → EncodesRegistry p.kept bytes → bytes ≡ p.bytes)
        × AreChosenTypes (registry_of h) p types
        × IsNumbering (catalogue_system catalogue.now) types kept
        × IsTable (catalogue_system catalogue.now) kept (map entry_of p.kept.types)
        × ((t : Term) → Contains kept t ↔ IsReached (catalogue_system catalogue.now) types t)) }
{
    headline();
    registrations_compose();
    let mut registry = Registry::new(alloc);
    registry.register_type(first, catalogue)?;
    for ty in others {
        registry.register_type(ty, catalogue)?;
    }
    let mut table = PortableRegistry::from_registry(alloc, &registry)?;
    let new_ids = table.retain(alloc, filter)?;
    table.encode(out)?;
    Ok(new_ids)
}
