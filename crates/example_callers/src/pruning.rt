//! Callers that prune, whose contracts speak of every numbering from the chosen ids. There is only
//! one.
ghost use Rattle.std.specs.Prelude.{List, ℕ, Some, IfErr, IfOk, OnErr, ◌≡◌, ◌↔◌, ◌<◌, length, map};
ghost use Rattle.std.specs.Prelude.{slice_get};
ghost use Rattle.std.specs.BTreeMap.{get};
ghost use Rattle.std.specs.Ordering.{nat_cmp};
ghost use Rattle.scale_info.specs.Encodings.{AppendsEncoding};
ghost use Rattle.scale_info.specs.Numberings.{IsNumbering};
ghost use Rattle.scale_info.specs.Systems.{System};
ghost use Rattle.scale_info.specs.Tables.{IsTable};
ghost use Rattle.scale_info.specs.Prunes.{HasNewIds};
ghost use Rattle.scale_info.specs.Roots.{AreRoots};
ghost use Rattle.scale_info.specs.Ty.{EncodesTypes};
ghost use Rattle.scale_info.specs.Shapes.{Shape};
ghost use Rattle.scale_info.specs.Types.{PortableType};
ghost use Rattle.scale_info.specs.Pruned.{IsChosen, IsRetainError};
ghost use Rattle.scale_info.specs.TypeSystems.{entry_of, types_system};

use scale_info::laws::shape_and_references;
use scale_info::{PortableRegistry, PruneError, RetainError, prune};
use std::alloc::Global;
use std::collections::BTreeMap;

/// Keeps what the filter chooses and all that it reaches. For each numbering of the old table from
/// the chosen ids, the new table is its table, and an old id has its place there as new id.
pub fn keep_chosen<F: FnMut(u32) -> bool>(
    alloc: Global,
    table: &mut PortableRegistry,
    filter: F,
) -> Result<BTreeMap<u32, u32>, RetainError>
    requires { F.IsAlwaysCallable filter }
    ensures ok { IfOk result (λ new_ids. (chosen : List ℕ) × (last : F)
        × IsChosen F.step filter (length table.old.types) chosen last
        × ((order : List ℕ) → IsNumbering (types_system table.old.types) chosen order
        → IsTable (types_system table.old.types) order (map entry_of table.new.types)
        × HasNewIds order new_ids)) }
    ensures err { OnErr result (table.new ≡ table.old) }
    ensures cause { IfErr result (IsRetainError F.step filter table.old.types) }
{
    table.retain(alloc, filter)
}

/// Keeps everything. Where the table is that of a numbering, and the `id` of each entry is its
/// index, the table stays as it is, and the new id of each type is its old one.
pub fn keep_all(
    alloc: Global,
    table: &mut PortableRegistry,
) -> Result<BTreeMap<u32, u32>, RetainError>
    ensures same { IfOk result (λ new_ids. (S : System Shape ℕ) (roots nodes : List ℕ)
        → IsNumbering S roots nodes → IsTable S nodes (map entry_of table.old.types)
        → ((i : ℕ) (entry : PortableType) → slice_get table.old.types i ≡ Some entry
        → entry.id ≡ i)
        → (table.new.types ≡ table.old.types)
        × ((old new : ℕ) → (get nat_cmp new_ids old ≡ Some new)
        ↔ ((old ≡ new) × (new < length table.old.types)))) }
    ensures err { OnErr result (table.new ≡ table.old) }
{
    shape_and_references();
    table.retain(alloc, |_| true)
}

/// Appends the table of what the ids reach. The input encodes a table; for each numbering of it
/// from the ids in ascending order, each once, the output grew by an encoding of the table of that
/// numbering, and an old id has its place there as new id.
pub fn prune_to(
    alloc: Global,
    input: &[u8],
    ids: &[u32],
    out: &mut Vec<u8>,
) -> Result<BTreeMap<u32, u32>, PruneError>
    ensures ok { IfOk result (λ new_ids. (types : List PortableType) × (roots : List ℕ)
        × EncodesTypes types input.now × AreRoots (length types) ids.now roots
        × ((order : List ℕ) → IsNumbering (types_system types) roots order
        → HasNewIds order new_ids × ((kept : List PortableType)
        × IsTable (types_system types) order (map entry_of kept)
        × AppendsEncoding (EncodesTypes kept) out.old.items out.new.items))) }
    ensures err { OnErr result (out.new.items ≡ out.old.items) }
{
    prune(alloc, input, ids, out)
}
