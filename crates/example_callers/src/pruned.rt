//! A caller that decodes by a pruned table what the whole table describes.
ghost use Rattle.std.specs.Prelude.{◌≡◌, Some, List, ℕ, IfOk, IfErr, map, slice_get};
ghost use Rattle.scale_info.specs.Tables.{IsTable};
ghost use Rattle.scale_info.specs.TableSystems.{system_of};
ghost use Rattle.scale_info.specs.TypeSystems.{entry_of};
ghost use Rattle.scale_info.specs.Types.{PortableRegistry};
ghost use Rattle.scale_info.specs.Outcomes.{decoded, IsErrorOf};
ghost use Rattle.scale_info.specs.Readings.{reading};

use scale_info::PortableRegistry;
use scale_info::laws::reads_alike;
use scale_info::value::{Value, ValueError, decode_value};
use std::alloc::Global;

/// Decodes by a pruned table. For each table that it was pruned from, the value, the rest and the
/// error are those that the whole table gives at the id that the type had there.
pub fn decode_by_pruned<'a>(
    alloc: Global,
    pruned: &PortableRegistry,
    index: u32,
    input: &'a [u8],
) -> Result<(Value, &'a [u8]), ValueError>
    ensures ok { (whole : PortableRegistry) (kept : List ℕ) (id : ℕ)
        → IsTable (system_of whole) kept (map entry_of pruned.now.types)
        → slice_get kept index ≡ Some id
        → IfOk result (λ found. reading whole id 1 input.now ≡ decoded found.0 found.1.now) }
    ensures err { (whole : PortableRegistry) (kept : List ℕ) (id : ℕ)
        → IsTable (system_of whole) kept (map entry_of pruned.now.types)
        → slice_get kept index ≡ Some id
        → IfErr result (IsErrorOf (reading whole id 1 input.now)) }
{
    reads_alike();
    decode_value(alloc, pruned, index, input)
}

/// Keeps a type and all that it reaches, and decodes a value of that type by what is left. The
/// value and the rest are those that the table gave before.
pub fn keep_and_decode<'a>(
    alloc: Global,
    table: &mut PortableRegistry,
    id: u32,
    input: &'a [u8],
) -> anyhow::Result<(Value, &'a [u8])>
    ensures { IfOk result
        (λ found. reading table.old id 1 input.now ≡ decoded found.0 found.1.now) }
{
    reads_alike();
    let new_ids = table.retain(alloc, |old| old == id)?;
    let Some(index) = new_ids.get(&id).copied() else {
        return Err(ValueError::NoSuchType.into());
    };
    let found = decode_value(alloc, table, index, input)?;
    Ok(found)
}
