//! The paths of a table's types.
ghost use Rattle.std.specs.Prelude.{◌≡◌, ◌<◌, ◌≤◌, ◌++◌, IfOk, OnOk, length, map};
ghost use Rattle.scale_info_table_diff.specs.TypesByPath.{AddsId, AreIdsByPath, paths_of};

use scale_info_collections::text::Text;
use scale_info_interner::interner::{InternError, Interner};
use scale_info_types::ty::PortableType;
use std::alloc::{AllocError, Global};

/// The paths of types, each once, in the order of the first types that have them, and for each path
/// the ids of its types, ascending. Types without a path are left out.
///
/// Errors: `AllocError`, if an allocation failed.
pub(crate) fn paths_with_ids(
    alloc: Global,
    types: &[PortableType],
) -> Result<(Interner<Text>, Vec<Vec<u32>>), AllocError>
    requires { length types.now ≤ 4294967295 }
    ensures paths { IfOk result (λ found. found.0 ≡ paths_of types.now) }
    ensures ids { IfOk result (λ found. AreIdsByPath types.now found.0
        (map (λ row. row.items) found.1.items)) }
{
    let mut paths = Interner::new(alloc);
    let mut ids = Vec::new(alloc);
    for index in 0..types.len() {
        let path = &types[index].ty.path;
        if path.is_empty() {
            continue;
        }
        let text = Text::from(path.to_string(alloc)?);
        add_id(alloc, &mut paths, &mut ids, text, index as u32)?;
    }
    Ok((paths, ids))
}

/// Adds the id of a type that has this path. On an error some of it may have been added.
fn add_id(
    alloc: Global,
    paths: &mut Interner<Text>,
    ids: &mut Vec<Vec<u32>>,
    path: Text,
    id: u32,
) -> Result<(), AllocError>
    requires few { length paths.old < 4294967295 }
    requires rows { length ids.old.items ≡ length paths.old }
    ensures { OnOk result (AddsId path id paths.old (map (λ row. row.items) ids.old.items)
        paths.new (map (λ row. row.items) ids.new.items)) }
{
    let (is_new, symbol) = match paths.intern_or_get(path) {
        Ok(found) => found,
        Err(InternError::Memory) => return Err(AllocError),
        Err(InternError::Full) => unreachable!(),
    };
    if is_new {
        let first = vec![in alloc; id]?;
        ids.push(first)?;
        return Ok(());
    }
    ids[symbol.id as usize].push(id)?;
    Ok(())
}
