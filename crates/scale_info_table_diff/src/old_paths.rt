//! Paths of an old table, compared with a new table.
ghost use Rattle.std.specs.Prelude.{◌≡◌, ◌++◌, ◌≢◌, List, IfOk, IfErr, OnOk};
ghost use Rattle.std.specs.Prelude.{◌∷◌, [], MatchOption, length, map};
ghost use Rattle.scale_info_table_diff.specs.TableChanges.{AreSame, IsCompareError, IsOldChange};
ghost use Rattle.scale_info_table_diff.specs.Comparisons.{AddsOldChanges, AreCommonIds};
ghost use Rattle.scale_info_table_diff.specs.Comparisons.{HaveOtherCounts, TellsSame};
ghost use Rattle.scale_info_table_diff.specs.Differing.{AreMarks, marked_changes, unmarked};
ghost use Rattle.scale_info_table_diff.specs.TypesByPath.{AreIdsByPath, ids_of, paths_of};
ghost use Rattle.scale_info_types.specs.declared.ty.PortableType.{PortableType};

use crate::change::Change;
use crate::marks::changed_paths;
use crate::named::NamedTable;
use scale_info_collections::text::Text;
use scale_info_collections::try_clone::TryClone;
use scale_info_table_prune::indexed::IndexedTable;
use scale_info_table_prune::prune::PruneError;
use std::alloc::{AllocError, Global};

/// Pushes what became of the paths of the old table, in order.
///
/// The types of all of them are compared at once. Where they are not the same, the paths that are
/// known to have changed are marked, and the others compared, all at once and then by halves. On an
/// error some changes may have been pushed.
///
/// Errors: `Dangling`, where an entry refers to an id that is no index; `Memory`, where an
/// allocation failed.
pub(crate) fn push_old_changes(
    alloc: Global,
    old: &mut NamedTable<'_>,
    new: &mut NamedTable<'_>,
    changes: &mut Vec<Change>,
) -> Result<(), PruneError>
    ensures ok { OnOk result (AddsOldChanges old.old new.old (paths_of old.old)
        changes.old.items changes.new.items) }
    ensures cause { IfErr result (IsCompareError old.old new.old) }
    ensures old { old.new ≡ old.old }
    ensures new { new.new ≡ new.old }
{
    let paths = old.paths.elements();
    let mut marks = Vec::new(alloc);
    marks.resize(paths.len(), false)?;
    if are_same(alloc, &mut old.table, new, paths, &old.ids, &marks)? {
        return Ok(push_marked(alloc, new, paths, &marks, changes)?);
    }
    let marks = changed_paths(alloc, &old.table, new, paths, &old.ids)?;
    push_by_halves(alloc, &mut old.table, new, paths, &old.ids, &marks, changes)
}

/// Pushes what became of these paths of the old table, whose ids are given, in order; those with a
/// mark are known to have changed.
///
/// The types of all others are compared at once, and only where they are not the same, those of
/// each half of the paths. On an error some changes may have been pushed.
///
/// Errors: `Dangling`, where an entry refers to an id that is no index; `Memory`, where an
/// allocation failed.
fn push_by_halves(
    alloc: Global,
    old: &mut IndexedTable<'_>,
    new: &mut NamedTable<'_>,
    paths: &[Text],
    ids: &[Vec<u32>],
    marks: &[bool],
    changes: &mut Vec<Change>,
) -> Result<(), PruneError>
    requires ids { length ids.now ≡ length paths.now }
    requires marks { length marks.now ≡ length paths.now }
    ensures ok { OnOk result (AreIdsByPath old.old paths.now (map (λ row. row.items) ids.now)
        → AreMarks old.old new.old paths.now marks.now
        → AddsOldChanges old.old new.old paths.now changes.old.items changes.new.items) }
    ensures cause { IfErr result (λ error. AreIdsByPath old.old paths.now (map (λ row. row.items) ids.now)
        → IsCompareError old.old new.old error) }
    ensures old { old.new ≡ old.old }
    ensures new { new.new ≡ new.old }
{
    if paths.is_empty() || are_same(alloc, old, new, paths, ids, marks)? {
        return Ok(push_marked(alloc, new, paths, marks, changes)?);
    }
    if paths.len() == 1 {
        return Ok(push_difference(alloc, new, &paths[0], changes)?);
    }
    let middle = paths.len() / 2;
    let (first, second) = paths.split_at(middle);
    let (first_ids, second_ids) = ids.split_at(middle);
    let (first_marks, second_marks) = marks.split_at(middle);
    push_by_halves(alloc, old, new, first, first_ids, first_marks, changes)?;
    push_by_halves(alloc, old, new, second, second_ids, second_marks, changes)
}

/// Whether the types of all of these paths of the old table that have no mark, and that the new one
/// has, are the same.
///
/// False says nothing of any one of several paths.
///
/// Errors: as those of [`push_old_changes`].
fn are_same(
    alloc: Global,
    old: &mut IndexedTable<'_>,
    new: &mut NamedTable<'_>,
    paths: &[Text],
    ids: &[Vec<u32>],
    marks: &[bool],
) -> Result<bool, PruneError>
    requires ids { length ids.now ≡ length paths.now }
    requires marks { length marks.now ≡ length paths.now }
    ensures ok { IfOk result (λ same. AreIdsByPath old.old paths.now (map (λ row. row.items) ids.now)
        → TellsSame old.old new.old (unmarked paths.now marks.now) same) }
    ensures cause { IfErr result (λ error. AreIdsByPath old.old paths.now (map (λ row. row.items) ids.now)
        → IsCompareError old.old new.old error) }
    ensures old { old.new ≡ old.old }
    ensures new { new.new ≡ new.old }
{
    match common_ids(alloc, new, paths, ids, marks)? {
        None => Ok(false),
        Some((common, others)) => old.same_types(alloc, &common, &mut new.table, &others),
    }
}

/// The ids of these paths of the old table that have no mark and that the new one has, and those
/// that they have there, path by path; None, where one of them has another number of types there.
///
/// Errors: `AllocError`, if an allocation failed.
fn common_ids(
    alloc: Global,
    new: &NamedTable<'_>,
    paths: &[Text],
    ids: &[Vec<u32>],
    marks: &[bool],
) -> Result<Option<(Vec<u32>, Vec<u32>)>, AllocError>
    requires ids { length ids.now ≡ length paths.now }
    requires marks { length marks.now ≡ length paths.now }
    ensures { IfOk result (λ found. (types : List PortableType)
        → AreIdsByPath types paths.now (map (λ row. row.items) ids.now)
        → MatchOption found (HaveOtherCounts types new.now (unmarked paths.now marks.now))
        (λ both. AreCommonIds types new.now (unmarked paths.now marks.now) both.0.items
        both.1.items)) }
{
    let mut common = Vec::new(alloc);
    let mut others = Vec::new(alloc);
    for index in 0..paths.len() {
        if marks[index] {
            continue;
        }
        let there = new.ids_of(&paths[index]);
        if there.is_empty() {
            continue;
        }
        let row = &ids[index];
        if there.len() != row.len() {
            return Ok(None);
        }
        common.extend_from_slice(row)?;
        others.extend_from_slice(there)?;
    }
    Ok(Some((common, others)))
}

/// Pushes that these paths have changed, as far as they have a mark, and that the others were
/// removed, as far as the new table has no type with them. On an error some changes may have been
/// pushed.
fn push_marked(
    alloc: Global,
    new: &NamedTable<'_>,
    paths: &[Text],
    marks: &[bool],
    changes: &mut Vec<Change>,
) -> Result<(), AllocError>
    requires { length marks.now ≡ length paths.now }
    ensures { OnOk result (changes.new.items
        ≡ changes.old.items ++ marked_changes new.now paths.now marks.now) }
{
    for index in 0..paths.len() {
        let path = &paths[index];
        if marks[index] {
            changes.push(Change::Changed(path.try_clone(alloc)?))?;
        } else if new.ids_of(path).is_empty() {
            changes.push(Change::Removed(path.try_clone(alloc)?))?;
        }
    }
    Ok(())
}

/// Pushes that this path was removed, if the new table has no type with it, and else that its types
/// are not the same.
fn push_difference(
    alloc: Global,
    new: &NamedTable<'_>,
    path: &Text,
    changes: &mut Vec<Change>,
) -> Result<(), AllocError>
    ensures { OnOk result ((types : List PortableType)
        → (ids_of path.now new.now ≢ [] → ¬ (AreSame types new.now path.now))
        → AddsOldChanges types new.now (path.now ∷ []) changes.old.items changes.new.items) }
{
    let copy = path.try_clone(alloc)?;
    if new.ids_of(path).is_empty() {
        changes.push(Change::Removed(copy))?;
        return Ok(());
    }
    changes.push(Change::Changed(copy))?;
    Ok(())
}
