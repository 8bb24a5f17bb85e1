//! What changed between two tables, as lines.
ghost use Rattle.std.specs.Prelude.{◌≡◌, ◌++◌, [], All, IfErr, IfOk, IsFalse, IsTrue, OnOk, codes};
ghost use Rattle.std.specs.Prelude.{filter, option_map, string_bytes};
ghost use Rattle.scale_info_table_describe.specs.TypeNames.{Appends};
ghost use Rattle.scale_info_table_diff.specs.TableChanges.{AreChanges};
ghost use Rattle.scale_info_table_diff.specs.TypesByPath.{ids_of};
ghost use Rattle.scale_info_table_diff.specs.declared.change.Change.TheVariants as changed;
ghost use Rattle.type_reader_run.specs.Differences.{AppendsChange, AreLines, AreLinesBetween};
ghost use Rattle.type_reader_run.specs.Differences.{AreLinesOf, IsDiffError, IsInEither};
ghost use Rattle.type_reader_run.specs.Differences.{IsPathError, IsReferenceError, IsTablesError};
ghost use Rattle.type_reader_run.specs.Differences.{change_line, is_of, path_of};

use crate::pruning::error_of;
use crate::reason::{compared_bytes, named_table, reason_of};
use crate::selection::no_such_path;
use crate::table::{TableInput, table_in};
use scale_info_collections::text::Text;
use scale_info_table_diff::change::Change;
use scale_info_table_diff::named::NamedTable;
use scale_info_table_diff::tables::changes;
use std::alloc::{AllocError, Global};
use type_reader_io::command::Comparison;
use type_reader_io::error::ReaderError;

/// The path of a change.
fn path_of(change: &Change) -> &Text
    ensures { result.now ≡ path_of change.now }
{
    match change {
        Change::Removed(path) => path,
        Change::Added(path) => path,
        Change::Changed(path) => path,
    }
}

/// Whether the change is one of these paths; of any, where there is no path.
fn is_of(paths: &[Text], change: &Change) -> bool
    ensures { result ≡ is_of paths.now change.now }
{
    if paths.is_empty() {
        return true;
    }
    paths.contains(path_of(change))
}

/// Appends the line of a path with this sign.
fn append_path(out: &mut String, sign: &str, path: &Text) -> Result<(), AllocError>
    ensures { Appends result out.old out.new (sign.now ++ (path.now ++ codes "\n")) }
{
    out.push_str(sign)?;
    out.push_str(path.as_str())?;
    out.push_str("\n")
}

/// Appends the line of a path that has changed, with a colon and the reason, if there is one.
fn append_reasoned(out: &mut String, path: &Text, reason: &Option<String>) -> Result<(), AllocError>
    ensures { Appends result out.old out.new
        (change_line (changed.Changed path.now) (option_map string_bytes reason.now)) }
{
    out.push_str("~ ")?;
    out.push_str(path.as_str())?;
    if let Some(reason) = reason {
        out.push_str(": ")?;
        out.push_str(reason.as_str())?;
    }
    out.push_str("\n")
}

/// Appends the line of a change between two tables; of a path that has changed, with why it has.
fn append_change(
    alloc: Global,
    out: &mut String,
    old: &mut NamedTable<'_>,
    new: &mut NamedTable<'_>,
    change: &Change,
) -> Result<(), AllocError>
    ensures ok { OnOk result (AppendsChange old.old new.old change.now
        (string_bytes out.old) (string_bytes out.new)) }
    ensures old { old.new ≡ old.old }
    ensures new { new.new ≡ new.old }
{
    match change {
        Change::Removed(path) => append_path(out, "- ", path),
        Change::Added(path) => append_path(out, "+ ", path),
        Change::Changed(path) => {
            let reason = reason_of(alloc, old, new, path)?;
            append_reasoned(out, path, &reason)
        }
    }
}

/// The lines of the changes of these paths between two tables; of all, where there is no path.
fn lines_of(
    alloc: Global,
    old: &mut NamedTable<'_>,
    new: &mut NamedTable<'_>,
    paths: &[Text],
    changes: &[Change],
) -> Result<Vec<u8>, AllocError>
    ensures { IfOk result (λ lines. AreLinesOf old.old new.old
        (filter (is_of paths.now) changes.now) lines.items) }
{
    let mut out = String::new(alloc);
    for change in changes {
        if !is_of(paths, change) {
            continue;
        }
        append_change(alloc, &mut out, old, new, change)?;
    }
    Ok(out.into_bytes())
}

/// Whether one of the two tables has a type with the path.
fn is_in_either(old: &NamedTable<'_>, new: &NamedTable<'_>, path: &Text) -> bool
    ensures some { IsTrue result → IsInEither old.now new.now path.now }
    ensures none { IsFalse result
        → (ids_of path.now old.now ≡ []) × (ids_of path.now new.now ≡ []) }
{
    !old.ids_of(path).is_empty() || !new.ids_of(path).is_empty()
}

/// Sees that one of the two tables has each of the paths.
///
/// Errors: `NoSuchPath`, of the first path that neither has; `Memory`, if an allocation failed.
fn check_paths(
    alloc: Global,
    old: &NamedTable<'_>,
    new: &NamedTable<'_>,
    paths: &[Text],
) -> Result<(), ReaderError>
    ensures ok { OnOk result (All (IsInEither old.now new.now) paths.now) }
    ensures err { IfErr result (IsPathError paths.now old.now new.now) }
{
    for path in paths {
        if !is_in_either(old, new, path) {
            return Err(no_such_path(alloc, path));
        }
    }
    Ok(())
}

/// What changed between two tables, by the program's errors.
///
/// Errors: `Dangling`, where an entry of one of them refers to an id that is no index; `Memory`, if
/// an allocation failed.
fn changes_between(
    alloc: Global,
    old: &mut NamedTable<'_>,
    new: &mut NamedTable<'_>,
) -> Result<Vec<Change>, ReaderError>
    ensures ok { IfOk result (λ changes. AreChanges old.old new.old changes.items) }
    ensures err { IfErr result (IsReferenceError old.old new.old) }
    ensures old { old.new ≡ old.old }
    ensures new { new.new ≡ new.old }
{
    match changes(alloc, old, new) {
        Ok(changes) => Ok(changes),
        Err(error) => Err(error_of(error)),
    }
}

/// The lines of what changed between two tables, of these paths; of all, where there is no path.
///
/// Errors: `NoSuchPath`, where neither table has a path; then `Dangling`, where an entry of one of
/// them refers to an id that is no index; `Memory`, if an allocation failed.
fn lines_of_tables(
    alloc: Global,
    paths: &[Text],
    old: &mut NamedTable<'_>,
    new: &mut NamedTable<'_>,
) -> Result<Vec<u8>, ReaderError>
    ensures ok { IfOk result
        (λ lines. AreLinesBetween paths.now old.old new.old lines.items) }
    ensures err { IfErr result (IsTablesError paths.now old.old new.old) }
{
    check_paths(alloc, old, new, paths)?;
    let changes = changes_between(alloc, old, new)?;
    Ok(lines_of(alloc, old, new, paths, &changes)?)
}

/// The lines of what changed between the tables of two inputs, of the paths of the comparison. Each
/// table is read once.
///
/// Errors: as those of [`table_in`], of the old input before the new one; then `NoSuchPath`, where
/// neither table has a path; then `Dangling`, where an entry of one of them refers to an id that is
/// no index; `Memory`, if an allocation failed.
pub fn lines_between(
    alloc: Global,
    comparison: &Comparison<'_>,
    old: &TableInput,
    new: &TableInput,
) -> Result<Vec<u8>, ReaderError>
    ensures ok { IfOk result
        (λ lines. AreLines comparison.now old.now.bytes.items new.now.bytes.items lines.items) }
    ensures err { IfErr result
        (IsDiffError comparison.now.paths.now old.now.bytes.items new.now.bytes.items) }
{
    let table = table_in(old)?;
    let other = table_in(new)?;
    let bytes = compared_bytes(alloc, comparison.docs, table)?;
    let others = compared_bytes(alloc, comparison.docs, other)?;
    let mut named = named_table(alloc, &bytes)?;
    let mut other_named = named_table(alloc, &others)?;
    lines_of_tables(alloc, comparison.paths, &mut named, &mut other_named)
}
