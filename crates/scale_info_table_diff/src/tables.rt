//! What changed between two tables.
ghost use Rattle.std.specs.Prelude.{◌≡◌, ◌++◌, IfOk, IfErr, OnOk};
ghost use Rattle.std.specs.List.{flat_map};
ghost use Rattle.scale_info_table_diff.specs.TableChanges.{AreChanges, IsCompareError, new_change};
ghost use Rattle.scale_info_table_diff.specs.NamedTables.{IsWithoutDocs};
ghost use Rattle.scale_info_table_prune.specs.Prunes.{IsTableError};

use crate::change::Change;
use crate::named::NamedTable;
use crate::old_paths::push_old_changes;
use scale_info_bytes::error::DecodeError;
use scale_info_collections::text::Text;
use scale_info_collections::try_clone::TryClone;
use scale_info_table_docs::docs::append_without_docs;
use scale_info_table_prune::prune::PruneError;
use std::alloc::{AllocError, Global};

/// What changed between two tables, by the paths of their types: which are only in the old one,
/// which only in the new one, and which in both, but with types that are not the same.
///
/// The types of a path are the same where [`same_types`] says so of all that have it in the old
/// table and all that have it in the new one, in ascending order of id. So a type has changed where
/// a type that it reaches has. Types without a path don't count; docs do: take both tables
/// [`without_docs`] where they should not. Each path comes once: those of the old table first, in
/// the order of the first types that have them, and then those that are new.
///
/// All paths of both tables are compared at once. Where they are not all the same, one pass over
/// both tables finds the paths that have changed since contents or counts differ below them, and
/// the others are compared at once again. That is linear in the tables. Only where a difference is
/// left, as where a type of one table stands for two of the other, are the halves compared, down to
/// single paths, each time as far as their types reach.
///
/// Errors: `Dangling`, where an entry of one of them refers to an id that is no index; `Memory`,
/// where an allocation failed.
///
/// ```text
/// let (old, new) = (without_docs(alloc, &old)?, without_docs(alloc, &new)?);
/// let mut old = NamedTable::of(alloc, &old)?;
/// let mut new = NamedTable::of(alloc, &new)?;
/// changes(alloc, &mut old, &mut new)?  // of tables with `a::T` of u8, and with `a::T` of u16 and
///                                      // `b::U`: Changed("a::T"), Added("b::U")
/// ```
///
/// [`same_types`]: scale_info_table_prune::same_types::same_types
pub fn changes(
    alloc: Global,
    old: &mut NamedTable<'_>,
    new: &mut NamedTable<'_>,
) -> Result<Vec<Change>, PruneError>
    ensures ok { IfOk result (λ changes. AreChanges old.old new.old changes.items) }
    ensures cause { IfErr result (IsCompareError old.old new.old) }
    ensures old { old.new ≡ old.old }
    ensures new { new.new ≡ new.old }
{
    let mut changes = Vec::new(alloc);
    push_old_changes(alloc, old, new, &mut changes)?;
    push_added(alloc, old, new.paths.elements(), &mut changes)?;
    Ok(changes)
}

/// The bytes of the table that the input is, without its docs.
///
/// Errors: `Malformed`, where no prefix of the input is a table; `Trailing`, where bytes come after
/// it; `Memory`, where an allocation failed.
///
/// ```text
/// without_docs(alloc, &bytes)?  // a table that changes of docs leave as it is
/// ```
pub fn without_docs(alloc: Global, input: &[u8]) -> Result<Vec<u8>, PruneError>
    ensures ok { IfOk result (λ bytes. IsWithoutDocs input.now bytes.items) }
    ensures cause { IfErr result (IsTableError input.now) }
{
    let mut bytes = Vec::new(alloc);
    let rest = match append_without_docs(input, &mut bytes) {
        Ok(rest) => rest,
        Err(DecodeError::Malformed) => return Err(PruneError::Malformed),
        Err(DecodeError::Memory) => return Err(PruneError::Memory),
    };
    if !rest.is_empty() {
        return Err(PruneError::Trailing);
    }
    Ok(bytes)
}

/// Pushes that these paths were added, as far as the old table has no type with them. On an error
/// some changes may have been pushed.
fn push_added(
    alloc: Global,
    old: &NamedTable<'_>,
    paths: &[Text],
    changes: &mut Vec<Change>,
) -> Result<(), AllocError>
    ensures { OnOk result
        (changes.new.items ≡ changes.old.items ++ flat_map (new_change old.now) paths.now) }
{
    for path in paths {
        if old.ids_of(path).is_empty() {
            changes.push(Change::Added(path.try_clone(alloc)?))?;
        }
    }
    Ok(())
}
