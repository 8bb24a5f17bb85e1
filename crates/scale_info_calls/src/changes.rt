//! What changed between two tables.
ghost use Rattle.std.specs.Prelude.{◌≡◌, ◌++◌, IfErr, IfOk, OnErr, codes, string_bytes};
ghost use Rattle.std.specs.List.{flat_map};
ghost use Rattle.scale_info_calls.specs.Changes.{AreChangeLines, IsChangesRefusal, change_line};
ghost use Rattle.scale_info_calls.specs.Rooms.{Gives, Refuses};
ghost use Rattle.scale_info_calls.specs.WholeTables.{IsTableRefusal};
ghost use Rattle.scale_info_calls.specs.declared.error.CallError.TheVariants as call_error;
ghost use Rattle.scale_info_table_describe.specs.TypeNames.{Appends};
ghost use Rattle.scale_info_grammar.specs.Ty.{EncodesTypes};

use crate::error::CallError;
use crate::pruning::error_of;
use crate::room::give;
use scale_info_collections::text::Text;
use scale_info_table_diff::change::Change;
use scale_info_table_diff::named::NamedTable;
use scale_info_table_diff::tables::changes as changes_of;
use std::alloc::{AllocError, Global};

/// The table that the input is, with its types by their paths.
pub(crate) fn named(alloc: Global, input: &[u8]) -> Result<NamedTable<'_>, CallError>
    ensures ok { IfOk result (λ table. EncodesTypes table input.now) }
    ensures err { IfErr result (IsTableRefusal input.now) }
{
    match NamedTable::of(alloc, input) {
        Ok(table) => Ok(table),
        Err(error) => Err(error_of(error)),
    }
}

/// Appends this sign, a path and a line feed.
fn append_path(out: &mut String, sign: &str, path: &Text) -> Result<(), AllocError>
    ensures { Appends result out.old out.new (sign.now ++ (path.now ++ codes "\n")) }
{
    out.push_str(sign)?;
    out.push_str(path.as_str())?;
    out.push_str("\n")
}

/// Appends the line of a change.
fn append_change(out: &mut String, change: &Change) -> Result<(), AllocError>
    ensures { Appends result out.old out.new (change_line change.now) }
{
    match change {
        Change::Removed(path) => append_path(out, "- ", path),
        Change::Added(path) => append_path(out, "+ ", path),
        Change::Changed(path) => append_path(out, "~ ", path),
    }
}

/// The lines of changes.
///
/// Errors: `Memory`, if an allocation failed.
fn lines_of(alloc: Global, changes: &[Change]) -> Result<String, CallError>
    ensures ok { IfOk result (λ lines. string_bytes lines ≡ flat_map change_line changes.now) }
    ensures err { IfErr result (λ e. e ≡ call_error.Memory) }
{
    let mut out = String::new(alloc);
    for change in changes {
        append_change(&mut out, change)?;
    }
    Ok(out)
}

/// The lines of what changed between the tables that two inputs are.
fn lines_between(alloc: Global, old: &[u8], new: &[u8]) -> Result<String, CallError>
    ensures ok { IfOk result (λ lines. AreChangeLines old.now new.now (string_bytes lines)) }
    ensures err { IfErr result (IsChangesRefusal old.now new.now) }
{
    let mut table = named(alloc, old)?;
    let mut other = named(alloc, new)?;
    match changes_of(alloc, &mut table, &mut other) {
        Ok(changes) => lines_of(alloc, &changes),
        Err(error) => Err(error_of(error)),
    }
}

/// Writes what changed between two tables, by the paths of their types, to the start of the room,
/// and returns how many bytes that are: 0, where nothing changed.
///
/// There is a line for each path of types that are only in the old table, `- PATH`, only in the new
/// one, `+ PATH`, or in both and not the same, `~ PATH`: first the paths of the old table, in order,
/// and then the added ones. Each line ends with a line feed. The text is UTF-8. Types without a path
/// don't count; docs do: give both tables as `strip` writes them where they should not. Why a path
/// has changed is told by `same`, of the ids that `find` gives.
///
/// Errors, of either table: `Malformed`, where no prefix of the input is a table; `TrailingBytes`,
/// where bytes come after the table; `Dangling`, where an entry refers to an id that is no index;
/// `Memory`, where an allocation failed; `NoRoom`, where the lines do not fit.
///
/// ```text
/// changes(alloc, old, new, &mut room)?   // the room begins with "- a::T\n~ b::U\n+ c::V\n"
/// ```
pub fn changes(alloc: Global, old: &[u8], new: &[u8], room: &mut [u8]) -> Result<usize, CallError>
    ensures ok { IfOk result (Gives (AreChangeLines old.now new.now) room.old room.new) }
    ensures err { IfErr result (Refuses (AreChangeLines old.now new.now)
        (IsChangesRefusal old.now new.now) room.old) }
    ensures kept { OnErr result (room.new ≡ room.old) }
{
    let lines = lines_between(alloc, old, new)?;
    give(lines.as_str().as_bytes(), room)
}
