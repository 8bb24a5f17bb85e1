//! Types of two tables, compared.
ghost use Rattle.std.specs.Prelude.{◌≡◌, IfErr, IfOk, OnErr, option_map, string_bytes};
ghost use Rattle.scale_info_calls.specs.Rooms.{Gives, Refuses};
ghost use Rattle.scale_info_calls.specs.SameTypes.{IsSameRefusal, TellsDifferenceOfInputs};
ghost use Rattle.scale_info_calls.specs.SameTypes.{TellsOfInputs, TellsSame, text_of};
ghost use Rattle.scale_info_calls.specs.WholeTables.{IsTableRefusal};
ghost use Rattle.scale_info_grammar.specs.Ty.{EncodesTypes};

use crate::changes::named;
use crate::error::CallError;
use crate::pruning::error_of;
use crate::room::give;
use scale_info_table_diff::declarations::first_declared_change;
use scale_info_table_prune::indexed::IndexedTable;
use std::alloc::{AllocError, Global};

/// The index of the table that the input is.
fn indexed(alloc: Global, input: &[u8]) -> Result<IndexedTable<'_>, CallError>
    ensures ok { IfOk result (λ table. EncodesTypes table input.now) }
    ensures err { IfErr result (IsTableRefusal input.now) }
{
    match IndexedTable::of(alloc, input) {
        Ok(table) => Ok(table),
        Err(error) => Err(error_of(error)),
    }
}

/// The text of a difference: its words, or that there are none.
fn text_of(alloc: Global, found: Option<String>) -> Result<String, AllocError>
    ensures { IfOk result (λ text. string_bytes text ≡ text_of (option_map string_bytes found)) }
{
    match found {
        Some(text) => Ok(text),
        None => String::from_str(alloc, "they differ in what is not declared"),
    }
}

/// Whether types of the tables that two inputs are are the same.
fn are_same(
    alloc: Global,
    first: &[u8],
    id: u32,
    second: &[u8],
    other: u32,
) -> Result<bool, CallError>
    ensures ok { IfOk result (TellsSame first.now id second.now other) }
    ensures err { IfErr result (IsSameRefusal first.now id second.now other) }
{
    let mut table = indexed(alloc, first)?;
    let mut other_table = indexed(alloc, second)?;
    match table.same_types(alloc, &[id], &mut other_table, &[other]) {
        Ok(same) => Ok(same),
        Err(error) => Err(error_of(error)),
    }
}

/// What differs first between types, which are not the same, of the tables that two inputs are.
fn difference(
    alloc: Global,
    first: &[u8],
    id: u32,
    second: &[u8],
    other: u32,
) -> Result<String, CallError>
    ensures ok { IfOk result
        (λ text. TellsDifferenceOfInputs first.now id second.now other (string_bytes text)) }
    ensures err { IfErr result (IsSameRefusal first.now id second.now other) }
{
    let mut table = named(alloc, first)?;
    let mut other_table = named(alloc, second)?;
    match first_declared_change(alloc, &mut table, &[id], &mut other_table, &[other]) {
        Ok(found) => Ok(text_of(alloc, found)?),
        Err(error) => Err(error_of(error)),
    }
}

/// What is told of types of the tables that two inputs are: nothing, where they are the same, and
/// else what differs first.
fn told(
    alloc: Global,
    first: &[u8],
    id: u32,
    second: &[u8],
    other: u32,
) -> Result<String, CallError>
    ensures ok { IfOk result
        (λ text. TellsOfInputs first.now id second.now other (string_bytes text)) }
    ensures err { IfErr result (IsSameRefusal first.now id second.now other) }
{
    if are_same(alloc, first, id, second, other)? {
        return Ok(String::new(alloc));
    }
    difference(alloc, first, id, second, other)
}

/// Compares a type of one table with one of another. Returns 0 and leaves the room as it was, where
/// they are the same, whatever their ids are; else writes what differs first to the start of the
/// room, and returns how many bytes that are.
///
/// Types are the same where what they reach matches, one to one and in order, in contents, docs and
/// references. What differs first is told as the path of a type, if it is not the compared one, and
/// the first line of its declaration that differs, as it is in the first table and as it is in the
/// second. Where no line differs, as where only the names of types that fields hold do, the text is
/// `they differ in what is not declared`. The text is UTF-8.
///
/// Errors, of either table: `Malformed`, where no prefix of the input is a table; `TrailingBytes`,
/// where bytes come after the table; `NoSuchType`, where the id is no index of it; `Dangling`, for
/// the first id that is reached and is none; `Memory`, where an allocation failed; `NoRoom`, where
/// the text does not fit.
///
/// ```text
/// same(alloc, old, 0, new, 3, &mut room)?   // the room begins with "z: u8, -> z: u16,"
/// ```
pub fn same(
    alloc: Global,
    first: &[u8],
    id: u32,
    second: &[u8],
    other: u32,
    room: &mut [u8],
) -> Result<usize, CallError>
    ensures ok { IfOk result
        (Gives (TellsOfInputs first.now id second.now other) room.old room.new) }
    ensures err { IfErr result (Refuses (TellsOfInputs first.now id second.now other)
        (IsSameRefusal first.now id second.now other) room.old) }
    ensures kept { OnErr result (room.new ≡ room.old) }
{
    let text = told(alloc, first, id, second, other)?;
    give(text.as_str().as_bytes(), room)
}
