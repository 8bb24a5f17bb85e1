//! The first lines in which the declarations of two tables' types differ.
ghost use Rattle.std.specs.Prelude.{◌≡◌, ◌++◌, [], IfOk, IfErr, MatchOption};
ghost use Rattle.std.specs.Prelude.{option_map, string_bytes};
ghost use Rattle.scale_info_table_describe.specs.TypeNames.{Appends, type_at};
ghost use Rattle.scale_info_table_diff.specs.Declarations.{AreAlikeAt, AreDeclaredAlike};
ghost use Rattle.scale_info_table_diff.specs.Declarations.{IsDeclaredChange, IsDeclaredChangeError};
ghost use Rattle.scale_info_table_diff.specs.Declarations.{IsLineChange, TellsDeclaredChange};
ghost use Rattle.scale_info_table_diff.specs.Declarations.{lines_in, place_before, type_before};
ghost use Rattle.scale_info_table_diff.specs.TypesByPath.{ids_of};
ghost use Rattle.std.specs.Str.Lines.{lines};

use crate::lines::{first_change, lines_of};
use crate::named::NamedTable;
use scale_info_collections::text::Text;
use scale_info_table::portable::PortableRegistry;
use scale_info_table_describe::describe::append_description;
use scale_info_table_prune::prune::PruneError;
use std::alloc::{AllocError, Global};

/// Types of a table in an order.
#[derive(Drop)]
struct Ordered<'t> {
    /// The table.
    table: &'t PortableRegistry,
    /// The ids of the types.
    order: &'t [u32],
}

/// What two tables declare otherwise first, from given ids on, in words: the path of a type, if it
/// has one and is not that of the least id, and the first line of its declaration that differs, as
/// it is in the old table and as it is in the new one, both without the four blanks of each level
/// before them; None, where no types are declared by other lines.
///
/// The ids count in ascending order, each once; then the types that they reach are gone over in
/// both tables at once, in depth-first order of discovery, as pruning keeps them. So the field of a
/// type comes before what its own type has changed in. Types are declared as by [`describe`]; what
/// that doesn't write doesn't count here, such as the names of types that fields hold. Past the
/// last line of a declaration, and past the last type, come empty lines. Docs count: take both
/// tables [`without_docs`] where they should not.
///
/// What is reached takes time, and then each declaration up to the first that differs. The first
/// such call of a table decodes it.
///
/// Errors, of the old table before the new one: `NoSuchType`, for the first id that is no index;
/// `Dangling`, for the first id that is reached and is no index; `Memory`, where an allocation
/// failed.
///
/// ```text
/// // `a::T { x: u8, y: b::U }` in both, with ids 0 and 3; `b::U` has `z: u8` and then `z: u16`
/// first_declared_change(alloc, &mut old, &[0], &mut new, &[3])?
/// // Some("b::U: z: u8, -> z: u16,")
/// ```
///
/// [`describe`]: scale_info_table_describe::describe::describe
/// [`without_docs`]: crate::tables::without_docs
pub fn first_declared_change(
    alloc: Global,
    old: &mut NamedTable<'_>,
    old_ids: &[u32],
    new: &mut NamedTable<'_>,
    new_ids: &[u32],
) -> Result<Option<String>, PruneError>
    ensures ok { IfOk result (λ found. TellsDeclaredChange old.old old_ids.now new.old
        new_ids.now (option_map string_bytes found)) }
    ensures cause { IfErr result
        (IsDeclaredChangeError old.old old_ids.now new.old new_ids.now) }
    ensures old { old.new ≡ old.old }
    ensures new { new.new ≡ new.old }
{
    let order = old.table.order_from(alloc, old_ids)?;
    let other_order = new.table.order_from(alloc, new_ids)?;
    let table = old.decode(alloc)?;
    let other_table = new.decode(alloc)?;
    let types = Ordered {
        table: &table,
        order: &order,
    };
    let others = Ordered {
        table: &other_table,
        order: &other_order,
    };
    let found = change_between(alloc, &types, &others)?;
    old.decoded = Some(table);
    new.decoded = Some(other_table);
    Ok(found)
}

/// Why a path has changed: what [`first_declared_change`] says of the types with the path in two
/// tables.
///
/// Errors: as those of [`first_declared_change`], for the ids of these types.
///
/// ```text
/// declared_change_of(alloc, &mut old, &mut new, &path)?   // Some("b::U: z: u8, -> z: u16,")
/// ```
pub fn declared_change_of(
    alloc: Global,
    old: &mut NamedTable<'_>,
    new: &mut NamedTable<'_>,
    path: &Text,
) -> Result<Option<String>, PruneError>
    ensures ok { IfOk result (λ found. TellsDeclaredChange old.old (ids_of path.now old.old)
        new.old (ids_of path.now new.old) (option_map string_bytes found)) }
    ensures cause { IfErr result (IsDeclaredChangeError old.old (ids_of path.now old.old)
        new.old (ids_of path.now new.old)) }
    ensures old { old.new ≡ old.old }
    ensures new { new.new ≡ new.old }
{
    let mut ids = Vec::new(alloc);
    ids.extend_from_slice(old.ids_of(path))?;
    let mut others = Vec::new(alloc);
    others.extend_from_slice(new.ids_of(path))?;
    first_declared_change(alloc, old, &ids, new, &others)
}

/// What the types are declared otherwise first; None, where that is nothing.
fn change_between(
    alloc: Global,
    types: &Ordered<'_>,
    others: &Ordered<'_>,
) -> Result<Option<String>, AllocError>
    ensures { IfOk result (λ found. MatchOption (option_map string_bytes found)
        (AreDeclaredAlike types.now.table.now types.now.order.now others.now.table.now
        others.now.order.now)
        (IsDeclaredChange types.now.table.now types.now.order.now others.now.table.now
        others.now.order.now)) }
{
    for place in 0..types.order.len().max(others.order.len()) {
        if let Some(change) = change_at(alloc, types, others, place)? {
            return Ok(Some(types.with_path(alloc, place, &change)?));
        }
    }
    Ok(None)
}

/// The change of the first line in which the declarations of the types at this place differ; None,
/// where there is none.
fn change_at(
    alloc: Global,
    types: &Ordered<'_>,
    others: &Ordered<'_>,
    place: usize,
) -> Result<Option<String>, AllocError>
    ensures { IfOk result (λ found. MatchOption (option_map string_bytes found)
        (AreAlikeAt types.now.table.now types.now.order.now others.now.table.now
        others.now.order.now place)
        (IsLineChange (lines_in types.now.table.now types.now.order.now place)
        (lines_in others.now.table.now others.now.order.now place))) }
{
    let declaration = types.declaration(alloc, place)?;
    let other = others.declaration(alloc, place)?;
    if declaration == other {
        return Ok(None);
    }
    let lines = lines_of(alloc, &declaration)?;
    let others = lines_of(alloc, &other)?;
    first_change(alloc, &lines, &others)
}

impl Ordered<'_> {
    /// The declaration of the type at this place; empty, past the last one.
    fn declaration(&self, alloc: Global, place: usize) -> Result<String, AllocError>
        ensures { IfOk result (λ text. lines (string_bytes text)
            ≡ lines_in self.now.table.now self.now.order.now place) }
    {
        let mut out = String::new(alloc);
        if let Some(id) = self.order.get(place) {
            append_description(alloc, self.table, *id, &mut out)?;
        }
        Ok(out)
    }

    /// A change of the type at this place, after the path of the type, if it has one; not of the
    /// first.
    fn with_path(&self, alloc: Global, place: usize, change: &str) -> Result<String, AllocError>
        ensures { IfOk result (λ text. string_bytes text
            ≡ place_before self.now.table.now self.now.order.now place ++ change.now) }
    {
        let mut out = String::new(alloc);
        self.append_place(alloc, &mut out, place)?;
        out.push_str(change)?;
        Ok(out)
    }

    /// Appends the path of the type at this place, a colon and a blank; nothing, where that is the
    /// first place or the type has no path.
    fn append_place(&self, alloc: Global, out: &mut String, place: usize) -> Result<(), AllocError>
        ensures { Appends result out.old out.new
            (place_before self.now.table.now self.now.order.now place) }
    {
        if place == 0 {
            return Ok(());
        }
        match self.order.get(place) {
            Some(id) => append_path(alloc, out, self.table, *id),
            None => Ok(()),
        }
    }
}

/// Appends the path of the type with this id, a colon and a blank; nothing, where it has no path.
fn append_path(
    alloc: Global,
    out: &mut String,
    table: &PortableRegistry,
    id: u32,
) -> Result<(), AllocError>
    ensures { Appends result out.old out.new (type_before (type_at table.now id)) }
{
    let Some(ty) = table.resolve(id) else {
        return Ok(());
    };
    if ty.path.is_empty() {
        return Ok(());
    }
    let path = ty.path.to_string(alloc)?;
    out.push_str(path.as_str())?;
    out.push_str(": ")
}
