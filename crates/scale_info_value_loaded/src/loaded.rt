//! Types that are loaded from a view.
ghost use Rattle.std.specs.Prelude.{◌≡◌, ◌<◌, [], All, IfErr, IfOk, Some, ℕ, length, map};
ghost use Rattle.std.specs.Prelude.{slice_get};
ghost use Rattle.scale_info_value_loaded.specs.LoadedTables.{IsAlikeAt, IsPartOf};
ghost use Rattle.scale_info_numberings.specs.Systems.{IsReached};
ghost use Rattle.scale_info_table.specs.TableSystems.{system_of};
ghost use Rattle.scale_info_walk.specs.Walks.{IsWalkError};

use scale_info_table::definitions::Definitions;
use scale_info_table_view::view::TableView;
use scale_info_types::form::PortableForm;
use scale_info_types::ty::{PortableType, Type, TypeDefPrimitive};
use scale_info_walk::walk::{RetainError, number_references};
use std::alloc::{AllocError, Global};
use std::marker::Model;

/// The types that some ids of a view reach, each decoded once, under the ids that they have there.
///
/// Values of these types are read by it as by the whole table, as often as is wanted: it serves
/// wherever a table does, as [`Definitions`]. It stays when the view and the bytes are gone.
///
/// Contracts see it as a table that is as long as the view, in which each type that is not loaded
/// is one whose values are not decoded. So a value of such a type is an error, `Unsupported`, and
/// never another value; that of an id past the end is `NoSuchType`, as by the table.
///
/// It holds four bytes for each entry of the view, and the types that are loaded.
///
/// ```text
/// let view = TableView::new(alloc, table_bytes)?;
/// let types = LoadedTypes::load(alloc, &view, &[account, balance])?;
/// let rest = visit_value(&types, account, input, &mut visitor)?;
/// ```
#[derive(Drop)]
pub struct LoadedTypes {
    /// What is loaded, in depth-first order.
    entries: Vec<PortableType>,
    /// For each id the place of its entry, or 4294967295 where it is not loaded.
    numbers: Vec<u32>,
    /// What stands for each type that is not loaded.
    not_loaded: Type<PortableForm>,
}

impl Model for LoadedTypes {
    ghost use Rattle.std.specs.Prelude.{◌≡◌, map};
    ghost use Rattle.scale_info_table.specs.declared.portable.PortableRegistry as tables;
    ghost use Rattle.scale_info_value_loaded.specs.LoadedTables.{entry_numbered, not_decoded};
    ghost use Rattle.scale_info_types.specs.TypeExamples.{plain};

    ghost Value = { tables.PortableRegistry };

    ghost view = { λ loaded. record {
      types = map (entry_numbered loaded.entries.items) loaded.numbers.items;
    } };

    ghost invariant = { λ loaded. loaded.not_loaded ≡ plain not_decoded };
}

impl LoadedTypes {
    /// Loads the types that these ids of the view reach: the types themselves, and all that they
    /// refer to, over any number of steps.
    ///
    /// It allocates for what is loaded, and four bytes for each entry of the view.
    ///
    /// Errors: `Dangling`, where an id is reached that is no index of the view; `TooManyTypes`,
    /// where the view has more than 4294967295 entries; `Memory`, where an allocation failed.
    pub fn load(
        alloc: Global,
        view: &TableView<'_>,
        ids: &[u32],
    ) -> Result<LoadedTypes, RetainError>
        ensures part { IfOk result (λ loaded. IsPartOf view.now ids.now loaded) }
        ensures alike { IfOk result (λ loaded. (id : ℕ)
            → IsReached (system_of view.now) ids.now id → IsAlikeAt view.now loaded id) }
        ensures within { IfOk result (λ _. (id : ℕ)
            → IsReached (system_of view.now) ids.now id → id < length view.now.types) }
        ensures cause { IfErr result
            (IsWalkError (system_of view.now) (length view.now.types) [] ids.now) }
    {
        let found = number_references(alloc, view, ids)?;
        let entries = entries_at(alloc, view, &found.order)?;
        Ok(LoadedTypes {
            entries,
            numbers: found.numbers,
            not_loaded: Type::from_def(alloc, TypeDefPrimitive::Char.into()),
        })
    }
}

/// The entries of a view at these indices, in order.
fn entries_at(
    alloc: Global,
    view: &TableView<'_>,
    order: &[u32],
) -> Result<Vec<PortableType>, AllocError>
    requires { All (λ index. index < length view.now.types) order.now }
    ensures { IfOk result (λ entries.
        map Some entries.items ≡ map (λ index. slice_get view.now.types index) order.now) }
{
    let mut entries = Vec::with_capacity(alloc, order.len())?;
    for index in order {
        let Some(entry) = view.entry(alloc, *index as usize)? else {
            unreachable!()
        };
        entries.push(entry)?;
    }
    Ok(entries)
}

impl Definitions for LoadedTypes {
    ghost table = { λ loaded. loaded };

    fn description(&self, id: u32) -> Option<&Type<PortableForm>> {
        let number = self.numbers.get(id as usize)?;
        match self.entries.get(*number as usize) {
            Some(entry) => Some(&entry.ty),
            None => Some(&self.not_loaded),
        }
    }
}
