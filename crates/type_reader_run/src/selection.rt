//! Types that are given by their ids or their paths.
ghost use Rattle.std.specs.Prelude.{◌≡◌, ◌⊎◌, [], ◌∷◌, IfOk, IfErr};
ghost use Rattle.type_reader_io.specs.declared.error.ReaderError.TheVariants as reader_error;
ghost use Rattle.type_reader_run.specs.Selections.{AreNamed, AreSelected, AreWithPath};
ghost use Rattle.type_reader_run.specs.Selections.{AreSeveral, IsChoiceError, IsNamingError};
ghost use Rattle.type_reader_run.specs.Selections.{IsSelectionError};

use scale_info_collections::text::Text;
use scale_info_table::portable::PortableRegistry;
use scale_info_table_describe::search::find_by_path;
use std::alloc::Global;
use type_reader_io::error::ReaderError;
use type_table_io::id::id_of;

/// The error that no type has this path; that of an allocation, where one failed.
pub fn no_such_path(alloc: Global, path: &Text) -> ReaderError
    ensures is { (result ≡ reader_error.NoSuchPath path.now) ⊎ (result ≡ reader_error.Memory) }
    ensures cause { (types : _)
        → AreWithPath types path.now [] → IsNamingError types path.now result }
{
    match Text::from_str(alloc, path.as_str()) {
        Ok(path) => ReaderError::NoSuchPath(path),
        Err(_) => ReaderError::Memory,
    }
}

/// The ids of the types that a text gives: the id that it is, or the ids of the types with this
/// path.
///
/// Errors: `NoSuchType`, where it is an id, and no index of the table; `NoSuchPath`, where it is no
/// id, and no type has this path; `Memory`, if an allocation failed.
pub fn named(alloc: Global, table: &PortableRegistry, text: &Text) -> Result<Vec<u32>, ReaderError>
    ensures ok { IfOk result (λ ids. AreNamed table.now.types text.now ids.items) }
    ensures err { IfErr result (IsNamingError table.now.types text.now) }
{
    if let Some(id) = id_of(text) {
        if id as usize >= table.len() {
            return Err(ReaderError::NoSuchType(id));
        }
        return Ok(vec![in alloc; id]?);
    }
    let ids = find_by_path(alloc, table, text.as_str())?;
    if ids.is_empty() {
        return Err(no_such_path(alloc, text));
    }
    Ok(ids)
}

/// The error that several types have this path.
fn shared_path(alloc: Global, path: &Text) -> ReaderError
    ensures { (types : _) → AreSeveral types path.now → IsChoiceError types path.now result }
{
    match Text::from_str(alloc, path.as_str()) {
        Ok(path) => ReaderError::SharedPath(path),
        Err(_) => ReaderError::Memory,
    }
}

/// The id of the one type that a text gives.
///
/// Errors: as [`named`]; `SharedPath`, where it is a path that several types have.
pub fn one_named(alloc: Global, table: &PortableRegistry, text: &Text) -> Result<u32, ReaderError>
    ensures ok { IfOk result (λ id. AreNamed table.now.types text.now (id ∷ [])) }
    ensures err { IfErr result (IsChoiceError table.now.types text.now) }
{
    let ids = named(alloc, table, text)?;
    if ids.len() > 1 {
        return Err(shared_path(alloc, text));
    }
    Ok(ids[0])
}

/// The ids of the types that the texts give, in their order.
///
/// Errors: that of the first text that gives none, as [`named`].
pub fn selected(
    alloc: Global,
    table: &PortableRegistry,
    texts: &[Text],
) -> Result<Vec<u32>, ReaderError>
    ensures ok { IfOk result (λ ids. AreSelected table.now.types texts.now ids.items) }
    ensures err { IfErr result (IsSelectionError table.now.types texts.now) }
{
    let mut ids = Vec::new(alloc);
    for text in texts {
        let more = named(alloc, table, text)?;
        ids.extend_from_slice(&more)?;
    }
    Ok(ids)
}
