//! Types as lines of text.
ghost use Rattle.std.specs.Prelude.{◌≡◌, IfOk};
ghost use Rattle.std.specs.List.{flat_map};
ghost use Rattle.scale_info_table_describe.specs.TypeNames.{Appends};
ghost use Rattle.type_reader_run.specs.Listings.{all_ids, has_path, listed_type, path_text};
ghost use Rattle.type_reader_run.specs.Listings.{title_line};

use itoa::Buffer;
use scale_info_collections::text::Text;
use scale_info_table::portable::PortableRegistry;
use scale_info_table_describe::describe::append_description;
use std::alloc::{AllocError, Global};

/// Appends a blank and the path of these segments; nothing, where there is none.
fn append_path(out: &mut String, segments: &[Text]) -> Result<(), AllocError>
    ensures { Appends result out.old out.new (path_text segments.now) }
{
    let Some((first, others)) = segments.split_first() else {
        return Ok(());
    };
    out.push_str(" ")?;
    out.push_str(first.as_str())?;
    for segment in others {
        out.push_str("::")?;
        out.push_str(segment.as_str())?;
    }
    Ok(())
}

/// Appends the line of an id and the path of its type.
fn append_title(out: &mut String, table: &PortableRegistry, id: u32) -> Result<(), AllocError>
    ensures { Appends result out.old out.new (title_line table.now id) }
{
    let mut buffer = Buffer::new();
    out.push_str(buffer.format(id))?;
    if let Some(ty) = table.resolve(id) {
        append_path(out, ty.path.segments.as_slice())?;
    }
    out.push_str("\n")
}

/// The lines of these types, as Rust declares them, each after `//` and its title.
///
/// Errors: an allocation failed.
pub fn list_of(alloc: Global, table: &PortableRegistry, ids: &[u32]) -> Result<Vec<u8>, AllocError>
    ensures { IfOk result (λ lines. lines.items ≡ flat_map (listed_type table.now) ids.now) }
{
    let mut out = String::new(alloc);
    for id in ids {
        out.push_str("// ")?;
        append_title(&mut out, table, *id)?;
        append_description(alloc, table, *id, &mut out)?;
        out.push_str("\n")?;
    }
    Ok(out.into_bytes())
}

/// A line for each of these types, with its id and its path.
///
/// Errors: an allocation failed.
pub fn titles_of(
    alloc: Global,
    table: &PortableRegistry,
    ids: &[u32],
) -> Result<Vec<u8>, AllocError>
    ensures { IfOk result (λ lines. lines.items ≡ flat_map (title_line table.now) ids.now) }
{
    let mut out = String::new(alloc);
    for id in ids {
        append_title(&mut out, table, *id)?;
    }
    Ok(out.into_bytes())
}

/// Whether the type with this id has a path.
fn has_path(table: &PortableRegistry, id: u32) -> bool
    ensures { result ≡ has_path table.now.types id }
{
    match table.resolve(id) {
        Some(ty) => !ty.path.segments.is_empty(),
        None => false,
    }
}

/// The ids of all types of a table: first of those that have a path, as they are declared, and then
/// of the others; each ascending.
///
/// Errors: an allocation failed.
pub fn all_ids(alloc: Global, table: &PortableRegistry) -> Result<Vec<u32>, AllocError>
    ensures { IfOk result (λ ids. ids.items ≡ all_ids table.now.types) }
{
    let mut ids = Vec::new(alloc);
    let mut others = Vec::new(alloc);
    for index in 0..table.len().min(4294967296) {
        let id = index as u32;
        if has_path(table, id) {
            ids.push(id)?;
        } else {
            others.push(id)?;
        }
    }
    ids.extend_from_slice(&others)?;
    Ok(ids)
}
