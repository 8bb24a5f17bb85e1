//! Types found by their paths.
ghost use Rattle.std.specs.Prelude.{◌≡◌, IfOk};
ghost use Rattle.scale_info_segments.specs.TypePaths.{IsPieces, texts};
ghost use Rattle.scale_info_table_describe.specs.PathSearches.{AreIdsBy, is_path, stands_in};
ghost use Rattle.scale_info_table_describe.specs.PathSearches.{begins_with, test_of};

use scale_info_collections::text::Text;
use scale_info_table::portable::PortableRegistry;
use std::alloc::{AllocError, Global};

/// Which paths a search finds.
#[derive(Clone, Copy)]
enum Search {
    /// Those that are the segments.
    Whole,
    /// Those in which the segments stand in a row.
    InARow,
}

/// The ids, ascending, of the types whose path has exactly the segments of the text, which are its
/// pieces around `::`.
///
/// A path may be that of several types, as `Option` is. The empty text has one piece, which is
/// empty, so it does not find the types without a path. An id is an index of the table.
///
/// Errors: `AllocError`, if an allocation failed.
///
/// ```text
/// find_by_path(alloc, &table, "sp_core::crypto::AccountId32")?  // [0]
/// ```
pub fn find_by_path(
    alloc: Global,
    table: &PortableRegistry,
    path: &str,
) -> Result<Vec<u32>, AllocError>
    ensures { IfOk result (λ ids. AreIdsBy is_path table.now.types path.now ids.items) }
{
    ids_by(alloc, table, path, Search::Whole)
}

/// The ids, ascending, of the types in whose path the segments of the pattern, its pieces around
/// `::`, stand in a row. Segments are compared whole: `pallet` does not find `pallet_balances`.
///
/// Errors: `AllocError`, if an allocation failed.
///
/// ```text
/// find_containing(alloc, &table, "pallet::Call")?  // pallet_balances::pallet::Call, and others
/// ```
pub fn find_containing(
    alloc: Global,
    table: &PortableRegistry,
    pattern: &str,
) -> Result<Vec<u32>, AllocError>
    ensures { IfOk result (λ ids. AreIdsBy stands_in table.now.types pattern.now ids.items) }
{
    ids_by(alloc, table, pattern, Search::InARow)
}

/// The ids, ascending, of the types whose path is found by the pieces of the text.
fn ids_by(
    alloc: Global,
    table: &PortableRegistry,
    text: &str,
    search: Search,
) -> Result<Vec<u32>, AllocError>
    ensures { IfOk result
        (λ ids. AreIdsBy (test_of search) table.now.types text.now ids.items) }
{
    let pieces = pieces_of(alloc, text)?;
    let entries = table.types();
    let types = &entries[..entries.len().min(4294967296)];
    let mut ids = Vec::new(alloc);
    for index in 0..types.len() {
        if is_found(
            pieces.as_slice(),
            types[index].ty.path.segments.as_slice(),
            search,
        ) {
            ids.push(index as u32)?;
        }
    }
    Ok(ids)
}

/// The pieces of a text around `::`.
fn pieces_of(alloc: Global, text: &str) -> Result<Vec<&str>, AllocError>
    ensures { IfOk result (λ all. IsPieces text.now (texts all.items)) }
{
    let mut all = Vec::new(alloc);
    let mut rest = text;
    'pieces: while let Some((before, after)) = rest.split_once("::") {
        all.push(before)?;
        rest = after;
    }
    all.push(rest)?;
    Ok(all)
}

/// Whether the search finds the path.
fn is_found(segments: &[&str], path: &[Text], search: Search) -> bool
    ensures { result ≡ test_of search (texts segments.now) path.now }
{
    match search {
        Search::Whole => begins_with(segments, path) && segments.len() == path.len(),
        Search::InARow => stands_in(segments, path),
    }
}

/// Whether the segments stand in the path in a row.
fn stands_in(segments: &[&str], path: &[Text]) -> bool
    ensures { result ≡ stands_in (texts segments.now) path.now }
{
    for start in 0..path.len() {
        if begins_with(segments, &path[start..]) {
            return true;
        }
    }
    begins_with(segments, &[])
}

/// Whether the path begins with the segments.
fn begins_with(segments: &[&str], path: &[Text]) -> bool
    ensures { result ≡ begins_with (texts segments.now) path.now }
{
    let mut rest = path;
    for segment in segments {
        let Some((first, after)) = rest.split_first() else {
            return false;
        };
        if *segment != first.as_str() {
            return false;
        }
        rest = after;
    }
    true
}
