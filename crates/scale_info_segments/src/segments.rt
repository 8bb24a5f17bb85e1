//! The segments of a path, from the name and the module of a type, or as they are handed in.
ghost use Rattle.std.specs.Prelude.{◌≡◌, ◌≢◌, ℕ, List, [], map};
ghost use Rattle.std.specs.Prelude.{IfOk, IfSome, IsNone};
ghost use Rattle.std.specs.List.{All};
ghost use Rattle.scale_info_segments.specs.Identifiers.{IsIdentifier};
ghost use Rattle.scale_info_segments.specs.TypePaths.{AreDeclared, ArePathSegments};
ghost use Rattle.scale_info_segments.specs.TypePaths.{IsFirstInvalidIndex, IsPieces, replaced};
ghost use Rattle.scale_info_segments.specs.TypePaths.{text_pairs, texts};
ghost use Rattle.scale_info_segments.specs.declared.segments.PathError.TheVariants as error;

use crate::utils::is_rust_identifier;
use scale_info_collections::failure::AllocationFailure;
use std::alloc::{AllocError, Global};
use thiserror::Error;

/// Why no path could be made.
///
/// ```text
/// Path::from_segments(alloc, ["Earth", "::world"])
///     == Err(PathError::InvalidIdentifier { segment: 1 })
/// ```
#[derive(Debug, Drop, PartialEq, Eq, Error)]
pub enum PathError {
    /// There is no segment.
    #[error("the path has no segment")]
    MissingSegments,
    /// A segment is not an identifier of Rust.
    #[error("segment {segment} of the path is no identifier")]
    InvalidIdentifier {
        /// The index of the first such segment.
        segment: usize,
    },
    /// An allocation failed.
    #[error("out of memory")]
    Memory,
}

impl<F: AllocationFailure> From<F> for PathError {
    ghost from_gives = { λ _ e. e ≡ error.Memory };

    fn from(_failure: F) -> PathError {
        PathError::Memory
    }
}

/// Where a type is declared: the pieces of its module path around `::`, and then its name, each
/// replaced once by the second string of the first pair whose first string equals it.
///
/// Segments are tested after they are replaced: a new segment must be an identifier, and a replaced
/// one need not be.
///
/// Errors: `InvalidIdentifier` with the index of the first segment that is not an identifier;
/// `Memory`, if an allocation failed. Never `MissingSegments`.
///
/// ```text
/// declared_segments(alloc, "Planet", "hello::world", &[])  // hello, world, Planet
/// ```
pub fn declared_segments(
    alloc: Global,
    ident: &'static str,
    module_path: &'static str,
    pairs: &[(&'static str, &'static str)],
) -> Result<Vec<&'static str>, PathError>
    ensures ok { IfOk result
        (λ segments. (declared : List (List ℕ)) × AreDeclared ident.now module_path.now declared
        × (texts segments.items ≡ map (replaced (text_pairs pairs.now)) declared)
        × ArePathSegments (texts segments.items)) }
    ensures invalid { (segment : ℕ) → result ≡ Err (PathError.InvalidIdentifier segment)
        → (declared : List (List ℕ)) × AreDeclared ident.now module_path.now declared
        × IsFirstInvalidIndex (map (replaced (text_pairs pairs.now)) declared) segment }
    ensures never_missing { result ≢ Err PathError.MissingSegments }
{
    let mut segments = replaced_pieces(alloc, module_path, pairs)?;
    segments.push(replacement(ident, pairs))?;
    path_segments(segments)
}

/// The segments, if they make a path: there is one, and all are identifiers. Does not allocate.
///
/// Errors: `MissingSegments`, if there is none; `InvalidIdentifier` with the index of the first
/// segment that is not an identifier. Never `Memory`.
///
/// ```text
/// path_segments(vec!["hello", "World"])  // hello, World
/// path_segments(vec!["Hello", ", World!"]) == Err(PathError::InvalidIdentifier { segment: 1 })
/// ```
pub fn path_segments(segments: Vec<&'static str>) -> Result<Vec<&'static str>, PathError>
    ensures ok { IfOk result
        (λ same. (same.items ≡ segments.entry.items) × ArePathSegments (texts same.items)) }
    ensures missing { result ≡ Err PathError.MissingSegments → segments.entry.items ≡ [] }
    ensures invalid { (segment : ℕ) → result ≡ Err (PathError.InvalidIdentifier segment)
        → IsFirstInvalidIndex (texts segments.entry.items) segment }
    ensures never_memory { result ≢ Err PathError.Memory }
{
    if segments.is_empty() {
        return Err(PathError::MissingSegments);
    }
    if let Some(segment) = first_invalid_index(segments.as_slice()) {
        return Err(PathError::InvalidIdentifier { segment });
    }
    Ok(segments)
}

/// The index of the first string that is not an identifier.
fn first_invalid_index(strings: &[&'static str]) -> Option<usize>
    ensures good { IsNone result → All IsIdentifier (texts strings.now) }
    ensures bad { IfSome result (IsFirstInvalidIndex (texts strings.now)) }
{
    for (place, text) in strings.iter().enumerate() {
        if !is_rust_identifier(text) {
            return Some(place);
        }
    }
    None
}

/// The pieces of a string around `::`, each after the pairs have replaced it.
fn replaced_pieces(
    alloc: Global,
    text: &'static str,
    pairs: &[(&'static str, &'static str)],
) -> Result<Vec<&'static str>, AllocError>
    ensures { IfOk result (λ all. (pieces : List (List ℕ)) × IsPieces text.now pieces
        × (texts all.items ≡ map (replaced (text_pairs pairs.now)) pieces)) }
{
    // The pieces, and room for the name after them.
    let mut all = Vec::with_capacity(alloc, text.matches("::").count().saturating_add(2))?;
    let mut rest = text;
    'pieces: while let Some((before, after)) = rest.split_once("::") {
        all.push(replacement(before, pairs))?;
        rest = after;
    }
    all.push(replacement(rest, pairs))?;
    Ok(all)
}

/// The second string of the first pair whose first string is this one; without such a pair the
/// string itself.
fn replacement(text: &'static str, pairs: &[(&'static str, &'static str)]) -> &'static str
    ensures { result.now ≡ replaced (text_pairs pairs.now) text.now }
{
    for (from, to) in pairs {
        if *from == text {
            return to;
        }
    }
    text
}
