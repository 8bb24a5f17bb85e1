//! Paths: where a type is declared, and its name.
ghost use Rattle.std.specs.Prelude.{◌≡◌, ◌≢◌, ◌↔◌, ◌-◌, ℕ, List, [], Some, map, length, take};
ghost use Rattle.std.specs.Prelude.{slice_get, IfOk, IsTrue};
ghost use Rattle.std.specs.Iterator.{IsFinite};
ghost use Rattle.scale_info_segments.specs.TypePaths.{AreDeclared, ArePathSegments, StaticTexts};
ghost use Rattle.scale_info_segments.specs.TypePaths.{IsFirstInvalidIndex, joined, replaced};
ghost use Rattle.scale_info_segments.specs.TypePaths.{text_pairs, texts};
ghost use Rattle.scale_info_types.specs.Iterators.{GivesAll};

use crate::form::{Form, MetaForm, PortableForm, copy_strings};
use scale_info_collections::items::Items;
use scale_info_collections::marker::Marker;
use scale_info_collections::try_clone::TryClone;
pub use scale_info_segments::segments::PathError;
use scale_info_segments::segments::{declared_segments, path_segments};
use std::alloc::{AllocError, Global};
use std::fmt;

/// The modules in which a type is declared, outermost first, and the type's name last.
#[derive(Drop)]
#[derive_where(PartialEq, Eq, PartialOrd, Ord)]
pub struct Path<T: Form = MetaForm> {
    /// The segments, in order.
    pub segments: Items<T::String>,
    #[derive_where(skip(EqHashOrd))]
    form: Marker<T::Ty>,
}

impl<T: Form> Path<T> {
    /// The path of these segments, in order, whether or not they are identifiers.
    ///
    /// Errors: `AllocError`, if an allocation failed.
    pub fn from_segments_unchecked<I: IntoIterator<Item = T::String>>(
        alloc: Global,
        segments: I,
    ) -> Result<Path<T>, AllocError>
        requires can { (it : I.IntoIter) → I.into_iter_gives segments it → I.IntoIter.can_next it }
        requires ends { (it : I.IntoIter) → I.into_iter_gives segments it
            → IsFinite (I.IntoIter.remaining it) }
        ensures { IfOk result
            (λ p. GivesAll I.into_iter_gives I.IntoIter.next_gives segments p.segments) }
    {
        Ok(Path::from(Items::from_iter(alloc, segments)?))
    }

    /// The path without segments, as built-in types have it.
    pub fn empty(alloc: Global) -> Path<T>
        ensures { result.segments ≡ [] }
    {
        Path::from(Items::new(alloc))
    }

    /// The segments, in order.
    pub fn segments(&self) -> &[T::String]
        ensures { result.now ≡ self.now.segments }
    {
        self.segments.as_slice()
    }

    /// Whether there is no segment.
    pub fn is_empty(&self) -> bool
        ensures { IsTrue result ↔ (self.now.segments ≡ []) }
    {
        self.segments.is_empty()
    }

    /// A copy of the last segment, the type's name; `None` for a path without segments.
    ///
    /// Errors: `AllocError`, if an allocation failed.
    ///
    /// ```text
    /// Path::new(alloc, "Planet", "hello::world")?.ident(alloc) == Ok(Some("Planet"))
    /// ```
    pub fn ident(&self, alloc: Global) -> Result<Option<T::String>, AllocError>
        ensures { IfOk result
            (λ name. name ≡ slice_get self.now.segments (length self.now.segments - 1)) }
    {
        match self.segments.as_slice().last() {
            None => Ok(None),
            Some(name) => Ok(Some(T::copy_string(alloc, name)?)),
        }
    }

    /// All segments but the last: the modules around the type. It is empty if the path is. Does not
    /// allocate.
    ///
    /// ```text
    /// Path::new(alloc, "Planet", "hello::world")?.namespace() == ["hello", "world"]
    /// ```
    pub fn namespace(&self) -> &[T::String]
        ensures { result.now ≡ take (length self.now.segments - 1) self.now.segments }
    {
        let segments = self.segments.as_slice();
        match segments.split_last() {
            None => segments,
            Some((_, modules)) => modules,
        }
    }
}

impl Path<MetaForm> {
    /// The path of a type: the pieces of its module path around `::`, and then its name.
    ///
    /// The module path is what `module_path!` returns in the module of the type. The empty string
    /// has one piece, which is empty. The Rust crate `scale-info` makes the same path, and panics
    /// where this returns an `Err`.
    ///
    /// Errors: `InvalidIdentifier` with the index of the first segment that is not an identifier;
    /// `Memory`, if an allocation failed. Never `MissingSegments`.
    ///
    /// ```text
    /// Path::new(alloc, "Planet", "hello::world")  // hello, world, Planet
    /// Path::new(alloc, "Planet", "a::::b") == Err(PathError::InvalidIdentifier { segment: 1 })
    /// ```
    pub fn new(
        alloc: Global,
        ident: &'static str,
        module_path: &'static str,
    ) -> Result<Path, PathError>
        ensures ok { IfOk result
            (λ path. AreDeclared ident.now module_path.now (texts path.segments)
            × ArePathSegments (texts path.segments)) }
        ensures invalid { (segment : ℕ) → result ≡ Err (PathError.InvalidIdentifier segment)
            → (declared : List (List ℕ)) × AreDeclared ident.now module_path.now declared
            × IsFirstInvalidIndex declared segment }
        ensures never_missing { result ≢ Err PathError.MissingSegments }
    {
        Path::new_with_replace(alloc, ident, module_path, &[])
    }

    /// The path that `new` makes, with each segment, the name too, replaced once: by the second
    /// string of the first pair whose first string equals it. A segment without such a pair stays.
    ///
    /// Segments are tested after they are replaced: a new segment must be an identifier, and a
    /// replaced one need not be.
    ///
    /// Errors: as for `new`.
    ///
    /// ```text
    /// let pairs = [("hello", "goodbye")];
    /// Path::new_with_replace(alloc, "Planet", "hello::world", &pairs)  // goodbye, world, Planet
    /// ```
    pub fn new_with_replace(
        alloc: Global,
        ident: &'static str,
        module_path: &'static str,
        pairs: &[(&'static str, &'static str)],
    ) -> Result<Path, PathError>
        ensures ok { IfOk result
            (λ path. (declared : List (List ℕ)) × AreDeclared ident.now module_path.now declared
            × (texts path.segments ≡ map (replaced (text_pairs pairs.now)) declared)
            × ArePathSegments (texts path.segments)) }
        ensures invalid { (segment : ℕ) → result ≡ Err (PathError.InvalidIdentifier segment)
            → (declared : List (List ℕ)) × AreDeclared ident.now module_path.now declared
            × IsFirstInvalidIndex (map (replaced (text_pairs pairs.now)) declared) segment }
        ensures never_missing { result ≢ Err PathError.MissingSegments }
    {
        let segments = declared_segments(alloc, ident, module_path, pairs)?;
        Ok(Path::from(Items::from(segments)))
    }

    /// The path of these segments, in order.
    ///
    /// Errors: `MissingSegments`, if there is none; `InvalidIdentifier` with the index of the first
    /// segment that is not an identifier; `Memory`, if an allocation failed.
    ///
    /// ```text
    /// Path::from_segments(alloc, ["hello", "World"])  // hello, World
    /// Path::from_segments(alloc, ["Hello", ", World!"])
    ///     == Err(PathError::InvalidIdentifier { segment: 1 })
    /// ```
    pub fn from_segments<I: IntoIterator<Item = &'static str>>(
        alloc: Global,
        segments: I,
    ) -> Result<Path, PathError>
        requires can { (it : I.IntoIter) → I.into_iter_gives segments it → I.IntoIter.can_next it }
        requires ends { (it : I.IntoIter) → I.into_iter_gives segments it
            → IsFinite (I.IntoIter.remaining it) }
        ensures ok { IfOk result
            (λ path. GivesAll I.into_iter_gives I.IntoIter.next_gives segments path.segments
            × ArePathSegments (texts path.segments)) }
        ensures missing { result ≡ Err PathError.MissingSegments
            → GivesAll I.into_iter_gives I.IntoIter.next_gives segments [] }
        ensures invalid { (segment : ℕ) → result ≡ Err (PathError.InvalidIdentifier segment)
            → (items : StaticTexts)
            × GivesAll I.into_iter_gives I.IntoIter.next_gives segments items
            × IsFirstInvalidIndex (texts items) segment }
    {
        let segments = path_segments(Vec::from_iter(alloc, segments)?)?;
        Ok(Path::from(Items::from(segments)))
    }
}

/// Prints the segments with `::` between them, and nothing for a path without segments. Width, fill
/// and precision of the format are ignored, as in the Rust crate `scale-info`.
///
/// ```text
/// format!(in alloc; "{path}")? == "hello::world::Planet"
/// ```
impl fmt::Display for Path<PortableForm> {
    ghost output = { λ path. Some (joined path.segments) };

    ghost styled_output = { λ path _. Some (joined path.segments) };

    fn fmt<W: fmt::Write>(&self, f: &mut fmt::Formatter<W>) -> fmt::Result {
        if let Some((first, others)) = self.segments.as_slice().split_first() {
            f.write_str(first.as_str())?;
            for segment in others {
                f.write_str("::")?;
                f.write_str(segment.as_str())?;
            }
        }
        Ok(())
    }
}

/// The path of these segments, whether or not they are identifiers. Does not allocate.
impl<T: Form> From<Items<T::String>> for Path<T> {
    ghost from_gives = { λ segments path. path.segments ≡ segments };

    fn from(segments: Items<T::String>) -> Path<T> {
        Path {
            segments,
            form: Marker::new(),
        }
    }
}

impl<T: Form> TryClone for Path<T> {
    fn try_clone(&self, alloc: Global) -> Result<Path<T>, AllocError> {
        Ok(Path::from(copy_strings::<T>(alloc, &self.segments)?))
    }
}
