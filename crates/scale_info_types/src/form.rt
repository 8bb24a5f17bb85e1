//! The two forms of a description: inside a program, and on its way out.
ghost use Rattle.std.specs.Prelude.{◌≡◌, ◌↔◌, ℕ, List, IfOk, IsTrue};
ghost use Rattle.std.specs.Cmp.Lexicographic.{slice_cmp};
ghost use Rattle.std.specs.Ordering.{nat_cmp};
ghost use Rattle.std.proofs.Common.{rules, refl};
ghost use Rattle.scale_info_identities.specs.TypeIds.{Term, term_of};
ghost use Rattle.scale_info_identities.specs.TypeIdLaws.{same_type_ids};

use crate::meta_type::MetaType;
use scale_info_collections::items::Items;
use scale_info_collections::text::Text;
use scale_info_collections::try_clone::TryClone;
use scale_info_identities::symbol::UntrackedSymbol;
use scale_info_identities::type_id::TypeId;
use std::alloc::{AllocError, Global};

/// How a description names types and holds strings.
///
/// `scale-info` describes types in two forms: [`MetaForm`] while a program collects them, and
/// [`PortableForm`] once they can be written out. Everything about descriptions is proved once for
/// every form from the laws below.
///
/// A program may implement `Form` for a type of its own. It then owes the copies and the laws:
/// equal types have equal readings, and strings are compared by their bytes.
pub trait Form: Drop {
    /// A type, as descriptions refer to it.
    type Ty: Ord + Drop;
    /// A string in a description.
    type String: Ord + Drop;

    /// What a type refers to, wherever it lies in memory.
    ghost Reference: { Type 0 };

    /// The reading of a type.
    ghost reference: { Self.Ty → Reference };

    /// The bytes of a string.
    ghost text: { Self.String → List ℕ };

    /// A copy of a type. An Ok equals the source.
    ///
    /// Errors: `AllocError`, if an allocation failed.
    fn copy_type(alloc: Global, source: &Self::Ty) -> Result<Self::Ty, AllocError>
        ensures { IfOk result (λ copy. copy ≡ source.now) };

    /// A copy of a string. An Ok equals the source.
    ///
    /// Errors: `AllocError`, if an allocation failed.
    fn copy_string(alloc: Global, source: &Self::String) -> Result<Self::String, AllocError>
        ensures { IfOk result (λ copy. copy ≡ source.now) };

    /// Types are equal exactly if their readings are.
    ghost reference_equal: { (a b : Self.Ty) → IsTrue (Self.Ty.eq a b)
        ↔ (reference a ≡ reference b) };

    /// Strings are equal exactly if their bytes are.
    ghost text_equal: { (a b : Self.String) → IsTrue (Self.String.eq a b) ↔ (text a ≡ text b) };

    /// Strings are ordered by their bytes.
    ghost text_order: { (a b : Self.String)
        → Self.String.cmp a b ≡ slice_cmp nat_cmp (text a) (text b) };
}

/// The form that can be written out: types are ids of a table, and strings are owned.
#[derive(Drop)]
pub enum PortableForm {}

impl Form for PortableForm {
    type Ty = UntrackedSymbol<TypeId>;

    type String = Text;

    ghost Reference = { ℕ };

    ghost reference = { λ symbol. symbol.id };

    ghost reference_equal = { λ a b. Prim.search rules };

    ghost text = { λ a. a };

    ghost text_equal = { λ a b. Prim.search rules };

    ghost text_order = { λ a b. refl };

    fn copy_type(
        _alloc: Global,
        source: &UntrackedSymbol<TypeId>,
    ) -> Result<UntrackedSymbol<TypeId>, AllocError> {
        Ok(UntrackedSymbol::from(source.id))
    }

    fn copy_string(alloc: Global, source: &Text) -> Result<Text, AllocError> {
        source.try_clone(alloc)
    }
}

/// The form inside a program: types are identities, and strings are `&'static str`.
#[derive(Drop)]
pub enum MetaForm {}

impl Form for MetaForm {
    type Ty = MetaType;

    type String = &'static str;

    ghost Reference = { Term };

    ghost reference = { λ meta_type. term_of meta_type.identity };

    ghost reference_equal = { λ a b. same_type_ids a.identity b.identity };

    ghost text = { λ a. a.now };

    ghost text_equal = { λ a b. Prim.search rules };

    ghost text_order = { λ a b. refl };

    fn copy_type(alloc: Global, source: &MetaType) -> Result<MetaType, AllocError> {
        source.try_clone(alloc)
    }

    fn copy_string(_alloc: Global, source: &&'static str) -> Result<&'static str, AllocError> {
        Ok(*source)
    }
}

/// A copy of a string that may be missing.
pub(crate) fn copy_optional_string<T: Form>(
    alloc: Global,
    source: &Option<T::String>,
) -> Result<Option<T::String>, AllocError>
    ensures { IfOk result (λ copy. copy ≡ source.now) }
{
    match source {
        None => Ok(None),
        Some(text) => Ok(Some(T::copy_string(alloc, text)?)),
    }
}

/// A copy of a type that may be missing.
pub(crate) fn copy_optional_type<T: Form>(
    alloc: Global,
    source: &Option<T::Ty>,
) -> Result<Option<T::Ty>, AllocError>
    ensures { IfOk result (λ copy. copy ≡ source.now) }
{
    match source {
        None => Ok(None),
        Some(ty) => Ok(Some(T::copy_type(alloc, ty)?)),
    }
}

/// A copy of a list of strings.
pub(crate) fn copy_strings<T: Form>(
    alloc: Global,
    texts: &Items<T::String>,
) -> Result<Items<T::String>, AllocError>
    ensures { IfOk result (λ copy. copy ≡ texts.now) }
{
    let mut copy = Items::with_capacity(alloc, texts.len())?;
    for text in texts.as_slice() {
        copy.push(T::copy_string(alloc, text)?)?;
    }
    Ok(copy)
}

/// A copy of a list of types.
pub(crate) fn copy_types<T: Form>(
    alloc: Global,
    types: &Items<T::Ty>,
) -> Result<Items<T::Ty>, AllocError>
    ensures { IfOk result (λ copy. copy ≡ types.now) }
{
    let mut copy = Items::with_capacity(alloc, types.len())?;
    for ty in types.as_slice() {
        copy.push(T::copy_type(alloc, ty)?)?;
    }
    Ok(copy)
}
