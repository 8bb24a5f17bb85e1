//! The new identities of a registration, numbered in depth-first order by a list of work.
ghost use Rattle.std.specs.Option.{option_copied};
ghost use Rattle.std.specs.Prelude.{◌≡◌, ◌++◌, ◌∷◌, [], List, OnErr, OnOk, IfErr, IfOk, IfSome};
ghost use Rattle.std.specs.Prelude.{◌↔◌, ◌⊎◌, IsSome, false, length, reverse, true};
ghost use Rattle.scale_info_interner.specs.Interned.{IsIndexOf, IsKnown, IsNew};
ghost use Rattle.scale_info_identities.specs.declared.type_id.TypeId.{TypeId};
ghost use Rattle.scale_info_numberings.specs.Extensions.{IsExtension};
ghost use Rattle.scale_info_catalogue.specs.CatalogueSystems.{catalogue_system};
ghost use Rattle.scale_info_catalogue.specs.Discoveries.{nodes_of, stacked, AreFound};
ghost use Rattle.scale_info_catalogue.specs.Discoveries.{IsCause, IsNumbered, IsNumberError};
ghost use Rattle.scale_info_catalogue.specs.declared.discovery.RegisterError.TheVariants as error;

use crate::catalogue::Catalogue;
use crate::number_cache::NumberCache;
use scale_info_collections::failure::AllocationFailure;
use scale_info_collections::try_clone::TryClone;
use scale_info_identities::type_id::TypeId;
use scale_info_interner::interner::{InternError, Interner};
use scale_info_references::references::references_of;
use scale_info_types::meta_type::MetaType;
use scale_info_types::ty::Type;
use std::alloc::Global;
use thiserror::Error;

/// Why a registration failed.
#[derive(Debug, Drop, PartialEq, Eq, Error)]
pub enum RegisterError {
    /// The type with this identity is reached, is new, and has no description in the catalogue.
    #[error("the type {} has no description", .0.head())]
    Undescribed(TypeId),
    /// There would be more than 4294967295 identities.
    #[error("there are more than 4294967295 types")]
    Full,
    /// An allocation failed.
    #[error("out of memory")]
    Memory,
}

impl<F: AllocationFailure> From<F> for RegisterError {
    ghost from_gives = { λ _ e. e ≡ error.Memory };

    fn from(_failure: F) -> RegisterError {
        RegisterError::Memory
    }
}

/// Moves the types found onto the stack, so that the first of them comes on top.
///
/// Errors: `Memory`, if an allocation failed.
pub fn stack_up<'a>(
    mut found: Vec<&'a MetaType>,
    mut pending: Vec<&'a MetaType>,
) -> Result<Vec<&'a MetaType>, RegisterError>
    ensures ok { IfOk result
        (λ all. reverse all.items ≡ found.entry.items ++ reverse pending.entry.items) }
    ensures err { IfErr result (λ e. e ≡ error.Memory) }
{
    while let Some(last) = found.pop() {
        pending.push(last)?;
    }
    Ok(pending)
}

/// Numbers the pending types, the last first, and all that is reached from them, as far as it is
/// new, and returns the descriptions of what is new, in the order of the numbers. Each number is an
/// index in the list of identities.
///
/// The cache saves searches, and gets the numbers that it does not have.
///
/// Errors: `Undescribed`, if a type that is new is reached and has no description in the
/// catalogue; `Full`, if there would be more than 4294967295 identities; `Memory`, if an allocation
/// failed. On an Err some of what is new may have its number.
pub fn discover<'a>(
    alloc: Global,
    identities: &mut Interner<TypeId>,
    cache: &mut NumberCache,
    mut pending: Vec<&'a MetaType>,
    catalogue: &'a Catalogue,
) -> Result<Vec<&'a Type>, RegisterError>
    ensures kept { (more : List TypeId) × (identities.new ≡ identities.old ++ more) }
    ensures ok { OnOk result (IsExtension (catalogue_system catalogue.now) (nodes_of identities.old)
        (stacked pending.entry.items) (nodes_of identities.new)) }
    ensures found { IfOk result (λ found. (more : List TypeId)
        × (identities.new ≡ identities.old ++ more) × AreFound catalogue.now more found.items) }
    ensures err { IfErr result (IsCause (catalogue_system catalogue.now) (nodes_of identities.old)
        (stacked pending.entry.items)) }
{
    let _distinct = identities.elements();
    let mut found = none_of(alloc, catalogue);
    while let Some(next) = pending.pop() {
        let new = number_cached(alloc, identities, cache, next.type_id(), catalogue)?;
        if let Some(described) = new {
            found = with_one(found, described)?;
            pending = stack_up(references_of(alloc, described)?, pending)?;
        }
    }
    Ok(found)
}

/// The number of an identity; None if it has none. It is not searched where the cache has it. Does
/// not allocate.
pub fn number_of(identities: &Interner<TypeId>, cache: &NumberCache, id: &TypeId) -> Option<u32>
    ensures found { IfSome result
        (IsIndexOf ⟦<TypeId as PartialEq>⟧.eq identities.now id.now) }
    ensures known { IsSome result
        ↔ IsKnown ⟦<TypeId as PartialEq>⟧.eq identities.now id.now }
{
    match cache.known(identities, id) {
        Some(number) => Some(number),
        None => searched(identities, id),
    }
}

/// No description of a catalogue.
fn none_of<'a>(alloc: Global, _catalogue: &'a Catalogue) -> Vec<&'a Type>
    ensures { result.items ≡ [] }
{
    Vec::new(alloc)
}

/// The list with one more description at its end.
///
/// Errors: `Memory`, if an allocation failed.
fn with_one<'a>(mut list: Vec<&'a Type>, one: &'a Type) -> Result<Vec<&'a Type>, RegisterError>
    ensures ok { IfOk result (λ all. all.items ≡ list.entry.items ++ one.entry ∷ []) }
    ensures err { IfErr result (λ e. e ≡ error.Memory) }
{
    list.push(one)?;
    Ok(list)
}

/// The description of an identity that is new, which gets the next number; None if it has one. It
/// is not searched where the cache has its number.
///
/// Errors: as those of [`discover`], for this identity. On an Err no number was given.
fn number_cached<'a>(
    alloc: Global,
    identities: &mut Interner<TypeId>,
    cache: &mut NumberCache,
    id: &TypeId,
    catalogue: &'a Catalogue,
) -> Result<Option<&'a Type>, RegisterError>
    ensures ok { IfOk result (λ found.
        IsNumbered catalogue.now identities.old id.now (option_copied found) identities.new) }
    ensures err { OnErr result (identities.new ≡ identities.old) }
    ensures cause { IfErr result (IsNumberError catalogue.now identities.old id.now) }
{
    let hash = cache.hash(id);
    if cache.known_by(identities, id, hash).is_some() {
        return Ok(None);
    }
    let (number, new) = number_new(alloc, identities, id, catalogue)?;
    cache.put(alloc, identities, id, hash, number);
    Ok(new)
}

/// The same by a search, and also its number.
fn number_new<'a>(
    alloc: Global,
    identities: &mut Interner<TypeId>,
    id: &TypeId,
    catalogue: &'a Catalogue,
) -> Result<(u32, Option<&'a Type>), RegisterError>
    ensures ok { IfOk result (λ found.
        IsNumbered catalogue.now identities.old id.now (option_copied found.1) identities.new) }
    ensures index { IfOk result (λ found.
        IsIndexOf ⟦<TypeId as PartialEq>⟧.eq identities.new id.now found.0) }
    ensures err { OnErr result (identities.new ≡ identities.old) }
    ensures cause { IfErr result (IsNumberError catalogue.now identities.old id.now) }
{
    let (is_new, number) = interned(identities, id)?;
    if !is_new {
        return Ok((number, None));
    }
    let Some(described) = catalogue.get(id) else {
        identities.truncate(number as usize);
        return Err(RegisterError::Undescribed(id.try_clone(alloc)?));
    };
    Ok((number, Some(described)))
}

/// The number of an identity, by a search; None if it has none. Does not allocate.
fn searched(identities: &Interner<TypeId>, id: &TypeId) -> Option<u32>
    ensures found { IfSome result
        (IsIndexOf ⟦<TypeId as PartialEq>⟧.eq identities.now id.now) }
    ensures known { IsSome result
        ↔ IsKnown ⟦<TypeId as PartialEq>⟧.eq identities.now id.now }
{
    Some(identities.get(id)?.into_untracked().id)
}

/// The number of an identity, and whether it is new; then it gets the next one. It is searched
/// once, and copied only where it is new: a known one does not fail.
///
/// Errors: `Full`, if it is new, and there are 4294967295 identities; `Memory`, if it is new, and
/// an allocation failed. On an Err no number was given.
fn interned(identities: &mut Interner<TypeId>, id: &TypeId) -> Result<(bool, u32), RegisterError>
    ensures new { IfOk result (λ found. found.0 ≡ true
        → IsNew ⟦<TypeId as PartialEq>⟧.eq identities.old id.now
        × (identities.new ≡ identities.old ++ id.now ∷ []) × (found.1 ≡ length identities.old)) }
    ensures known { IfOk result (λ found. found.0 ≡ false
        → IsKnown ⟦<TypeId as PartialEq>⟧.eq identities.old id.now
        × (identities.new ≡ identities.old)) }
    ensures index { IfOk result (λ found.
        IsIndexOf ⟦<TypeId as PartialEq>⟧.eq identities.new id.now found.1) }
    ensures err { OnErr result (identities.new ≡ identities.old) }
    ensures cause { IfErr result (λ e. (e ≡ error.Full) × (length identities.old ≡ 4294967295)
        ⊎ (e ≡ error.Memory)) }
    ensures unknown { OnErr result (IsNew ⟦<TypeId as PartialEq>⟧.eq identities.old id.now) }
{
    match identities.intern_copy(id) {
        Ok((is_new, symbol)) => Ok((is_new, symbol.id)),
        Err(InternError::Full) => Err(RegisterError::Full),
        Err(InternError::Memory) => Err(RegisterError::Memory),
    }
}
