//! Descriptions by identity.
ghost use Rattle.std.specs.BTreeMap.{IsUnchanged, Updates, btree_map_len, get};
ghost use Rattle.std.specs.Option.{option_copied};
ghost use Rattle.std.specs.Prelude.{◌≡◌, ◌≢◌, ◌↔◌, Bool, None, Ok, Some, IfOk, IsErrOf, IsSome};
ghost use Rattle.std.specs.Prelude.{OnErr, OnOk, false, suc, true};
ghost use Rattle.scale_info_identities.specs.TypeIds.{term_of};
ghost use Rattle.scale_info_catalogue.specs.Catalogues.{AreSame, HasOneMore, HasOther};
ghost use Rattle.scale_info_catalogue.specs.Catalogues.{catalogue_error, contents_of, described};
ghost use Rattle.scale_info_catalogue.specs.Catalogues.{size};
ghost use Rattle.scale_info_types.specs.MetaDescriptions.{MetaContent, MetaDescription};
ghost use Rattle.scale_info_types.specs.MetaDescriptions.{meta_content};
ghost use Rattle.scale_info_catalogue.specs.declared.catalogue.CatalogueError.TheVariants as error;

use scale_info_identities::type_id::TypeId;
use scale_info_type_ids::identified::{HasIdentity, Identified};
use scale_info_type_info::type_info::{InfoError, TypeInfo};
use scale_info_types::form::MetaForm;
use scale_info_types::laws::equal_contents;
use scale_info_types::meta_type::Describes;
use scale_info_types::ty::Type;
use std::alloc::{AllocError, AllocFailed, Global};
use std::collections::BTreeMap;
use std::collections::btree_map::Entry;
use thiserror::Error;

/// Why a description could not be added.
#[derive(Debug, Drop, PartialEq, Eq, Error)]
pub enum CatalogueError {
    /// The identity is there with another description.
    #[error("the identity has another description")]
    Conflict,
    /// The type is an array of more than 4294967295 items.
    #[error("an array has more than 4294967295 items")]
    TooLong,
    /// An allocation failed.
    #[error("out of memory")]
    Memory,
}

impl From<AllocError> for CatalogueError {
    ghost from_gives = { λ _ e. e ≡ error.Memory };

    fn from(_e: AllocError) -> CatalogueError {
        CatalogueError::Memory
    }
}

impl<T: Drop> From<AllocFailed<T>> for CatalogueError {
    ghost from_gives = { λ _ e. e ≡ error.Memory };

    fn from(_e: AllocFailed<T>) -> CatalogueError {
        CatalogueError::Memory
    }
}

impl From<InfoError> for CatalogueError {
    ghost from_gives = { λ cause e. e ≡ catalogue_error cause };

    fn from(e: InfoError) -> CatalogueError {
        match e {
            InfoError::TooLong => CatalogueError::TooLong,
            InfoError::Memory => CatalogueError::Memory,
        }
    }
}

/// Descriptions by identity: a finite map in which each identity has one description.
///
/// A look-up or an insertion takes a number of comparisons of identities logarithmic in the number
/// of descriptions.
///
/// ```text
/// let mut catalogue = Catalogue::new(alloc);
/// catalogue.add::<u8>()                                           // Ok(true)
/// catalogue.add::<Box<u8>>()                                      // Ok(false): known as u8
/// catalogue.add_described(u8::type_id(alloc)?, bool::type_info(alloc)?)  // Err(Conflict)
/// ```
#[derive(Drop)]
pub struct Catalogue {
    entries: BTreeMap<TypeId, Type>,
    alloc: Global,
}

impl Catalogue {
    /// The catalogue with no description, which allocates by `alloc` from then on. Does not
    /// allocate itself.
    pub fn new(alloc: Global) -> Catalogue
        ensures none { (t : _) → described result t ≡ None }
        ensures len { size result ≡ 0 }
    {
        Catalogue {
            entries: BTreeMap::new(alloc),
            alloc,
        }
    }

    /// Adds the description of `T` under its identity.
    ///
    /// Ok(true) says that the identity was new, Ok(false) that it was there with this description.
    ///
    /// Errors: `Conflict`, if the identity is there with another description; `TooLong`, if the
    /// type is an array of more than 4294967295 items, or is described as one; `Memory`, if an
    /// allocation failed. A type without a description is not a `Conflict` with one that its
    /// identity has. On an Err the catalogue is as before.
    pub fn add<T: TypeInfo>(&mut self) -> Result<bool, CatalogueError>
        ensures new { IfOk result (λ new. new ≡ true
            → (d : MetaDescription) × (T.description ≡ Some (meta_content d))
            × HasOneMore self.old self.new T.Identity.own d) }
        ensures known { IfOk result (λ new. (new ≡ false)
            ↔ ((content : MetaContent) × (T.description ≡ Some content)
            × (contents_of self.old T.Identity.own ≡ Some content))) }
        ensures known_same { IfOk result (λ new. new ≡ false → AreSame self.old self.new) }
        ensures conflict { IsErrOf result CatalogueError.Conflict
            → (contents_of self.old T.Identity.own ≢ None)
            × (contents_of self.old T.Identity.own ≢ T.description) }
        ensures other { IsErrOf result CatalogueError.Conflict
            → (content : MetaContent) × (T.description ≡ Some content)
            × HasOther self.old T.Identity.own content }
        ensures too_long { IsErrOf result CatalogueError.TooLong → T.description ≡ None }
        ensures err { OnErr result (AreSame self.old self.new) }
    {
        let identity = T::Identity::type_id(self.alloc)?;
        let description = T::type_info(self.alloc)?;
        self.add_described(identity, description)
    }

    /// Adds a description under an identity. Descriptions are the same where their contents are.
    ///
    /// Ok(true) says that the identity was new, Ok(false) that it was there with this description.
    /// A known identity does not allocate.
    ///
    /// Errors: `Conflict`, if the identity is there with another description; `Memory`, if the
    /// identity is new and an allocation failed. On an Err the catalogue is as before.
    pub fn add_described(
        &mut self,
        identity: TypeId,
        description: Type,
    ) -> Result<bool, CatalogueError>
        ensures new { IfOk result (λ new. new ≡ true
            → HasOneMore self.old self.new (term_of identity) description.entry) }
        ensures known { (result ≡ Ok false)
            ↔ (contents_of self.old (term_of identity)
            ≡ Some (meta_content description.entry)) }
        ensures known_same { IfOk result (λ new. new ≡ false → AreSame self.old self.new) }
        ensures conflict { IsErrOf result CatalogueError.Conflict
            ↔ HasOther self.old (term_of identity) (meta_content description.entry) }
        ensures too_long { IsErrOf result CatalogueError.TooLong → ⊥ }
        ensures memory { IsErrOf result CatalogueError.Memory
            → described self.old (term_of identity) ≡ None }
        ensures err { OnErr result (AreSame self.old self.new) }
    {
        equal_contents::<MetaForm>();
        let Ok(found) = insert_or_compare(&mut self.entries, identity, description) else {
            return Err(CatalogueError::Memory);
        };
        let Some(same) = found else {
            return Ok(true);
        };
        if same {
            Ok(false)
        } else {
            Err(CatalogueError::Conflict)
        }
    }

    /// The description of this identity; None if there is none. Does not allocate.
    pub fn get(&self, identity: &TypeId) -> Option<&Type>
        ensures { option_copied result ≡ described self.now (term_of identity.now) }
    {
        self.entries.get(identity)
    }

    /// The number of identities with a description.
    pub fn len(&self) -> usize
        ensures { result ≡ size self.now }
    {
        self.entries.len()
    }
}

impl Describes for Catalogue {
    ghost describes = { described };

    fn get(&self, identity: &TypeId) -> Option<&Type> {
        Catalogue::get(self, identity)
    }
}

/// Puts a value under a key that has none, and returns None; else returns whether the value that
/// the key has equals it. The key is searched once.
///
/// Errors: `AllocError`, if the key has no value and an allocation failed. On an Err, and on a
/// Some, the map is as before.
fn insert_or_compare<K: Ord + Drop, V: PartialEq + Drop>(
    entries: &mut BTreeMap<K, V>,
    key: K,
    value: V,
) -> Result<Option<bool>, AllocError>
    ensures new { result ≡ Ok None → (get K.cmp entries.old key ≡ None)
        × Updates K.cmp entries.old entries.new key (Some value)
        × (btree_map_len entries.new ≡ suc (btree_map_len entries.old)) }
    ensures same { (same : Bool) → result ≡ Ok (Some same) → (known : V)
        × (get K.cmp entries.old key ≡ Some known) × (V.eq known value ≡ same) }
    ensures kept { IfOk result (λ found. IsSome found → IsUnchanged entries.old entries.new) }
    ensures err { OnErr result (IsUnchanged entries.old entries.new) }
    ensures absent { OnErr result (get K.cmp entries.old key ≡ None) }
{
    match entries.entry(key)? {
        Entry::Vacant(place) => {
            place.insert(value);
            Ok(None)
        }
        Entry::Occupied(known) => Ok(Some(*known.get() == value)),
    }
}
