//! Registries: types of the program become descriptions with ids.
ghost use Rattle.std.specs.Iterator.{IsFinite};
ghost use Rattle.std.specs.List.{AllZip, enumerate_from, flat_map};
ghost use Rattle.std.specs.Prelude.{
  ◌≡◌,
  ◌≤◌,
  ◌++◌,
  ◌⊎◌,
  ◌∷◌,
  [],
  ℕ,
  List,
  Ok,
  Some,
  OnOk,
  OnErr,
  IfErr,
  IfOk,
  IsOk,
  Contains,
  length,
  map,
  slice_get,
  take,
  drop,
  ◌+◌,
};
ghost use Rattle.scale_info_identities.specs.TypeIds.{term_of};
ghost use Rattle.scale_info_identities.specs.declared.symbol.UntrackedSymbol.{UntrackedSymbol};
ghost use Rattle.scale_info_identities.specs.declared.type_id.TypeId.{TypeId};
ghost use Rattle.scale_info_numberings.specs.Tables.{ArePlaces};
ghost use Rattle.scale_info_types.specs.Iterators.{GivesAll};
ghost use Rattle.scale_info_types.specs.Portable as portable;
ghost use Rattle.scale_info_types.specs.declared.meta_type.MetaType.{MetaType};
ghost use Rattle.scale_info_catalogue.specs.CatalogueSystems.{catalogue_system};
ghost use Rattle.scale_info_catalogue.specs.Catalogues.{described};
ghost use Rattle.scale_info_types.specs.MetaDescriptions.{MetaDescription, type_term};
ghost use Rattle.scale_info_catalogue.specs.Discoveries.{nodes_of, roots_of, stacked};
ghost use Rattle.scale_info_catalogue.specs.Discoveries.{AreFound, IsCause};
ghost use Rattle.scale_info_catalogue.specs.declared.catalogue.Catalogue.{Catalogue};
ghost use Rattle.scale_info_registry.specs.Registrations.{
  Registered,
  registered,
  IsClosedRegistry,
  IsRegistration,
  AreDescribed,
  HasIds,
  Keeps,
  IsConverted,
  index_in,
};
ghost use Rattle.scale_info_catalogue.specs.declared.discovery.RegisterError.TheVariants.{
  Memory,
};

use conversion::{HasTypes, Identities, list_of_one};
use scale_info_catalogue::catalogue::Catalogue;
use scale_info_catalogue::discovery::{discover, number_of, stack_up};
use scale_info_catalogue::number_cache::NumberCache;
use scale_info_identities::symbol::UntrackedSymbol;
use scale_info_identities::type_id::TypeId;
use scale_info_interner::interner::Interner;
use scale_info_references::references::references_of_types;
use scale_info_types::form::PortableForm;
use scale_info_types::meta_type::MetaType;
use scale_info_types::ty::Type;
use std::alloc::{AllocError, Global};
use std::marker::Model;

mod borrowed;
mod closed;
mod conversion;
mod equality;
mod into_portable;
mod registry_types;

pub use borrowed::{BorrowedTypes, TypeNumbers, borrow_types};
pub use into_portable::IntoPortable;
pub use registry_types::RegistryTypes;
pub use scale_info_catalogue::discovery::RegisterError;

/// A table of descriptions in the making: each type of the program that was registered has an id
/// and a portable description.
///
/// The ids are 0, 1, 2 and so on in the order of registration. A type gets its id before the types
/// that it refers to, and each of those, with all that it refers to, before the next. Contracts see
/// a registry as its identities and its descriptions, both by id. A look-up takes a number of
/// comparisons of identities logarithmic in the number of types.
///
/// After each call the registry is closed: each identity has a description, and each id in a
/// description is that of an identity.
#[derive(Drop)]
pub struct Registry {
    identities: Interner<TypeId>,
    types: Vec<Type<PortableForm>>,
    // Saves searches of identities.
    cache: NumberCache,
}

impl Model for Registry {
    ghost use Rattle.scale_info_identities.specs.contracts.type_id.TypeId as e;
    ghost use Rattle.scale_info_registry.specs.Registrations.{IsClosedRegistry, Registered};
    ghost use Rattle.scale_info_registry.specs.Registrations.{registered};
    ghost use Rattle.std.specs.Coded.{codes};

    ghost Value = { Registered };

    ghost coded = { Prim.hlevel (codes, e.the_row.coded) };

    ghost view = { λ s. registered s.identities s.types.items };

    ghost invariant = { λ s. IsClosedRegistry (registered s.identities s.types.items) };
}

impl Registry {
    /// The registry with no type. Does not allocate.
    pub fn new(alloc: Global) -> Registry
        ensures { result ≡ registered [] [] }
    {
        Registry {
            identities: Interner::new(alloc),
            types: Vec::new(alloc),
            cache: NumberCache::new(alloc),
        }
    }

    /// The id of a type, which is registered if it is new, with all that it refers to.
    ///
    /// A known type succeeds, whatever the catalogue has, does not allocate, and changes nothing.
    ///
    /// Errors: `Undescribed`, if a type that is new is reached and has no description in the
    /// catalogue; `Full`, if there would be more than 4294967295 identities; `Memory`, if an
    /// allocation failed. On an Err the registry is as before.
    pub fn register_type(
        &mut self,
        ty: &MetaType,
        catalogue: &Catalogue,
    ) -> Result<UntrackedSymbol<TypeId>, RegisterError>
        ensures known { Contains (nodes_of self.old.identities) (type_term ty.now)
            → IsOk result × (self.new ≡ self.old) }
        ensures ok { OnOk result (IsRegistration (catalogue_system catalogue.now) self.old
            (type_term ty.now ∷ []) self.new) }
        ensures id { IfOk result (λ symbol.
            slice_get (nodes_of self.new.identities) symbol.id ≡ Some (type_term ty.now)) }
        ensures kept { Keeps self.old self.new }
        ensures err { OnErr result (self.new ≡ self.old) }
        ensures cause { IfErr result (IsCause (catalogue_system catalogue.now)
            (nodes_of self.old.identities) (type_term ty.now ∷ [])) }
    {
        let _distinct = self.identities.elements();
        if let Some(number) = number_of(&self.identities, &self.cache, ty.type_id()) {
            return Ok(UntrackedSymbol::from(number));
        }
        let alloc = *self.types.allocator();
        self.register(alloc, list_of_one(alloc, ty)?, catalogue)?;
        let ids = Identities {
            interner: &self.identities,
            cache: &self.cache,
        };
        Ok(ids.id(ty))
    }

    /// The ids of types, which are registered in order.
    ///
    /// Errors: as for [`Registry::register_type`], also `Memory`, if an allocation for the list
    /// failed. On an Err the registry is as before the whole call.
    pub fn register_types<I: IntoIterator<Item = MetaType>>(
        &mut self,
        types: I,
        catalogue: &Catalogue,
    ) -> Result<Vec<UntrackedSymbol<TypeId>>, RegisterError>
    where
        I::IntoIter: Drop,
        requires can { (it : I.IntoIter) → I.into_iter_gives types it → I.IntoIter.can_next it }
        requires ends { (it : I.IntoIter)
            → I.into_iter_gives types it → IsFinite (I.IntoIter.remaining it) }
        ensures ok { IfOk result (λ symbols. (given : List MetaType)
            × GivesAll I.into_iter_gives I.IntoIter.next_gives types given
            × IsRegistration (catalogue_system catalogue.now) self.old (roots_of given) self.new
            × ArePlaces (nodes_of self.new.identities) (roots_of given)
            (map (λ (s : UntrackedSymbol TypeId). s.id) symbols.items)) }
        ensures kept { Keeps self.old self.new }
        ensures err { OnErr result (self.new ≡ self.old) }
        ensures cause { IfErr result (λ e. (e ≡ Memory) ⊎ ((given : List MetaType)
            × GivesAll I.into_iter_gives I.IntoIter.next_gives types given
            × IsCause (catalogue_system catalogue.now) (nodes_of self.old.identities)
            (roots_of given) e)) }
    {
        let given = Vec::from_iter(*self.types.allocator(), types)?;
        self.register_all(&given, catalogue)
    }

    /// The ids of types that stay where they are, which are registered in order.
    ///
    /// The same as [`Registry::register_types`] of copies of them, without the copies.
    ///
    /// Errors: as for [`Registry::register_types`]. On an Err the registry is as before the whole
    /// call.
    pub fn register_all(
        &mut self,
        types: &[MetaType],
        catalogue: &Catalogue,
    ) -> Result<Vec<UntrackedSymbol<TypeId>>, RegisterError>
        ensures ok { IfOk result (λ symbols.
            IsRegistration (catalogue_system catalogue.now) self.old (roots_of types.now) self.new
            × ArePlaces (nodes_of self.new.identities) (roots_of types.now)
            (map (λ (s : UntrackedSymbol TypeId). s.id) symbols.items)) }
        ensures kept { Keeps self.old self.new }
        ensures err { OnErr result (self.new ≡ self.old) }
        ensures cause { IfErr result (IsCause (catalogue_system catalogue.now)
            (nodes_of self.old.identities) (roots_of types.now)) }
    {
        let _distinct = self.identities.elements();
        let alloc = *self.types.allocator();
        let known = known_symbols(alloc, &self.identities, &self.cache, types)?;
        let rest = &types[known.len()..];
        if rest.is_empty() {
            return Ok(known);
        }
        self.register_rest(alloc, known, rest, catalogue)
    }

    /// The symbols with those of more types after them, which are registered in order. On an Err
    /// the registry is as before.
    fn register_rest(
        &mut self,
        alloc: Global,
        symbols: Vec<UntrackedSymbol<TypeId>>,
        rest: &[MetaType],
        catalogue: &Catalogue,
    ) -> Result<Vec<UntrackedSymbol<TypeId>>, RegisterError>
        ensures ok { IfOk result (λ all. (ids : List ℕ)
            × IsRegistration (catalogue_system catalogue.now) self.old (roots_of rest.now) self.new
            × ArePlaces (nodes_of self.new.identities) (roots_of rest.now) ids
            × (map (λ (s : UntrackedSymbol TypeId). s.id) all.items
            ≡ map (λ (s : UntrackedSymbol TypeId). s.id) symbols.items ++ ids)) }
        ensures kept { Keeps self.old self.new }
        ensures err { OnErr result (self.new ≡ self.old) }
        ensures cause { IfErr result (IsCause (catalogue_system catalogue.now)
            (nodes_of self.old.identities) (roots_of rest.now)) }
    {
        let known = self.types.len();
        let pending = stack_up(references_of_types(alloc, rest)?, Vec::new(alloc))?;
        self.register(alloc, pending, catalogue)?;
        let ids = Identities {
            interner: &self.identities,
            cache: &self.cache,
        };
        match with_symbols_of(symbols, &ids, rest) {
            Ok(all) => Ok(all),
            Err(_) => {
                cut_back(&mut self.identities, &mut self.types, known);
                Err(RegisterError::Memory)
            }
        }
    }

    /// Registers the types that the values hold, in order, and returns the portable forms.
    ///
    /// Errors: as for [`Registry::register_type`], also `Memory`, if an allocation for the list or
    /// for a portable form failed. On an Err the registry is as before the whole call.
    pub fn map_into_portable<I: IntoIterator>(
        &mut self,
        items: I,
        catalogue: &Catalogue,
    ) -> Result<Vec<<I::Item as IntoPortable>::Output>, RegisterError>
    where
        I::Item: IntoPortable + Drop,
        I::IntoIter: Drop,
        <I::Item as IntoPortable>::Output: Drop,
        requires can { (it : I.IntoIter) → I.into_iter_gives items it → I.IntoIter.can_next it }
        requires ends { (it : I.IntoIter)
            → I.into_iter_gives items it → IsFinite (I.IntoIter.remaining it) }
        ensures ok { IfOk result (λ outputs. (given : List I.Item)
            × GivesAll I.into_iter_gives I.IntoIter.next_gives items given
            × IsRegistration (catalogue_system catalogue.now) self.old
            (flat_map I.Item.roots given) self.new
            × AllZip (λ x o. IsConverted I.Item.replaced (I.Item.roots x) self.new x o)
            given outputs.items) }
        ensures kept { Keeps self.old self.new }
        ensures err { OnErr result (self.new ≡ self.old) }
        ensures cause { IfErr result (λ e. (e ≡ Memory) ⊎ ((given : List I.Item)
            × GivesAll I.into_iter_gives I.IntoIter.next_gives items given
            × IsCause (catalogue_system catalogue.now) (nodes_of self.old.identities)
            (flat_map I.Item.roots given) e)) }
    {
        let alloc = *self.types.allocator();
        let known = self.types.len();
        let given = Vec::from_iter(alloc, items)?;
        let done = self.convert_all(alloc, given, catalogue);
        if done.is_err() {
            cut_back(&mut self.identities, &mut self.types, known);
        }
        done
    }

    /// The descriptions, each with its id, in ascending order of id. Does not allocate.
    pub fn types(&self) -> RegistryTypes<'_>
        ensures list { result ≡ enumerate_from 0 self.now.types }
        ensures closed { IsClosedRegistry self.now }
        ensures few { length self.now.types ≤ 4294967295 }
    {
        let _bounded = self.identities.elements();
        RegistryTypes {
            types: &self.types,
            id: 0,
        }
    }

    /// The descriptions, in ascending order of id. The identities are dropped. Does not allocate.
    pub fn into_types(self) -> Vec<Type<PortableForm>>
        ensures list { result.items ≡ self.types }
        ensures closed { IsClosedRegistry self }
        ensures few { length self.types ≤ 4294967295 }
    {
        let _bounded = self.identities.elements();
        let Registry { types, .. } = self;
        types
    }

    /// Registers the types that a value holds, and puts their ids in place of them.
    pub(crate) fn convert_value<T: HasTypes + Drop>(
        &mut self,
        alloc: Global,
        value: T,
        catalogue: &Catalogue,
    ) -> Result<T::Output, RegisterError>
        ensures ok { OnOk result (IsRegistration (catalogue_system catalogue.now) self.old
            (roots_of (T.types value)) self.new) }
        ensures output { IfOk result (IsConverted (HasIds T.types T.with_ids)
            (roots_of (T.types value)) self.new value) }
        ensures err { OnErr result (self.new ≡ self.old) }
        ensures kept { Keeps self.old self.new }
        ensures cause { IfErr result (IsCause (catalogue_system catalogue.now)
            (nodes_of self.old.identities) (roots_of (T.types value))) }
    {
        let own = *self.types.allocator();
        let known = self.types.len();
        let pending = stack_up(value.types(alloc)?, Vec::new(alloc))?;
        self.register(own, pending, catalogue)?;
        let ids = Identities {
            interner: &self.identities,
            cache: &self.cache,
        };
        match value.with_ids(alloc, &ids) {
            Ok(output) => Ok(output),
            Err(_) => {
                cut_back(&mut self.identities, &mut self.types, known);
                Err(RegisterError::Memory)
            }
        }
    }

    /// The portable forms of the values. On an Err the registry may have more than it had.
    fn convert_all<X: IntoPortable + Drop>(
        &mut self,
        alloc: Global,
        given: Vec<X>,
        catalogue: &Catalogue,
    ) -> Result<Vec<X::Output>, RegisterError>
    where
        X::Output: Drop,
        ensures kept { Keeps self.old self.new }
        ensures ok { OnOk result (IsRegistration (catalogue_system catalogue.now) self.old
            (flat_map X.roots given.items) self.new) }
        ensures outputs { IfOk result (λ outputs.
            AllZip (λ x o. IsConverted X.replaced (X.roots x) self.new x o)
            given.items outputs.items) }
        ensures cause { IfErr result (IsCause (catalogue_system catalogue.now)
            (nodes_of self.old.identities) (flat_map X.roots given.items)) }
    {
        let _distinct = self.identities.elements();
        let mut outputs = Vec::new(alloc);
        for item in given {
            outputs.push(item.into_portable(alloc, self, catalogue)?)?;
        }
        Ok(outputs)
    }

    /// Registers the types on the stack, the last first. On an Err the registry is as before.
    fn register<'a>(
        &mut self,
        alloc: Global,
        pending: Vec<&'a MetaType>,
        catalogue: &'a Catalogue,
    ) -> Result<(), RegisterError>
        ensures ok { OnOk result (IsRegistration (catalogue_system catalogue.now) self.old
            (stacked pending.entry.items) self.new) }
        ensures err { OnErr result (self.new ≡ self.old) }
        ensures cause { IfErr result (IsCause (catalogue_system catalogue.now)
            (nodes_of self.old.identities) (stacked pending.entry.items)) }
    {
        let known = self.types.len();
        let _distinct = self.identities.elements();
        let done = register_in(
            alloc,
            &mut self.identities,
            &mut self.types,
            &mut self.cache,
            pending,
            catalogue,
        );
        if done.is_err() {
            cut_back(&mut self.identities, &mut self.types, known);
        }
        done
    }
}

/// Numbers what is new, and then describes it. On an Err the lists may have more than they had.
fn register_in<'a>(
    alloc: Global,
    identities: &mut Interner<TypeId>,
    types: &mut Vec<Type<PortableForm>>,
    cache: &mut NumberCache,
    pending: Vec<&'a MetaType>,
    catalogue: &'a Catalogue,
) -> Result<(), RegisterError>
    requires { length types.old.items ≡ length identities.old }
    ensures kept { (more : List TypeId) × (identities.new ≡ identities.old ++ more) }
    ensures kept_types { (more : List portable.Description)
        × (types.new.items ≡ types.old.items ++ more) }
    ensures ok { OnOk result (IsRegistration (catalogue_system catalogue.now)
        (registered identities.old types.old.items) (stacked pending.entry.items)
        (registered identities.new types.new.items)) }
    ensures long { OnOk result (length types.new.items ≡ length identities.new) }
    ensures cause { IfErr result (IsCause (catalogue_system catalogue.now)
        (nodes_of identities.old) (stacked pending.entry.items)) }
{
    let found = discover(alloc, identities, cache, pending, catalogue)?;
    describe(alloc, identities, cache, found, types)?;
    Ok(())
}

/// The ids of the first types, as far as they are known.
fn known_symbols(
    alloc: Global,
    identities: &Interner<TypeId>,
    cache: &NumberCache,
    types: &[MetaType],
) -> Result<Vec<UntrackedSymbol<TypeId>>, AllocError>
    ensures few { IfOk result (λ symbols. length symbols.items ≤ length types.now) }
    ensures places { IfOk result (λ symbols. ArePlaces (nodes_of identities.now)
        (roots_of (take (length symbols.items) types.now))
        (map (λ (s : UntrackedSymbol TypeId). s.id) symbols.items)) }
{
    let mut symbols = Vec::with_capacity(alloc, types.len())?;
    for ty in types {
        let Some(number) = number_of(identities, cache, ty.type_id()) else {
            break;
        };
        symbols.push(UntrackedSymbol::from(number))?;
    }
    Ok(symbols)
}

/// The symbols with the ids of types after them, in order.
fn with_symbols_of(
    mut symbols: Vec<UntrackedSymbol<TypeId>>,
    ids: &Identities<'_>,
    types: &[MetaType],
) -> Result<Vec<UntrackedSymbol<TypeId>>, AllocError>
    ensures { IfOk result (λ all. map (λ (s : UntrackedSymbol TypeId). s.id) all.items
        ≡ map (λ (s : UntrackedSymbol TypeId). s.id) symbols.items
        ++ map (λ ty. index_in ⟦<TypeId as PartialEq>⟧.eq ids.now.interner.now ty.identity)
        types.now) }
{
    for ty in types {
        symbols.push(ids.id(ty))?;
    }
    Ok(symbols)
}

/// Cuts both lists back to their first so many entries.
fn cut_back(identities: &mut Interner<TypeId>, types: &mut Vec<Type<PortableForm>>, known: usize)
    ensures identities { identities.new ≡ take known identities.old }
    ensures types { types.new.items ≡ take known types.old.items }
{
    identities.truncate(known);
    types.truncate(known);
}

/// Describes the identities that have no description yet, in order, by those that were found.
fn describe<'a>(
    alloc: Global,
    identities: &Interner<TypeId>,
    cache: &NumberCache,
    found: Vec<&'a Type>,
    types: &mut Vec<Type<PortableForm>>,
) -> Result<(), AllocError>
    requires fits { length types.old.items + length found.items ≡ length identities.now }
    ensures kept { (more : List portable.Description)
        × (types.new.items ≡ types.old.items ++ more) }
    ensures long { OnOk result (length types.new.items ≡ length identities.now) }
    ensures entries { OnOk result ((catalogue : Catalogue)
        → AreFound catalogue (drop (length types.old.items) identities.now) found.entry.items
        → AreDescribed catalogue identities.now (length types.old.items) types.new.items) }
{
    let numbers = Identities {
        interner: identities,
        cache,
    };
    for described in found {
        let ty = described.with_ids(alloc, &numbers);
        push_made(types, ty)?;
    }
    Ok(())
}

/// Appends a value that was made, or returns the error of making it. It is generic, since the proof
/// of a function grows with what it drops where it returns early.
fn push_made<T: Drop>(list: &mut Vec<T>, made: Result<T, AllocError>) -> Result<(), AllocError>
    ensures ok { OnOk result ((value : T) × (made ≡ Ok value)
        × (list.new.items ≡ list.old.items ++ value ∷ [])) }
    ensures err { OnErr result (list.new.items ≡ list.old.items) }
{
    let value = made?;
    if list.push(value).is_err() {
        return Err(AllocError);
    }
    Ok(())
}
