//! Types of the program with ids, whose descriptions stay in the catalogue.
ghost use Rattle.std.specs.Prelude.{◌≡◌, ◌≤◌, [], IfErr, IfOk, length, map};
ghost use Rattle.scale_info_catalogue.specs.CatalogueSystems.{catalogue_system};
ghost use Rattle.scale_info_catalogue.specs.Discoveries.{IsCause, nodes_of, roots_of};
ghost use Rattle.scale_info_numberings.specs.Tables.{ArePlaces};
ghost use Rattle.scale_info_references.specs.Gathered.{targets};
ghost use Rattle.scale_info_registry.specs.BorrowedTypes.{all_with_ids_in, id_in};
ghost use Rattle.scale_info_registry.specs.Registrations.{IsRegistration, registered};

use super::conversion::Identities;
use scale_info_catalogue::catalogue::Catalogue;
use scale_info_catalogue::discovery::{RegisterError, discover, stack_up};
use scale_info_catalogue::number_cache::NumberCache;
use scale_info_identities::type_id::TypeId;
use scale_info_interner::interner::Interner;
use scale_info_references::references::references_of_types;
use scale_info_types::meta_type::MetaType;
use scale_info_types::ty::Type;
use std::alloc::{AllocError, Global};
use std::marker::Model;

/// The ids of types of the program. Contracts see the identities of these types, by id.
#[derive(Drop)]
pub struct TypeNumbers {
    identities: Interner<TypeId>,
    // Saves searches of identities.
    cache: NumberCache,
}

impl Model for TypeNumbers {
    ghost use Rattle.scale_info_identities.specs.contracts.type_id.TypeId as e;
    ghost use Rattle.scale_info_identities.specs.declared.type_id.TypeId.{TypeId};
    ghost use Rattle.std.specs.Coded.{codes};
    ghost use Rattle.std.specs.Prelude.{List};

    ghost Value = { List TypeId };

    ghost coded = { Prim.hlevel (codes, e.the_row.coded) };

    ghost view = { λ s. s.identities };
}

impl TypeNumbers {
    /// The id of a type; the number of types, if it has none. Does not allocate.
    pub fn id(&self, ty: &MetaType) -> u32
        ensures { result ≡ id_in self.now ty.now }
    {
        let ids = Identities {
            interner: &self.identities,
            cache: &self.cache,
        };
        ids.id(ty).id
    }

    /// The ids of types, in order.
    ///
    /// Errors: `AllocError`, if an allocation failed.
    pub fn ids(&self, alloc: Global, types: &[MetaType]) -> Result<Vec<u32>, AllocError>
        ensures { IfOk result (λ ids. ids.items ≡ map (id_in self.now) types.now) }
    {
        let mut ids = Vec::with_capacity(alloc, types.len())?;
        for ty in types {
            ids.push(self.id(ty))?;
        }
        Ok(ids)
    }

    /// The ids of types that lie in different places, in order.
    ///
    /// Errors: `AllocError`, if an allocation failed.
    pub fn ids_of(&self, alloc: Global, types: Vec<&MetaType>) -> Result<Vec<u32>, AllocError>
        ensures { IfOk result (λ ids. ids.items ≡ map (id_in self.now) (targets types.entry.items)) }
    {
        let mut ids = Vec::with_capacity(alloc, types.len())?;
        for ty in types {
            ids.push(self.id(ty))?;
        }
        Ok(ids)
    }
}

/// Types of the program with ids, as a [`Registry`](super::Registry) has them, whose descriptions
/// stay in the catalogue: no string of theirs is copied, and no id is put in place of a type.
#[derive(Drop)]
pub struct BorrowedTypes<'c> {
    /// The ids of the types.
    pub numbers: TypeNumbers,
    /// The descriptions, in ascending order of id.
    pub descriptions: Vec<&'c Type>,
    /// The ids of the types that were asked for, in order.
    pub ids: Vec<u32>,
}

/// These types and all that they reach. They get the ids that an empty registry gives them in one
/// call.
///
/// Errors: `Undescribed`, if a type that is reached has no description in the catalogue; `Full`, if
/// more than 4294967295 types are reached; `Memory`, if an allocation failed.
pub fn borrow_types<'c>(
    alloc: Global,
    types: &'c [MetaType],
    catalogue: &'c Catalogue,
) -> Result<BorrowedTypes<'c>, RegisterError>
    ensures ok { IfOk result (λ borrowed. IsRegistration (catalogue_system catalogue.now)
        (registered [] []) (roots_of types.now)
        (registered borrowed.numbers (all_with_ids_in borrowed.numbers borrowed.descriptions.items))) }
    ensures long { IfOk result (λ borrowed.
        length borrowed.descriptions.items ≡ length borrowed.numbers) }
    ensures few { IfOk result (λ borrowed. length borrowed.numbers ≤ 4294967295) }
    ensures places { IfOk result (λ borrowed.
        ArePlaces (nodes_of borrowed.numbers) (roots_of types.now) borrowed.ids.items) }
    ensures cause { IfErr result
        (IsCause (catalogue_system catalogue.now) [] (roots_of types.now)) }
{
    let mut identities = Interner::new(alloc);
    let mut cache = NumberCache::new(alloc);
    let pending = stack_up(references_of_types(alloc, types)?, Vec::new(alloc))?;
    let descriptions = discover(alloc, &mut identities, &mut cache, pending, catalogue)?;
    let _few = identities.elements();
    let numbers = TypeNumbers { identities, cache };
    let ids = numbers.ids(alloc, types)?;
    Ok(BorrowedTypes {
        numbers,
        descriptions,
        ids,
    })
}
