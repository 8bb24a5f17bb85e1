//! The parts of definitions of a text.
ghost use Rattle.std.specs.Prelude.{◌^◌, codes};
ghost use Rattle.scale_info_json_trees.specs.Meaning.{MeansList, MeansNumber};
ghost use Rattle.scale_info_json_trees.specs.PartTrees.{MeansField, MeansId, MeansVariant};
ghost use Rattle.scale_info_json_trees.specs.DefinitionTrees.{MeansArray, MeansBitSequence};
ghost use Rattle.scale_info_json_trees.specs.DefinitionTrees.{MeansCompact, MeansComposite};
ghost use Rattle.scale_info_json_trees.specs.DefinitionTrees.{MeansMap, MeansSequence};
ghost use Rattle.scale_info_json_trees.specs.DefinitionTrees.{MeansVariantType};
ghost use Rattle.scale_info_json_text.specs.Members.{HoldsOne, HoldsTwo};

use crate::json_text::JsonText;
use crate::member::{Member, list_or_empty, required};
use crate::object::{JsonObject, read_object};
use crate::source::{Reading, TextSource};
use json::Token;
use scale_info_collections::items::Items;
use scale_info_identities::symbol::UntrackedSymbol;
use scale_info_identities::type_id::TypeId;
use scale_info_types::form::PortableForm;
use scale_info_types::ty::composite::TypeDefComposite;
use scale_info_types::ty::fields::Field;
use scale_info_types::ty::variant::{TypeDefVariant, Variant};
use scale_info_types::ty::{
    TypeDefArray, TypeDefBitSequence, TypeDefCompact, TypeDefMap, TypeDefSequence, TypeDefTuple,
};
use std::alloc::Global;

/// What was read under a key that has an id.
type FoundId = Member<UntrackedSymbol<TypeId>>;

impl JsonObject<Member<Items<Field<PortableForm>>>> for TypeDefComposite<PortableForm> {
    ghost meant = { MeansComposite };

    ghost holds = { HoldsOne (codes "fields") (MeansList MeansField) };

    ghost only_objects = { λ tree v m. m.object };

    fn finish(
        found: Member<Items<Field<PortableForm>>>,
        alloc: Global,
    ) -> Option<TypeDefComposite<PortableForm>> {
        let fields = list_or_empty(alloc, found)?;
        Some(TypeDefComposite { fields })
    }
}

impl JsonText for TypeDefComposite<PortableForm> {
    ghost meant = { MeansComposite };

    fn from_token(token: Token<'_>, source: &mut TextSource<'_>, depth: usize) -> Reading<Self> {
        read_object::<Member<Items<Field<PortableForm>>>, Self>("fields", token, source, depth)
    }
}

impl JsonObject<Member<Items<Variant<PortableForm>>>> for TypeDefVariant<PortableForm> {
    ghost meant = { MeansVariantType };

    ghost holds = { HoldsOne (codes "variants") (MeansList MeansVariant) };

    ghost only_objects = { λ tree v m. m.object };

    fn finish(
        found: Member<Items<Variant<PortableForm>>>,
        alloc: Global,
    ) -> Option<TypeDefVariant<PortableForm>> {
        let variants = list_or_empty(alloc, found)?;
        Some(TypeDefVariant { variants })
    }
}

impl JsonText for TypeDefVariant<PortableForm> {
    ghost meant = { MeansVariantType };

    fn from_token(token: Token<'_>, source: &mut TextSource<'_>, depth: usize) -> Reading<Self> {
        read_object::<Member<Items<Variant<PortableForm>>>, Self>("variants", token, source, depth)
    }
}

impl JsonObject<FoundId> for TypeDefSequence<PortableForm> {
    ghost meant = { MeansSequence };

    ghost holds = { HoldsOne (codes "type") MeansId };

    ghost only_objects = { λ tree v m. m.object };

    fn finish(found: FoundId, _alloc: Global) -> Option<TypeDefSequence<PortableForm>> {
        Some(TypeDefSequence::new(required(found)?))
    }
}

impl JsonText for TypeDefSequence<PortableForm> {
    ghost meant = { MeansSequence };

    fn from_token(token: Token<'_>, source: &mut TextSource<'_>, depth: usize) -> Reading<Self> {
        read_object::<FoundId, Self>("type", token, source, depth)
    }
}

impl JsonObject<(Member<u32>, FoundId)> for TypeDefArray<PortableForm> {
    ghost meant = { MeansArray };

    ghost holds = { HoldsTwo (codes "len") (codes "type") (MeansNumber (2 ^ 32)) MeansId };

    ghost only_objects = { λ tree v m. m.object };

    fn finish(found: (Member<u32>, FoundId), _alloc: Global) -> Option<TypeDefArray<PortableForm>> {
        let len = required(found.0)?;
        let type_param = required(found.1)?;
        Some(TypeDefArray::new(len, type_param))
    }
}

impl JsonText for TypeDefArray<PortableForm> {
    ghost meant = { MeansArray };

    fn from_token(token: Token<'_>, source: &mut TextSource<'_>, depth: usize) -> Reading<Self> {
        read_object::<(Member<u32>, FoundId), Self>(("len", "type"), token, source, depth)
    }
}

impl JsonText for TypeDefTuple<PortableForm> {
    ghost meant = { λ tree v. MeansList MeansId tree v.fields };

    fn from_token(token: Token<'_>, source: &mut TextSource<'_>, depth: usize) -> Reading<Self> {
        let fields: Option<Items<UntrackedSymbol<TypeId>>> = Items::from_token(
            token, source, depth,
        )?;
        match fields {
            Some(fields) => Ok(Some(TypeDefTuple::from(fields))),
            None => Ok(None),
        }
    }
}

impl JsonObject<FoundId> for TypeDefCompact<PortableForm> {
    ghost meant = { MeansCompact };

    ghost holds = { HoldsOne (codes "type") MeansId };

    ghost only_objects = { λ tree v m. m.object };

    fn finish(found: FoundId, _alloc: Global) -> Option<TypeDefCompact<PortableForm>> {
        Some(TypeDefCompact::new(required(found)?))
    }
}

impl JsonText for TypeDefCompact<PortableForm> {
    ghost meant = { MeansCompact };

    fn from_token(token: Token<'_>, source: &mut TextSource<'_>, depth: usize) -> Reading<Self> {
        read_object::<FoundId, Self>("type", token, source, depth)
    }
}

impl JsonObject<(FoundId, FoundId)> for TypeDefBitSequence<PortableForm> {
    ghost meant = { MeansBitSequence };

    ghost holds = { HoldsTwo (codes "bit_store_type") (codes "bit_order_type") MeansId MeansId };

    ghost only_objects = { λ tree v m. m.object };

    fn finish(
        found: (FoundId, FoundId),
        _alloc: Global,
    ) -> Option<TypeDefBitSequence<PortableForm>> {
        let store = required(found.0)?;
        let order = required(found.1)?;
        Some(TypeDefBitSequence::new_portable(store, order))
    }
}

impl JsonText for TypeDefBitSequence<PortableForm> {
    ghost meant = { MeansBitSequence };

    fn from_token(token: Token<'_>, source: &mut TextSource<'_>, depth: usize) -> Reading<Self> {
        read_object::<(FoundId, FoundId), Self>(
            ("bit_store_type", "bit_order_type"),
            token,
            source,
            depth,
        )
    }
}

impl JsonObject<(FoundId, FoundId)> for TypeDefMap<PortableForm> {
    ghost meant = { MeansMap };

    ghost holds = { HoldsTwo (codes "key") (codes "value") MeansId MeansId };

    ghost only_objects = { λ tree v m. m.object };

    fn finish(found: (FoundId, FoundId), _alloc: Global) -> Option<TypeDefMap<PortableForm>> {
        let key = required(found.0)?;
        let value = required(found.1)?;
        Some(TypeDefMap::new(key, value))
    }
}

impl JsonText for TypeDefMap<PortableForm> {
    ghost meant = { MeansMap };

    fn from_token(token: Token<'_>, source: &mut TextSource<'_>, depth: usize) -> Reading<Self> {
        read_object::<(FoundId, FoundId), Self>(("key", "value"), token, source, depth)
    }
}
