//! Descriptions and entries of a table of a text, with parameters, fields and variants.
ghost use Rattle.std.specs.Prelude.{◌^◌, codes};
ghost use Rattle.scale_info_json_trees.specs.DefinitionTrees.{MeansTypeDef};
ghost use Rattle.scale_info_json_trees.specs.EntryTrees.{MeansDescription, MeansEntry};
ghost use Rattle.scale_info_json_trees.specs.Meaning.{MeansList, MeansNumber, MeansOrNull};
ghost use Rattle.scale_info_json_trees.specs.Meaning.{MeansText};
ghost use Rattle.scale_info_json_trees.specs.PartTrees.{MeansField, MeansId, MeansParameter};
ghost use Rattle.scale_info_json_trees.specs.PartTrees.{MeansVariant};
ghost use Rattle.scale_info_json_text.specs.Members.{HoldsBoth, HoldsTwo};

use crate::json_text::JsonText;
use crate::member::{Member, list_or_empty, required, value_or_none};
use crate::object::{JsonObject, read_object};
use crate::source::{Reading, TextSource};
use json::Token;
use scale_info_collections::items::Items;
use scale_info_collections::text::Text;
use scale_info_identities::symbol::UntrackedSymbol;
use scale_info_identities::type_id::TypeId;
use scale_info_types::form::PortableForm;
use scale_info_types::ty::fields::Field;
use scale_info_types::ty::path::Path;
use scale_info_types::ty::variant::Variant;
use scale_info_types::ty::{Description, PortableType, TypeDef, TypeParameter};
use std::alloc::Global;

/// What was read of a parameter: its name and its type.
type FoundParameter = (Member<Text>, Member<Option<UntrackedSymbol<TypeId>>>);

impl JsonObject<FoundParameter> for TypeParameter<PortableForm> {
    ghost meant = { MeansParameter };

    ghost holds = { HoldsTwo (codes "name") (codes "type") MeansText (MeansOrNull MeansId) };

    ghost only_objects = { λ tree v m. m.object };

    fn finish(found: FoundParameter, _alloc: Global) -> Option<TypeParameter<PortableForm>> {
        let name = required(found.0)?;
        let ty = value_or_none(found.1)?;
        Some(TypeParameter { name, ty })
    }
}

impl JsonText for TypeParameter<PortableForm> {
    ghost meant = { MeansParameter };

    fn from_token(token: Token<'_>, source: &mut TextSource<'_>, depth: usize) -> Reading<Self> {
        read_object::<FoundParameter, Self>(("name", "type"), token, source, depth)
    }
}

/// What was read of a field: its documentation and its name, its type and the type's name.
type FoundField = (
    (Member<Items<Text>>, Member<Option<Text>>),
    (Member<UntrackedSymbol<TypeId>>, Member<Option<Text>>),
);

/// The keys of a field.
const FIELD_KEYS: ((&str, &str), (&str, &str)) = (("docs", "name"), ("type", "typeName"));

impl JsonObject<FoundField> for Field<PortableForm> {
    ghost meant = { MeansField };

    ghost holds = { HoldsBoth
        (HoldsTwo (codes "docs") (codes "name") (MeansList MeansText) (MeansOrNull MeansText))
        (HoldsTwo (codes "type") (codes "typeName") MeansId (MeansOrNull MeansText)) };

    ghost only_objects = { λ tree v m. m.object };

    fn finish(found: FoundField, alloc: Global) -> Option<Field<PortableForm>> {
        let ((docs, name), (ty, type_name)) = found;
        let docs = list_or_empty(alloc, docs)?;
        let name = value_or_none(name)?;
        let ty = required(ty)?;
        let type_name = value_or_none(type_name)?;
        Some(Field {
            name,
            ty,
            type_name,
            docs,
        })
    }
}

impl JsonText for Field<PortableForm> {
    ghost meant = { MeansField };

    fn from_token(token: Token<'_>, source: &mut TextSource<'_>, depth: usize) -> Reading<Self> {
        read_object::<FoundField, Self>(FIELD_KEYS, token, source, depth)
    }
}

/// What was read of a variant: its name and its fields, its index and its documentation.
type FoundVariant = (
    (Member<Text>, Member<Items<Field<PortableForm>>>),
    (Member<u8>, Member<Items<Text>>),
);

/// The keys of a variant.
const VARIANT_KEYS: ((&str, &str), (&str, &str)) = (("name", "fields"), ("index", "docs"));

impl JsonObject<FoundVariant> for Variant<PortableForm> {
    ghost meant = { MeansVariant };

    ghost holds = { HoldsBoth
        (HoldsTwo (codes "name") (codes "fields") MeansText (MeansList MeansField))
        (HoldsTwo (codes "index") (codes "docs") (MeansNumber 256) (MeansList MeansText)) };

    ghost only_objects = { λ tree v m. m.object };

    fn finish(found: FoundVariant, alloc: Global) -> Option<Variant<PortableForm>> {
        let ((name, fields), (index, docs)) = found;
        let name = required(name)?;
        let fields = list_or_empty(alloc, fields)?;
        let index = required(index)?;
        let docs = list_or_empty(alloc, docs)?;
        Some(Variant {
            name,
            fields,
            index,
            docs,
        })
    }
}

impl JsonText for Variant<PortableForm> {
    ghost meant = { MeansVariant };

    fn from_token(token: Token<'_>, source: &mut TextSource<'_>, depth: usize) -> Reading<Self> {
        read_object::<FoundVariant, Self>(VARIANT_KEYS, token, source, depth)
    }
}

/// What was read of a description: its path and its parameters, its definition and its
/// documentation.
type FoundDescription = (
    (
        Member<Items<Text>>,
        Member<Items<TypeParameter<PortableForm>>>,
    ),
    (Member<TypeDef<PortableForm>>, Member<Items<Text>>),
);

/// The keys of a description.
const DESCRIPTION_KEYS: ((&str, &str), (&str, &str)) = (("path", "params"), ("def", "docs"));

impl JsonObject<FoundDescription> for Description<PortableForm> {
    ghost meant = { MeansDescription };

    ghost holds = { HoldsBoth
        (HoldsTwo (codes "path") (codes "params") (MeansList MeansText) (MeansList MeansParameter))
        (HoldsTwo (codes "def") (codes "docs") MeansTypeDef (MeansList MeansText)) };

    ghost only_objects = { λ tree v m. m.object };

    fn finish(found: FoundDescription, alloc: Global) -> Option<Description<PortableForm>> {
        let ((path, type_params), (type_def, docs)) = found;
        let segments = list_or_empty(alloc, path)?;
        let type_params = list_or_empty(alloc, type_params)?;
        let type_def = required(type_def)?;
        let docs = list_or_empty(alloc, docs)?;
        Some(Description {
            path: Path::from(segments),
            type_params,
            type_def,
            docs,
        })
    }
}

impl JsonText for Description<PortableForm> {
    ghost meant = { MeansDescription };

    fn from_token(token: Token<'_>, source: &mut TextSource<'_>, depth: usize) -> Reading<Self> {
        read_object::<FoundDescription, Self>(DESCRIPTION_KEYS, token, source, depth)
    }
}

/// What was read of an entry: its id and its type.
type FoundEntry = (Member<u32>, Member<Description<PortableForm>>);

impl JsonObject<FoundEntry> for PortableType {
    ghost meant = { MeansEntry };

    ghost holds = { HoldsTwo (codes "id") (codes "type") (MeansNumber (2 ^ 32)) MeansDescription };

    ghost only_objects = { λ tree v m. m.object };

    fn finish(found: FoundEntry, _alloc: Global) -> Option<PortableType> {
        let id = required(found.0)?;
        let ty = required(found.1)?;
        Some(PortableType { id, ty })
    }
}

impl JsonText for PortableType {
    ghost meant = { MeansEntry };

    fn from_token(token: Token<'_>, source: &mut TextSource<'_>, depth: usize) -> Reading<Self> {
        read_object::<FoundEntry, Self>(("id", "type"), token, source, depth)
    }
}
