//! Descriptions and their parts with ids in place of types.
ghost use Rattle.std.specs.Prelude.{◌≡◌, ◌∷◌, [], ℕ, List, IfOk, map, option_map};
ghost use Rattle.scale_info_references.specs.Conversions.{symbol};
ghost use Rattle.scale_info_references.specs.Gathered.{targets};
ghost use Rattle.scale_info_types.specs.MetaDescriptions.{type_term};
ghost use Rattle.scale_info_types.specs.References.{definition_references, references};
ghost use Rattle.scale_info_types.specs.declared.meta_type.MetaType.{MetaType};
ghost use Rattle.scale_info_registry.specs.RegistryParts.{composite_types, composite_with_ids};
ghost use Rattle.scale_info_registry.specs.RegistryParts.{definition_with_ids, enum_types};
ghost use Rattle.scale_info_registry.specs.RegistryParts.{enum_with_ids, field_types};
ghost use Rattle.scale_info_registry.specs.RegistryParts.{field_with_ids, list_with_ids};
ghost use Rattle.scale_info_registry.specs.RegistryParts.{parameter_types, parameter_with_ids};
ghost use Rattle.scale_info_registry.specs.RegistryParts.{path_types, path_with_ids};
ghost use Rattle.scale_info_registry.specs.RegistryParts.{type_with_ids, variant_types};
ghost use Rattle.scale_info_registry.specs.RegistryParts.{variant_with_ids};
ghost use Rattle.scale_info_catalogue.specs.Discoveries.{stacked};
ghost use Rattle.scale_info_registry.specs.Registrations.{index_in};

use scale_info_catalogue::discovery::number_of;
use scale_info_catalogue::number_cache::NumberCache;
use scale_info_collections::items::Items;
use scale_info_collections::text::Text;
use scale_info_identities::symbol::UntrackedSymbol;
use scale_info_identities::type_id::TypeId;
use scale_info_interner::interner::Interner;
use scale_info_references::references::{
    references_of, references_of_definition, references_of_fields, references_of_types,
    references_of_variants,
};
use scale_info_types::form::PortableForm;
use scale_info_types::meta_type::MetaType;
use scale_info_types::ty::path::Path;
use scale_info_types::ty::variant::Variant;
use scale_info_types::ty::{
    Field, Type, TypeDef, TypeDefArray, TypeDefBitSequence, TypeDefCompact, TypeDefComposite,
    TypeDefMap, TypeDefSequence, TypeDefTuple, TypeDefVariant, TypeParameter,
};
use std::alloc::{AllocError, Global};

/// The identities of a registry, which number the types of descriptions, with what saves searches.
#[derive(Clone, Copy)]
pub(crate) struct Identities<'a> {
    pub(crate) interner: &'a Interner<TypeId>,
    pub(crate) cache: &'a NumberCache,
}

impl<'a> Identities<'a> {
    /// The id of a type: the index of its identity.
    pub(crate) fn id(&self, ty: &MetaType) -> UntrackedSymbol<TypeId>
        ensures { result.id
            ≡ index_in ⟦<TypeId as PartialEq>⟧.eq self.now.interner.now ty.now.identity }
    {
        let ids = self.interner.elements();
        let number = number_of(self.interner, self.cache, ty.type_id());
        UntrackedSymbol::from(number.unwrap_or(ids.len() as u32))
    }
}

/// A copy of a string.
fn copy_of(alloc: Global, source: &&'static str) -> Result<Text, AllocError>
    ensures { IfOk result (λ copy. copy ≡ source.now.now) }
{
    Ok(Text::from(String::from_str(alloc, source)?))
}

/// A copy of a string that may be missing.
fn optional_copy(alloc: Global, source: &Option<&'static str>) -> Result<Option<Text>, AllocError>
    ensures { IfOk result (λ copy. copy ≡ option_map (λ text. text.now) source.now) }
{
    match source {
        None => Ok(None),
        Some(source) => Ok(Some(copy_of(alloc, source)?)),
    }
}

/// Copies of strings, in order.
fn copied_texts(alloc: Global, sources: &Items<&'static str>) -> Result<Items<Text>, AllocError>
    ensures { IfOk result (λ copies. copies ≡ map (λ text. text.now) sources.now) }
{
    let mut copies = Items::with_capacity(alloc, sources.len())?;
    for source in sources.as_slice() {
        copies.push(copy_of(alloc, source)?)?;
    }
    Ok(copies)
}

/// The parts with ids as their types, in order.
fn all_with_ids<P: HasTypes>(
    alloc: Global,
    ids: &Identities<'_>,
    parts: &Items<P>,
) -> Result<Items<P::Output>, AllocError>
    ensures { IfOk result (λ all. all ≡ map (P.with_ids
        (λ ty. index_in ⟦<TypeId as PartialEq>⟧.eq ids.now.interner.now ty.identity))
        parts.now) }
{
    let mut all = Items::with_capacity(alloc, parts.len())?;
    for part in parts.as_slice() {
        all.push(part.with_ids(alloc, ids)?)?;
    }
    Ok(all)
}

/// The list of one type.
pub(super) fn list_of_one<'a>(
    alloc: Global,
    ty: &'a MetaType,
) -> Result<Vec<&'a MetaType>, AllocError>
    ensures ok { IfOk result (λ types. stacked types.items ≡ type_term ty.now ∷ []) }
    ensures list { IfOk result (λ types. targets types.items ≡ ty.now ∷ []) }
{
    let mut types = Vec::new(alloc);
    types.push(ty)?;
    Ok(types)
}

/// A description or a part of one, whose types can be listed, and replaced by ids.
pub(crate) trait HasTypes: Sized {
    /// The portable form.
    type Output: Drop;

    /// The types, in order.
    ghost types: { Self → List MetaType };

    /// The value with the id of each type in place of it.
    ghost with_ids: { (MetaType → ℕ) → Self → Self.Output };

    /// The types, in order.
    fn types<'a>(&'a self, alloc: Global) -> Result<Vec<&'a MetaType>, AllocError>
        ensures { IfOk result (λ found. targets found.items ≡ types self.now) };

    /// The value with the id of each type in place of it, and copies of its strings.
    fn with_ids(&self, alloc: Global, ids: &Identities<'_>) -> Result<Self::Output, AllocError>
        ensures { IfOk result (λ output. output ≡ with_ids
            (λ ty. index_in ⟦<TypeId as PartialEq>⟧.eq ids.now.interner.now ty.identity)
            self.now) };
}

impl HasTypes for Type {
    type Output = Type<PortableForm>;

    ghost types = { references };

    ghost with_ids = { type_with_ids };

    fn types<'a>(&'a self, alloc: Global) -> Result<Vec<&'a MetaType>, AllocError> {
        references_of(alloc, self)
    }

    fn with_ids(
        &self,
        alloc: Global,
        ids: &Identities<'_>,
    ) -> Result<Type<PortableForm>, AllocError> {
        Ok(Type {
            path: self.path.with_ids(alloc, ids)?,
            type_params: all_with_ids(alloc, ids, &self.type_params)?,
            type_def: self.type_def.with_ids(alloc, ids)?,
            docs: copied_texts(alloc, &self.docs)?,
        })
    }
}

impl HasTypes for Path {
    type Output = Path<PortableForm>;

    ghost types = { path_types };

    ghost with_ids = { path_with_ids };

    fn types<'a>(&'a self, alloc: Global) -> Result<Vec<&'a MetaType>, AllocError> {
        Ok(Vec::new(alloc))
    }

    fn with_ids(
        &self,
        alloc: Global,
        _ids: &Identities<'_>,
    ) -> Result<Path<PortableForm>, AllocError> {
        Ok(Path::from(copied_texts(alloc, &self.segments)?))
    }
}

impl HasTypes for TypeParameter {
    type Output = TypeParameter<PortableForm>;

    ghost types = { parameter_types };

    ghost with_ids = { parameter_with_ids };

    fn types<'a>(&'a self, alloc: Global) -> Result<Vec<&'a MetaType>, AllocError> {
        match &self.ty {
            None => Ok(Vec::new(alloc)),
            Some(ty) => list_of_one(alloc, ty),
        }
    }

    fn with_ids(
        &self,
        alloc: Global,
        ids: &Identities<'_>,
    ) -> Result<TypeParameter<PortableForm>, AllocError> {
        Ok(TypeParameter {
            name: copy_of(alloc, &self.name)?,
            ty: match &self.ty {
                None => None,
                Some(ty) => Some(ids.id(ty)),
            },
        })
    }
}

impl HasTypes for TypeDef {
    type Output = TypeDef<PortableForm>;

    ghost types = { definition_references };

    ghost with_ids = { definition_with_ids };

    fn types<'a>(&'a self, alloc: Global) -> Result<Vec<&'a MetaType>, AllocError> {
        references_of_definition(alloc, self)
    }

    fn with_ids(
        &self,
        alloc: Global,
        ids: &Identities<'_>,
    ) -> Result<TypeDef<PortableForm>, AllocError> {
        match self {
            TypeDef::Composite(d) => Ok(TypeDef::Composite(d.with_ids(alloc, ids)?)),
            TypeDef::Variant(d) => Ok(TypeDef::Variant(d.with_ids(alloc, ids)?)),
            TypeDef::Sequence(d) => Ok(TypeDef::Sequence(TypeDefSequence::new(ids.id(
                &d.type_param,
            )))),
            TypeDef::Array(d) => Ok(TypeDef::Array(TypeDefArray::new(
                d.len,
                ids.id(&d.type_param),
            ))),
            TypeDef::Tuple(d) => Ok(TypeDef::Tuple(TypeDefTuple::from(
                d.fields.with_ids(alloc, ids)?,
            ))),
            TypeDef::Primitive(d) => Ok(TypeDef::Primitive(*d)),
            TypeDef::Compact(d) => Ok(TypeDef::Compact(TypeDefCompact::new(ids.id(&d.type_param)))),
            TypeDef::BitSequence(d) => Ok(TypeDef::BitSequence(TypeDefBitSequence::new_portable(
                ids.id(&d.bit_store_type),
                ids.id(&d.bit_order_type),
            ))),
            TypeDef::Map(d) => Ok(TypeDef::Map(TypeDefMap::new(ids.id(&d.key), ids.id(&d.value)))),
        }
    }
}

impl HasTypes for Field {
    type Output = Field<PortableForm>;

    ghost types = { field_types };

    ghost with_ids = { field_with_ids };

    fn types<'a>(&'a self, alloc: Global) -> Result<Vec<&'a MetaType>, AllocError> {
        list_of_one(alloc, &self.ty)
    }

    fn with_ids(
        &self,
        alloc: Global,
        ids: &Identities<'_>,
    ) -> Result<Field<PortableForm>, AllocError> {
        Ok(Field {
            name: optional_copy(alloc, &self.name)?,
            ty: ids.id(&self.ty),
            type_name: optional_copy(alloc, &self.type_name)?,
            docs: copied_texts(alloc, &self.docs)?,
        })
    }
}

impl HasTypes for Variant {
    type Output = Variant<PortableForm>;

    ghost types = { variant_types };

    ghost with_ids = { variant_with_ids };

    fn types<'a>(&'a self, alloc: Global) -> Result<Vec<&'a MetaType>, AllocError> {
        references_of_fields(alloc, self.fields.as_slice())
    }

    fn with_ids(
        &self,
        alloc: Global,
        ids: &Identities<'_>,
    ) -> Result<Variant<PortableForm>, AllocError> {
        Ok(Variant {
            name: copy_of(alloc, &self.name)?,
            fields: all_with_ids(alloc, ids, &self.fields)?,
            index: self.index,
            docs: copied_texts(alloc, &self.docs)?,
        })
    }
}

impl HasTypes for TypeDefComposite {
    type Output = TypeDefComposite<PortableForm>;

    ghost types = { composite_types };

    ghost with_ids = { composite_with_ids };

    fn types<'a>(&'a self, alloc: Global) -> Result<Vec<&'a MetaType>, AllocError> {
        references_of_fields(alloc, self.fields.as_slice())
    }

    fn with_ids(
        &self,
        alloc: Global,
        ids: &Identities<'_>,
    ) -> Result<TypeDefComposite<PortableForm>, AllocError> {
        Ok(TypeDefComposite {
            fields: all_with_ids(alloc, ids, &self.fields)?,
        })
    }
}

impl HasTypes for TypeDefVariant {
    type Output = TypeDefVariant<PortableForm>;

    ghost types = { enum_types };

    ghost with_ids = { enum_with_ids };

    fn types<'a>(&'a self, alloc: Global) -> Result<Vec<&'a MetaType>, AllocError> {
        references_of_variants(alloc, self.variants.as_slice())
    }

    fn with_ids(
        &self,
        alloc: Global,
        ids: &Identities<'_>,
    ) -> Result<TypeDefVariant<PortableForm>, AllocError> {
        Ok(TypeDefVariant {
            variants: all_with_ids(alloc, ids, &self.variants)?,
        })
    }
}

impl HasTypes for Items<MetaType> {
    type Output = Items<UntrackedSymbol<TypeId>>;

    ghost types = { λ types. types };

    ghost with_ids = { list_with_ids };

    fn types<'a>(&'a self, alloc: Global) -> Result<Vec<&'a MetaType>, AllocError> {
        references_of_types(alloc, self.as_slice())
    }

    fn with_ids(
        &self,
        alloc: Global,
        ids: &Identities<'_>,
    ) -> Result<Items<UntrackedSymbol<TypeId>>, AllocError> {
        let mut all = Items::with_capacity(alloc, self.len())?;
        for ty in self.as_slice() {
            all.push(ids.id(ty))?;
        }
        Ok(all)
    }
}

/// Two types.
#[derive(Drop)]
pub(super) struct TypePair {
    pub(super) first: MetaType,
    pub(super) second: MetaType,
}

/// The ids of two types.
#[derive(Drop)]
pub(super) struct IdPair {
    pub(super) first: UntrackedSymbol<TypeId>,
    pub(super) second: UntrackedSymbol<TypeId>,
}

impl HasTypes for TypePair {
    type Output = IdPair;

    ghost types = { λ pair. pair.first ∷ pair.second ∷ [] };

    ghost with_ids = { λ id_of pair.
        record { first = symbol (id_of pair.first); second = symbol (id_of pair.second) } };

    fn types<'a>(&'a self, alloc: Global) -> Result<Vec<&'a MetaType>, AllocError> {
        let mut types = Vec::new(alloc);
        types.push(&self.first)?;
        types.push(&self.second)?;
        Ok(types)
    }

    fn with_ids(&self, _alloc: Global, ids: &Identities<'_>) -> Result<IdPair, AllocError> {
        Ok(IdPair {
            first: ids.id(&self.first),
            second: ids.id(&self.second),
        })
    }
}
