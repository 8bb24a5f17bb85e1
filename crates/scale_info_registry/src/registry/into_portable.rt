//! Values that leave the program with ids in place of types.
ghost use Rattle.std.specs.Prelude.{◌≡◌, ℕ, [], ◌∷◌, List, OnOk, OnErr, IfErr, IfOk};
ghost use Rattle.scale_info_identities.specs.TypeIds.{Term};
ghost use Rattle.scale_info_types.specs.References.{definition_references, references};
ghost use Rattle.scale_info_registry.specs.RegistryParts.{array_types, array_with_ids};
ghost use Rattle.scale_info_registry.specs.RegistryParts.{bit_sequence_types};
ghost use Rattle.scale_info_registry.specs.RegistryParts.{bit_sequence_with_ids, compact_types};
ghost use Rattle.scale_info_registry.specs.RegistryParts.{compact_with_ids, composite_types};
ghost use Rattle.scale_info_registry.specs.RegistryParts.{composite_with_ids};
ghost use Rattle.scale_info_registry.specs.RegistryParts.{definition_with_ids, enum_types};
ghost use Rattle.scale_info_registry.specs.RegistryParts.{enum_with_ids, field_types};
ghost use Rattle.scale_info_registry.specs.RegistryParts.{field_with_ids, map_types};
ghost use Rattle.scale_info_registry.specs.RegistryParts.{map_with_ids, parameter_types};
ghost use Rattle.scale_info_registry.specs.RegistryParts.{parameter_with_ids, path_types};
ghost use Rattle.scale_info_registry.specs.RegistryParts.{path_with_ids, sequence_types};
ghost use Rattle.scale_info_registry.specs.RegistryParts.{sequence_with_ids, tuple_types};
ghost use Rattle.scale_info_registry.specs.RegistryParts.{tuple_with_ids, type_with_ids};
ghost use Rattle.scale_info_registry.specs.RegistryParts.{variant_types, variant_with_ids};
ghost use Rattle.scale_info_catalogue.specs.CatalogueSystems.{catalogue_system};
ghost use Rattle.scale_info_types.specs.MetaDescriptions.{type_term};
ghost use Rattle.scale_info_catalogue.specs.Discoveries.{nodes_of, IsCause, roots_of};
ghost use Rattle.scale_info_registry.specs.Registrations.{Registered, IsRegistration, IsAsBefore};
ghost use Rattle.scale_info_registry.specs.Registrations.{Keeps, IsConverted, HasIds};

use super::Registry;
use super::conversion::TypePair;
use scale_info_catalogue::catalogue::Catalogue;
use scale_info_catalogue::discovery::RegisterError;
use scale_info_collections::text::Text;
use scale_info_identities::symbol::UntrackedSymbol;
use scale_info_identities::type_id::TypeId;
use scale_info_types::form::PortableForm;
use scale_info_types::meta_type::MetaType;
use scale_info_types::ty::path::Path;
use scale_info_types::ty::variant::Variant;
use scale_info_types::ty::{
    Field, Type, TypeDef, TypeDefArray, TypeDefBitSequence, TypeDefCompact, TypeDefComposite,
    TypeDefMap, TypeDefSequence, TypeDefTuple, TypeDefVariant, TypeParameter,
};
use std::alloc::Global;

/// A value that holds types, and has a portable form with ids in their place.
///
/// Any type may implement it, by calls of a registry for what it holds. An implementor states its
/// types, and when an output is the value with their ids, and owes the contract of `into_portable`.
pub trait IntoPortable {
    /// The portable form.
    type Output;

    /// The terms of the types that the value holds, in the order in which they are registered.
    ghost roots: { Self → List Term };

    /// Whether the output is the value with these ids in place of its types. There is one id for
    /// each root, in order.
    ghost replaced: { Self → List ℕ → Self.Output → Type 0 };

    /// What an Err leaves: the registry as it was, and as it may be then. It has what it had in any
    /// case. The implementors of this library leave it as it was, so `IsAsBefore`; one that makes
    /// several calls of a registry may say `Keeps`.
    ghost refused: { Registered → Registered → Type 0 };

    /// Registers the types that the value holds, and puts their ids in place of them.
    ///
    /// Errors: `Undescribed`, if a type that is new is reached and has no description in the
    /// catalogue; `Full`, if there would be more than 4294967295 identities; `Memory`, if an
    /// allocation failed. On an Err the registry has what it had, and perhaps more, as the
    /// implementor says.
    fn into_portable(
        self,
        alloc: Global,
        registry: &mut Registry,
        catalogue: &Catalogue,
    ) -> Result<Self::Output, RegisterError>
        ensures ok { OnOk result (IsRegistration (catalogue_system catalogue.now) registry.old
            (roots self) registry.new) }
        ensures output { IfOk result
            (λ output. IsConverted replaced (roots self) registry.new self output) }
        ensures err { OnErr result (Keeps registry.old registry.new) }
        ensures refused { OnErr result (refused registry.old registry.new) }
        ensures cause { IfErr result (IsCause (catalogue_system catalogue.now)
            (nodes_of registry.old.identities) (roots self)) };
}

/// A text has no types. Its portable form is a copy of it.
impl IntoPortable for &'static str {
    type Output = Text;

    ghost roots = { λ _. [] };

    ghost replaced = { λ text ids output. (ids ≡ []) × (output ≡ text.now) };

    ghost refused = { IsAsBefore };

    fn into_portable(
        self,
        alloc: Global,
        registry: &mut Registry,
        _catalogue: &Catalogue,
    ) -> Result<Text, RegisterError> {
        let _distinct = registry.identities.elements();
        Ok(Text::from(String::from_str(alloc, self)?))
    }
}

/// The portable form of a type is its id. The crate `scale-info` has no such implementation.
impl IntoPortable for MetaType {
    type Output = UntrackedSymbol<TypeId>;

    ghost roots = { λ ty. type_term ty ∷ [] };

    ghost replaced = { λ _ ids symbol. ids ≡ symbol.id ∷ [] };

    ghost refused = { IsAsBefore };

    fn into_portable(
        self,
        _alloc: Global,
        registry: &mut Registry,
        catalogue: &Catalogue,
    ) -> Result<UntrackedSymbol<TypeId>, RegisterError> {
        registry.register_type(&self, catalogue)
    }
}

impl IntoPortable for Type {
    type Output = Type<PortableForm>;

    ghost roots = { λ value. roots_of (references value) };

    ghost replaced = { HasIds references type_with_ids };

    ghost refused = { IsAsBefore };

    fn into_portable(
        self,
        alloc: Global,
        registry: &mut Registry,
        catalogue: &Catalogue,
    ) -> Result<Type<PortableForm>, RegisterError> {
        registry.convert_value(alloc, self, catalogue)
    }
}

impl IntoPortable for Path {
    type Output = Path<PortableForm>;

    ghost roots = { λ value. roots_of (path_types value) };

    ghost replaced = { HasIds path_types path_with_ids };

    ghost refused = { IsAsBefore };

    fn into_portable(
        self,
        alloc: Global,
        registry: &mut Registry,
        catalogue: &Catalogue,
    ) -> Result<Path<PortableForm>, RegisterError> {
        registry.convert_value(alloc, self, catalogue)
    }
}

impl IntoPortable for TypeParameter {
    type Output = TypeParameter<PortableForm>;

    ghost roots = { λ value. roots_of (parameter_types value) };

    ghost replaced = { HasIds parameter_types parameter_with_ids };

    ghost refused = { IsAsBefore };

    fn into_portable(
        self,
        alloc: Global,
        registry: &mut Registry,
        catalogue: &Catalogue,
    ) -> Result<TypeParameter<PortableForm>, RegisterError> {
        registry.convert_value(alloc, self, catalogue)
    }
}

impl IntoPortable for TypeDef {
    type Output = TypeDef<PortableForm>;

    ghost roots = { λ value. roots_of (definition_references value) };

    ghost replaced = { HasIds definition_references definition_with_ids };

    ghost refused = { IsAsBefore };

    fn into_portable(
        self,
        alloc: Global,
        registry: &mut Registry,
        catalogue: &Catalogue,
    ) -> Result<TypeDef<PortableForm>, RegisterError> {
        registry.convert_value(alloc, self, catalogue)
    }
}

impl IntoPortable for Field {
    type Output = Field<PortableForm>;

    ghost roots = { λ value. roots_of (field_types value) };

    ghost replaced = { HasIds field_types field_with_ids };

    ghost refused = { IsAsBefore };

    fn into_portable(
        self,
        alloc: Global,
        registry: &mut Registry,
        catalogue: &Catalogue,
    ) -> Result<Field<PortableForm>, RegisterError> {
        registry.convert_value(alloc, self, catalogue)
    }
}

impl IntoPortable for Variant {
    type Output = Variant<PortableForm>;

    ghost roots = { λ value. roots_of (variant_types value) };

    ghost replaced = { HasIds variant_types variant_with_ids };

    ghost refused = { IsAsBefore };

    fn into_portable(
        self,
        alloc: Global,
        registry: &mut Registry,
        catalogue: &Catalogue,
    ) -> Result<Variant<PortableForm>, RegisterError> {
        registry.convert_value(alloc, self, catalogue)
    }
}

impl IntoPortable for TypeDefComposite {
    type Output = TypeDefComposite<PortableForm>;

    ghost roots = { λ value. roots_of (composite_types value) };

    ghost replaced = { HasIds composite_types composite_with_ids };

    ghost refused = { IsAsBefore };

    fn into_portable(
        self,
        alloc: Global,
        registry: &mut Registry,
        catalogue: &Catalogue,
    ) -> Result<TypeDefComposite<PortableForm>, RegisterError> {
        registry.convert_value(alloc, self, catalogue)
    }
}

impl IntoPortable for TypeDefVariant {
    type Output = TypeDefVariant<PortableForm>;

    ghost roots = { λ value. roots_of (enum_types value) };

    ghost replaced = { HasIds enum_types enum_with_ids };

    ghost refused = { IsAsBefore };

    fn into_portable(
        self,
        alloc: Global,
        registry: &mut Registry,
        catalogue: &Catalogue,
    ) -> Result<TypeDefVariant<PortableForm>, RegisterError> {
        registry.convert_value(alloc, self, catalogue)
    }
}

impl IntoPortable for TypeDefSequence {
    type Output = TypeDefSequence<PortableForm>;

    ghost roots = { λ value. roots_of (sequence_types value) };

    ghost replaced = { HasIds sequence_types sequence_with_ids };

    ghost refused = { IsAsBefore };

    fn into_portable(
        self,
        alloc: Global,
        registry: &mut Registry,
        catalogue: &Catalogue,
    ) -> Result<TypeDefSequence<PortableForm>, RegisterError> {
        let id = self.type_param.into_portable(alloc, registry, catalogue)?;
        Ok(TypeDefSequence::new(id))
    }
}

impl IntoPortable for TypeDefArray {
    type Output = TypeDefArray<PortableForm>;

    ghost roots = { λ value. roots_of (array_types value) };

    ghost replaced = { HasIds array_types array_with_ids };

    ghost refused = { IsAsBefore };

    fn into_portable(
        self,
        alloc: Global,
        registry: &mut Registry,
        catalogue: &Catalogue,
    ) -> Result<TypeDefArray<PortableForm>, RegisterError> {
        let len = self.len;
        let id = self.type_param.into_portable(alloc, registry, catalogue)?;
        Ok(TypeDefArray::new(len, id))
    }
}

impl IntoPortable for TypeDefCompact {
    type Output = TypeDefCompact<PortableForm>;

    ghost roots = { λ value. roots_of (compact_types value) };

    ghost replaced = { HasIds compact_types compact_with_ids };

    ghost refused = { IsAsBefore };

    fn into_portable(
        self,
        alloc: Global,
        registry: &mut Registry,
        catalogue: &Catalogue,
    ) -> Result<TypeDefCompact<PortableForm>, RegisterError> {
        let id = self.type_param.into_portable(alloc, registry, catalogue)?;
        Ok(TypeDefCompact::new(id))
    }
}

impl IntoPortable for TypeDefTuple {
    type Output = TypeDefTuple<PortableForm>;

    ghost roots = { λ value. roots_of (tuple_types value) };

    ghost replaced = { HasIds tuple_types tuple_with_ids };

    ghost refused = { IsAsBefore };

    fn into_portable(
        self,
        alloc: Global,
        registry: &mut Registry,
        catalogue: &Catalogue,
    ) -> Result<TypeDefTuple<PortableForm>, RegisterError> {
        let ids = registry.convert_value(alloc, self.fields, catalogue)?;
        Ok(TypeDefTuple::from(ids))
    }
}

impl IntoPortable for TypeDefBitSequence {
    type Output = TypeDefBitSequence<PortableForm>;

    ghost roots = { λ value. roots_of (bit_sequence_types value) };

    ghost replaced = { HasIds bit_sequence_types bit_sequence_with_ids };

    ghost refused = { IsAsBefore };

    fn into_portable(
        self,
        alloc: Global,
        registry: &mut Registry,
        catalogue: &Catalogue,
    ) -> Result<TypeDefBitSequence<PortableForm>, RegisterError> {
        let pair = TypePair {
            first: self.bit_store_type,
            second: self.bit_order_type,
        };
        let ids = registry.convert_value(alloc, pair, catalogue)?;
        Ok(TypeDefBitSequence::new_portable(ids.first, ids.second))
    }
}

impl IntoPortable for TypeDefMap {
    type Output = TypeDefMap<PortableForm>;

    ghost roots = { λ value. roots_of (map_types value) };

    ghost replaced = { HasIds map_types map_with_ids };

    ghost refused = { IsAsBefore };

    fn into_portable(
        self,
        alloc: Global,
        registry: &mut Registry,
        catalogue: &Catalogue,
    ) -> Result<TypeDefMap<PortableForm>, RegisterError> {
        let pair = TypePair {
            first: self.key,
            second: self.value,
        };
        let ids = registry.convert_value(alloc, pair, catalogue)?;
        Ok(TypeDefMap::new(ids.first, ids.second))
    }
}
