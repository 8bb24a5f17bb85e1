//! The builder of the variants of an enum.
ghost use Rattle.std.specs.Prelude.{◌≡◌, ◌++◌, [], ◌∷◌, Ok, IfOk};
ghost use Rattle.scale_info_build.specs.BuiltFields.{variant_of};

use crate::fields::FieldsBuilder;
use scale_info_collections::items::Items;
use scale_info_types::build::IdentityForm;
use scale_info_types::form::{Form, MetaForm};
use scale_info_types::ty::variant::Variant;
use scale_info_types::ty::{Field, TypeDefVariant};
use std::alloc::{AllocError, Global};

/// The state of a [`VariantBuilder`] that has no index yet.
#[derive(Drop)]
pub struct IndexNotAssigned;

/// The state of a [`VariantBuilder`] that has an index.
#[derive(Drop)]
pub struct IndexAssigned {
    /// The index: the first byte of the variant's encoding.
    pub index: u8,
}

/// A variant in the making. It is a variant once it has an index.
#[derive(Drop)]
pub struct VariantBuilder<F: Form, I> {
    /// The variant's name.
    pub name: F::String,
    /// The index, if the builder has one.
    pub index: I,
    /// The variant's fields, in order.
    pub fields: Items<Field<F>>,
}

impl<F: Form> VariantBuilder<F, IndexNotAssigned> {
    /// Gives the variant its index, the first byte of its encoding. Nothing checks that variants of
    /// one enum have different indices.
    pub fn index(self, index: u8) -> VariantBuilder<F, IndexAssigned>
        ensures name { result.name ≡ self.name }
        ensures index { result.index.index ≡ index }
        ensures fields { result.fields ≡ self.fields }
    {
        let VariantBuilder {
            name,
            index: IndexNotAssigned,
            fields,
        } = self;
        VariantBuilder {
            name,
            index: IndexAssigned { index },
            fields,
        }
    }
}

impl<F: Form, I> VariantBuilder<F, I> {
    /// Gives the variant these fields, in place of any that it was given before.
    pub fn fields<K>(self, fields: FieldsBuilder<F, K>) -> VariantBuilder<F, I>
        ensures name { result.name ≡ self.name }
        ensures index { result.index ≡ self.index }
        ensures fields { result.fields ≡ fields.fields }
    {
        VariantBuilder {
            name: self.name,
            index: self.index,
            fields: fields.finalize(),
        }
    }
}

/// The variants of an enum in the making.
///
/// ```text
/// Variants::new(alloc)
///     .variant_unit(alloc, "None", 0)?
///     .variant(alloc, "Some", |v| {
///         let fields = Fields::unnamed::<MetaForm>(alloc);
///         Ok(v.index(1).fields(fields.field(alloc, |f| f.ty::<u8>(alloc))?))
///     })?
/// ```
#[derive(Drop)]
pub struct Variants<F: Form = MetaForm> {
    variants: Items<Variant<F>>,
}

impl Variants<MetaForm> {
    /// A builder without variants.
    pub fn new(alloc: Global) -> Variants<MetaForm>
        ensures { result.variants ≡ [] }
    {
        Variants {
            variants: Items::new(alloc),
        }
    }
}

impl<F: IdentityForm> Variants<F> {
    /// Puts the variant of this name that the closure makes at the end. It has no docs.
    ///
    /// Errors: `AllocError`, if the closure returns it, or if an allocation failed.
    pub fn variant<
        B: FnOnce(
            VariantBuilder<F, IndexNotAssigned>,
        ) -> Result<VariantBuilder<F, IndexAssigned>, AllocError>,
    >(self, alloc: Global, name: F::String, build: B) -> Result<Variants<F>, AllocError>
        requires { B.IsAlwaysCallable build }
        ensures { IfOk result (λ after. (fresh : _) × (fresh.name ≡ name) × (fresh.fields ≡ [])
            × (built : _) × B.post build fresh (Ok built)
            × (after.variants ≡ self.variants ++ variant_of built ∷ [])) }
    {
        let built = build(VariantBuilder {
            name,
            index: IndexNotAssigned,
            fields: Items::new(alloc),
        })?;
        let mut variants = self.variants;
        variants.push(Variant {
            name: built.name,
            fields: built.fields,
            index: built.index.index,
            docs: Items::new(alloc),
        })?;
        Ok(Variants { variants })
    }

    /// Puts the variant of this name and index at the end. It has no fields and no docs.
    ///
    /// Errors: `AllocError`, if an allocation failed.
    pub fn variant_unit(
        self,
        alloc: Global,
        name: F::String,
        index: u8,
    ) -> Result<Variants<F>, AllocError>
        ensures { IfOk result (λ after. after.variants ≡ self.variants ++ record {
          name = name;
          fields = [];
          index = index;
          docs = [];
        } ∷ []) }
    {
        let mut variants = self.variants;
        variants.push(Variant {
            name,
            fields: Items::new(alloc),
            index,
            docs: Items::new(alloc),
        })?;
        Ok(Variants { variants })
    }
}

impl<F: Form> From<Variants<F>> for TypeDefVariant<F> {
    ghost from_gives = { λ builder d. d.variants ≡ builder.variants };

    fn from(builder: Variants<F>) -> TypeDefVariant<F> {
        TypeDefVariant {
            variants: builder.variants,
        }
    }
}
