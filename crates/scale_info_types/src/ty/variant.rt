//! Enums and their variants.
ghost use Rattle.std.specs.Prelude.{◌≡◌, IfOk};
ghost use Rattle.std.specs.Iterator.{IsFinite};
ghost use Rattle.scale_info_types.specs.Iterators.{GivesAll};

use super::fields::Field;
use crate::form::{Form, MetaForm, copy_strings};
use scale_info_collections::items::Items;
use scale_info_collections::try_clone::TryClone;
use std::alloc::{AllocError, Global};

/// An enum: one of several variants, each with fields of its own.
#[derive(Drop)]
#[derive_where(PartialEq, Eq, PartialOrd, Ord)]
pub struct TypeDefVariant<T: Form = MetaForm> {
    /// The variants, in order of declaration.
    pub variants: Items<Variant<T>>,
}

impl<T: Form> TypeDefVariant<T> {
    /// The enum of these variants, in order.
    ///
    /// Errors: `AllocError`, if an allocation failed.
    pub fn new<I: IntoIterator<Item = Variant<T>>>(
        alloc: Global,
        variants: I,
    ) -> Result<TypeDefVariant<T>, AllocError>
        requires can { (it : I.IntoIter) → I.into_iter_gives variants it → I.IntoIter.can_next it }
        requires ends { (it : I.IntoIter) → I.into_iter_gives variants it
            → IsFinite (I.IntoIter.remaining it) }
        ensures { IfOk result
            (λ d. GivesAll I.into_iter_gives I.IntoIter.next_gives variants d.variants) }
    {
        Ok(TypeDefVariant {
            variants: Items::from_iter(alloc, variants)?,
        })
    }

    /// The variants, in order.
    pub fn variants(&self) -> &[Variant<T>]
        ensures { result.now ≡ self.now.variants }
    {
        self.variants.as_slice()
    }
}

impl<T: Form> From<Vec<Variant<T>>> for TypeDefVariant<T> {
    ghost from_gives = { λ variants d. d.variants ≡ variants.items };

    fn from(variants: Vec<Variant<T>>) -> TypeDefVariant<T> {
        TypeDefVariant {
            variants: Items::from(variants),
        }
    }
}

impl<T: Form> TryClone for TypeDefVariant<T> {
    fn try_clone(&self, alloc: Global) -> Result<TypeDefVariant<T>, AllocError> {
        Ok(TypeDefVariant {
            variants: self.variants.try_clone(alloc)?,
        })
    }
}

/// One variant of an enum, such as `Some(u8)` of `Option<u8>`.
#[derive(Drop)]
#[derive_where(PartialEq, Eq, PartialOrd, Ord)]
pub struct Variant<T: Form = MetaForm> {
    /// The variant's name.
    pub name: T::String,
    /// The variant's fields, in order of declaration.
    pub fields: Items<Field<T>>,
    /// The first byte of the variant's encoding, 0 to 255. `Some` has the index 1.
    pub index: u8,
    /// The lines of the variant's documentation.
    pub docs: Items<T::String>,
}

impl<T: Form> Variant<T> {
    /// The variant with these parts.
    pub fn new(
        name: T::String,
        fields: Vec<Field<T>>,
        index: u8,
        docs: Vec<T::String>,
    ) -> Variant<T>
        ensures { result
            ≡ record { name = name; fields = fields.items; index = index; docs = docs.items } }
    {
        Variant {
            name,
            fields: Items::from(fields),
            index,
            docs: Items::from(docs),
        }
    }

    /// The variant's name.
    pub fn name(&self) -> &T::String
        ensures { result.now ≡ self.now.name }
    {
        &self.name
    }

    /// The variant's fields, in order.
    pub fn fields(&self) -> &[Field<T>]
        ensures { result.now ≡ self.now.fields }
    {
        self.fields.as_slice()
    }

    /// The first byte of the variant's encoding.
    pub fn index(&self) -> u8
        ensures { result ≡ self.now.index }
    {
        self.index
    }

    /// The lines of documentation.
    pub fn docs(&self) -> &[T::String]
        ensures { result.now ≡ self.now.docs }
    {
        self.docs.as_slice()
    }
}

impl<T: Form> TryClone for Variant<T> {
    fn try_clone(&self, alloc: Global) -> Result<Variant<T>, AllocError> {
        Ok(Variant {
            name: T::copy_string(alloc, &self.name)?,
            fields: self.fields.try_clone(alloc)?,
            index: self.index,
            docs: copy_strings::<T>(alloc, &self.docs)?,
        })
    }
}
