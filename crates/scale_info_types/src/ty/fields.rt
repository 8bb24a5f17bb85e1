//! Fields of composites and of variants.
ghost use Rattle.std.specs.Prelude.{◌≡◌};
ghost use Rattle.std.specs.Option.{option_copied};

use crate::form::{Form, MetaForm, copy_optional_string, copy_strings};
use scale_info_collections::items::Items;
use scale_info_collections::try_clone::TryClone;
use std::alloc::{AllocError, Global};

/// A field of a composite or of a variant.
#[derive(Drop)]
#[derive_where(PartialEq, Eq, PartialOrd, Ord)]
pub struct Field<T: Form = MetaForm> {
    /// The field's name; None in a tuple struct.
    pub name: Option<T::String>,
    /// The field's type.
    pub ty: T::Ty,
    /// The type's name as the source writes it, such as `Vec<T>`. It is for people to read: it may
    /// be an alias or name a parameter, and need not agree with `ty`.
    pub type_name: Option<T::String>,
    /// The lines of the field's documentation.
    pub docs: Items<T::String>,
}

impl<T: Form> Field<T> {
    /// The field with these parts.
    pub fn new(
        name: Option<T::String>,
        ty: T::Ty,
        type_name: Option<T::String>,
        docs: Vec<T::String>,
    ) -> Field<T>
        ensures { result
            ≡ record { name = name; ty = ty; type_name = type_name; docs = docs.items } }
    {
        Field {
            name,
            ty,
            type_name,
            docs: Items::from(docs),
        }
    }

    /// The name; None in a tuple struct.
    pub fn name(&self) -> Option<&T::String>
        ensures { option_copied result ≡ self.now.name }
    {
        self.name.as_ref()
    }

    /// The field's type.
    pub fn ty(&self) -> &T::Ty
        ensures { result.now ≡ self.now.ty }
    {
        &self.ty
    }

    /// The type's name as the source writes it, if it is known. It need not agree with `ty`.
    pub fn type_name(&self) -> Option<&T::String>
        ensures { option_copied result ≡ self.now.type_name }
    {
        self.type_name.as_ref()
    }

    /// The lines of documentation.
    pub fn docs(&self) -> &[T::String]
        ensures { result.now ≡ self.now.docs }
    {
        self.docs.as_slice()
    }
}

impl<T: Form> TryClone for Field<T> {
    fn try_clone(&self, alloc: Global) -> Result<Field<T>, AllocError> {
        Ok(Field {
            name: copy_optional_string::<T>(alloc, &self.name)?,
            ty: T::copy_type(alloc, &self.ty)?,
            type_name: copy_optional_string::<T>(alloc, &self.type_name)?,
            docs: copy_strings::<T>(alloc, &self.docs)?,
        })
    }
}
