//! The builder of one field.
ghost use Rattle.std.specs.Prelude.{◌≡◌, [], None, Some, IfOk};
ghost use Rattle.scale_info_types.specs.MetaDescriptions.{type_term};

use crate::form::{Form, MetaForm, PortableForm};
use crate::meta_type::MetaType;
use crate::ty::Field;
use scale_info_collections::items::Items;
use scale_info_identities::symbol::UntrackedSymbol;
use scale_info_identities::type_id::TypeId;
use scale_info_type_ids::identified::HasIdentity;
use std::alloc::{AllocError, Global};
use std::marker::PhantomData;

/// The state of a [`FieldBuilder`] that has no name yet.
#[derive(Drop)]
pub struct NameNotAssigned;

/// The state of a [`FieldBuilder`] that has a name.
#[derive(Drop)]
pub struct NameAssigned<S> {
    /// The name.
    pub name: S,
}

/// The state of a [`FieldBuilder`] that has no type yet.
#[derive(Drop)]
pub struct TypeNotAssigned;

/// The state of a [`FieldBuilder`] that has a type.
#[derive(Drop)]
pub struct TypeAssigned<T> {
    /// The type.
    pub ty: T,
}

/// A field in the making. It is a field once it has a type; a name may come before or after it.
///
/// ```text
/// FieldBuilder::new().name("x").type_name("u32").ty::<u32>(alloc)?.finalize(alloc)
/// ```
#[derive(Drop)]
pub struct FieldBuilder<F: Form, N, T> {
    /// The name, if the builder has one.
    pub name: N,
    /// The type, if the builder has one.
    pub ty: T,
    /// The type's name as the source writes it, if the builder has it.
    pub type_name: Option<F::String>,
    // The borrow checker does not cover a value whose form has types that no field names.
    form: PhantomData<F::Ty>,
}

impl<F: Form> Field<F> {
    /// A builder of a field, which has no part yet.
    pub fn builder() -> FieldBuilder<F, NameNotAssigned, TypeNotAssigned>
        ensures { result.type_name ≡ None }
    {
        FieldBuilder::new()
    }
}

impl<F: Form> FieldBuilder<F, NameNotAssigned, TypeNotAssigned> {
    /// A builder that has no part yet.
    pub fn new() -> FieldBuilder<F, NameNotAssigned, TypeNotAssigned>
        ensures { result.type_name ≡ None }
    {
        FieldBuilder {
            name: NameNotAssigned,
            ty: TypeNotAssigned,
            type_name: None,
            form: PhantomData,
        }
    }
}

impl<F: Form, T> FieldBuilder<F, NameNotAssigned, T> {
    /// Gives the field its name.
    pub fn name(self, name: F::String) -> FieldBuilder<F, NameAssigned<F::String>, T>
        ensures name { result.name.name ≡ name }
        ensures ty { result.ty ≡ self.ty }
        ensures type_name { result.type_name ≡ self.type_name }
    {
        let FieldBuilder {
            name: NameNotAssigned,
            ty,
            type_name,
            form,
        } = self;
        FieldBuilder {
            name: NameAssigned { name },
            ty,
            type_name,
            form,
        }
    }
}

impl<F: Form, N, T> FieldBuilder<F, N, T> {
    /// Gives the field the name of its type as the source writes it, in place of one that it was
    /// given before.
    pub fn type_name(self, type_name: F::String) -> FieldBuilder<F, N, T>
        ensures name { result.name ≡ self.name }
        ensures ty { result.ty ≡ self.ty }
        ensures type_name { result.type_name ≡ Some type_name }
    {
        FieldBuilder {
            name: self.name,
            ty: self.ty,
            type_name: Some(type_name),
            form: PhantomData,
        }
    }
}

impl<N: Drop> FieldBuilder<MetaForm, N, TypeNotAssigned> {
    /// Gives the field the type `T`, by its identity.
    ///
    /// Errors: `AllocError`, if an allocation failed.
    pub fn ty<T: HasIdentity>(
        self,
        alloc: Global,
    ) -> Result<FieldBuilder<MetaForm, N, TypeAssigned<MetaType>>, AllocError>
        ensures name { IfOk result (λ b. b.name ≡ self.entry.name) }
        ensures ty { IfOk result (λ b. type_term b.ty.ty ≡ T.Identity.own) }
        ensures type_name { IfOk result (λ b. b.type_name ≡ self.entry.type_name) }
    {
        Ok(FieldBuilder {
            name: self.name,
            ty: TypeAssigned {
                ty: MetaType::new::<T>(alloc)?,
            },
            type_name: self.type_name,
            form: PhantomData,
        })
    }
}

impl<N> FieldBuilder<PortableForm, N, TypeNotAssigned> {
    /// Gives the field the type with this id.
    pub fn ty(self, id: u32) -> FieldBuilder<PortableForm, N, TypeAssigned<UntrackedSymbol<TypeId>>>
        ensures name { result.name ≡ self.name }
        ensures ty { result.ty.ty.id ≡ id }
        ensures type_name { result.type_name ≡ self.type_name }
    {
        FieldBuilder {
            name: self.name,
            ty: TypeAssigned {
                ty: UntrackedSymbol::from(id),
            },
            type_name: self.type_name,
            form: PhantomData,
        }
    }
}

impl<F: Form> FieldBuilder<F, NameAssigned<F::String>, TypeAssigned<F::Ty>> {
    /// The field, with no docs. Does not allocate.
    pub fn finalize(self, alloc: Global) -> Field<F>
        ensures { result ≡ record {
          name = Some self.name.name;
          ty = self.ty.ty;
          type_name = self.type_name;
          docs = [];
        } }
    {
        Field {
            name: Some(self.name.name),
            ty: self.ty.ty,
            type_name: self.type_name,
            docs: Items::new(alloc),
        }
    }
}

impl<F: Form> FieldBuilder<F, NameNotAssigned, TypeAssigned<F::Ty>> {
    /// The field, with no name and no docs. Does not allocate.
    pub fn finalize(self, alloc: Global) -> Field<F>
        ensures { result ≡ record {
          name = None;
          ty = self.ty.ty;
          type_name = self.type_name;
          docs = [];
        } }
    {
        let FieldBuilder {
            name: NameNotAssigned,
            ty,
            type_name,
            form: _,
        } = self;
        Field {
            name: None,
            ty: ty.ty,
            type_name,
            docs: Items::new(alloc),
        }
    }
}
