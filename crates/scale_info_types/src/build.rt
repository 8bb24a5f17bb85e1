//! Builders of descriptions. The type of a builder says which parts it still lacks, so what lacks a
//! part does not compile.
ghost use Rattle.std.specs.Prelude.{◌≡◌, [], IfOk};
ghost use Rattle.scale_info_types.specs.declared.ty.TypeDef.TheVariants as def;

use crate::form::{Form, MetaForm, PortableForm};
use crate::ty::path::Path;
use crate::ty::{Type, TypeDef, TypeDefComposite, TypeDefVariant, TypeParameter};
use scale_info_collections::items::Items;
use std::alloc::{AllocError, Global};

mod field;
mod phantom;
mod tuple;

pub use field::{FieldBuilder, NameAssigned, NameNotAssigned, TypeAssigned, TypeNotAssigned};
pub use phantom::IdentityForm;

/// The state of a [`TypeBuilder`] that has no path yet.
#[derive(Drop)]
pub struct PathNotAssigned;

/// The state of a [`TypeBuilder`] that has a path.
#[derive(Drop)]
pub struct PathAssigned<F: Form> {
    /// The path.
    pub path: Path<F>,
}

/// A description in the making. It is a description once it has a path and then a definition.
///
/// ```text
/// Type::builder(alloc)
///     .path(Path::new(alloc, "Point", "shapes")?)
///     .composite(Fields::named::<MetaForm>(alloc).field(alloc, |f| f.name("x").ty::<u32>(alloc))?)
/// ```
#[derive(Drop)]
pub struct TypeBuilder<F: Form, P> {
    /// The path, if the builder has one.
    pub path: P,
    /// The type's parameters, in order.
    pub type_params: Items<TypeParameter<F>>,
    /// The lines of the type's documentation.
    pub docs: Items<F::String>,
}

impl Type<MetaForm> {
    /// A builder of a description inside a program, which has no part yet.
    pub fn builder(alloc: Global) -> TypeBuilder<MetaForm, PathNotAssigned>
        ensures type_params { result.type_params ≡ [] }
        ensures docs { result.docs ≡ [] }
    {
        begun(alloc)
    }
}

impl Type<PortableForm> {
    /// A builder of a portable description, which has no part yet.
    pub fn builder_portable(alloc: Global) -> TypeBuilder<PortableForm, PathNotAssigned>
        ensures type_params { result.type_params ≡ [] }
        ensures docs { result.docs ≡ [] }
    {
        begun(alloc)
    }
}

/// A builder that has no part yet.
fn begun<F: Form>(alloc: Global) -> TypeBuilder<F, PathNotAssigned>
    ensures type_params { result.type_params ≡ [] }
    ensures docs { result.docs ≡ [] }
{
    TypeBuilder {
        path: PathNotAssigned,
        type_params: Items::new(alloc),
        docs: Items::new(alloc),
    }
}

impl<F: Form> TypeBuilder<F, PathNotAssigned> {
    /// Gives the description its path.
    pub fn path(self, path: Path<F>) -> TypeBuilder<F, PathAssigned<F>>
        ensures path { result.path.path ≡ path }
        ensures type_params { result.type_params ≡ self.type_params }
        ensures docs { result.docs ≡ self.docs }
    {
        let TypeBuilder {
            path: PathNotAssigned,
            type_params,
            docs,
        } = self;
        TypeBuilder {
            path: PathAssigned { path },
            type_params,
            docs,
        }
    }
}

impl<F: Form, P> TypeBuilder<F, P> {
    /// Gives the description these parameters, in place of any that it was given before.
    pub fn type_params(self, type_params: Vec<TypeParameter<F>>) -> TypeBuilder<F, P>
        ensures path { result.path ≡ self.path }
        ensures type_params { result.type_params ≡ type_params.items }
        ensures docs { result.docs ≡ self.docs }
    {
        TypeBuilder {
            path: self.path,
            type_params: Items::from(type_params),
            docs: self.docs,
        }
    }
}

impl<P: Drop> TypeBuilder<MetaForm, P> {
    /// Gives the description these lines of documentation, in place of any that it was given
    /// before. They are kept in every build.
    ///
    /// Errors: `AllocError`, if an allocation failed.
    pub fn docs(
        self,
        alloc: Global,
        docs: &[&'static str],
    ) -> Result<TypeBuilder<MetaForm, P>, AllocError>
        ensures path { IfOk result (λ b. b.path ≡ self.entry.path) }
        ensures type_params { IfOk result (λ b. b.type_params ≡ self.entry.type_params) }
        ensures docs { IfOk result (λ b. b.docs ≡ docs.now) }
    {
        let mut lines = Vec::with_capacity(alloc, docs.len())?;
        lines.extend_from_slice(docs)?;
        Ok(TypeBuilder {
            path: self.path,
            type_params: self.type_params,
            docs: Items::from(lines),
        })
    }
}

impl<F: Form> TypeBuilder<F, PathAssigned<F>> {
    /// The description of a struct with these fields, from a builder of fields.
    pub fn composite<C: Into<TypeDefComposite<F>>>(self, fields: C) -> Type<F>
        ensures path { result.path ≡ self.path.path }
        ensures type_params { result.type_params ≡ self.type_params }
        ensures type_def { (fields' : _) × C.converts fields fields'
            × (result.type_def ≡ def.Composite fields') }
        ensures docs { result.docs ≡ self.docs }
    {
        defined(self, TypeDef::Composite(fields.into()))
    }
}

impl TypeBuilder<MetaForm, PathAssigned<MetaForm>> {
    /// The description of an enum with these variants, from a builder of variants.
    pub fn variant<V: Into<TypeDefVariant>>(self, variants: V) -> Type
        ensures path { result.path ≡ self.entry.path.path }
        ensures type_params { result.type_params ≡ self.entry.type_params }
        ensures type_def { (variants' : _) × V.converts variants variants'
            × (result.type_def ≡ def.Variant variants') }
        ensures docs { result.docs ≡ self.entry.docs }
    {
        defined(self, TypeDef::Variant(variants.into()))
    }
}

/// The description with the builder's parts and this definition.
fn defined<F: Form>(builder: TypeBuilder<F, PathAssigned<F>>, type_def: TypeDef<F>) -> Type<F>
    ensures { result ≡ record {
      path = builder.path.path;
      type_params = builder.type_params;
      type_def = type_def;
      docs = builder.docs;
    } }
{
    Type {
        path: builder.path.path,
        type_params: builder.type_params,
        type_def,
        docs: builder.docs,
    }
}
