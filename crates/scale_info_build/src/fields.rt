//! The builder of the fields of a struct or of a variant.
ghost use Rattle.std.specs.Prelude.{◌≡◌, ◌++◌, [], ◌∷◌, None, Ok, IfOk};
ghost use Rattle.scale_info_build.specs.BuiltFields.{named_field, unnamed_field};
ghost use Rattle.scale_info_types.specs.Phantoms.{with_field};

use scale_info_collections::items::Items;
use scale_info_types::build::{
    FieldBuilder, IdentityForm, NameAssigned, NameNotAssigned, TypeAssigned, TypeNotAssigned,
};
use scale_info_types::form::{Form, PortableForm};
use scale_info_types::ty::{Field, TypeDefComposite};
use std::alloc::{AllocError, Global};
use std::marker::PhantomData;

/// A field builder that has no part yet.
pub type NewField<F> = FieldBuilder<F, NameNotAssigned, TypeNotAssigned>;

/// A field builder that has a name and a type.
pub type NamedField<F> = FieldBuilder<
    F,
    NameAssigned<<F as Form>::String>,
    TypeAssigned<<F as Form>::Ty>,
>;

/// A field builder that has a type and no name.
pub type UnnamedField<F> = FieldBuilder<F, NameNotAssigned, TypeAssigned<<F as Form>::Ty>>;

/// A form whose types are ids: [`PortableForm`] alone. It marks which builders have
/// `field_portable`, which is written for each such form as `field` is for others.
pub trait IdForm: Form {}

impl IdForm for PortableForm {}

/// The kind of a [`FieldsBuilder`] that takes no fields, as of a unit struct.
#[derive(Drop)]
pub struct NoFields;

/// The kind of a [`FieldsBuilder`] whose fields each have a name.
#[derive(Drop)]
pub struct NamedFields;

/// The kind of a [`FieldsBuilder`] whose fields have no names, as of a tuple struct.
#[derive(Drop)]
pub struct UnnamedFields;

/// The fields of a struct or of a variant in the making. The kind `K` says which fields it takes.
///
/// ```text
/// Fields::named::<MetaForm>(alloc)
///     .field(alloc, |f| f.name("x").type_name("u32").ty::<u32>(alloc))?
///     .field(alloc, |f| Ok(f.ty::<bool>(alloc)?.name("visible")))?
/// ```
#[derive(Drop)]
pub struct FieldsBuilder<F: Form, K> {
    fields: Items<Field<F>>,
    kind: PhantomData<K>,
}

/// Where lists of fields begin: with names, without, or with no field at all.
pub enum Fields {}

impl Fields {
    /// The fields of a struct, each with a name.
    pub fn named<F: Form>(alloc: Global) -> FieldsBuilder<F, NamedFields>
        ensures { result.fields ≡ [] }
    {
        with_fields(Items::new(alloc))
    }

    /// The fields of a tuple struct, each without a name.
    pub fn unnamed<F: Form>(alloc: Global) -> FieldsBuilder<F, UnnamedFields>
        ensures { result.fields ≡ [] }
    {
        with_fields(Items::new(alloc))
    }

    /// No fields, as a unit struct has.
    pub fn unit<F: Form>(alloc: Global) -> FieldsBuilder<F, NoFields>
        ensures { result.fields ≡ [] }
    {
        with_fields(Items::new(alloc))
    }
}

/// The builder with these fields.
fn with_fields<F: Form, K>(fields: Items<Field<F>>) -> FieldsBuilder<F, K>
    ensures { result.fields ≡ fields }
{
    FieldsBuilder {
        fields,
        kind: PhantomData,
    }
}

impl<F: IdentityForm> FieldsBuilder<F, NamedFields> {
    /// Puts the field that the closure makes at the end. A field whose type's identity is
    /// `PhantomData<()>`, as that of `PhantomData<T>` is for every `T`, is left out.
    ///
    /// Errors: `AllocError`, if the closure returns it, or if an allocation failed.
    pub fn field<B: FnOnce(NewField<F>) -> Result<NamedField<F>, AllocError>>(
        self,
        alloc: Global,
        build: B,
    ) -> Result<FieldsBuilder<F, NamedFields>, AllocError>
        requires { B.IsAlwaysCallable build }
        ensures { IfOk result (λ after. (fresh : _) × (fresh.type_name ≡ None)
            × (built : _) × B.post build fresh (Ok built)
            × (after.fields ≡ with_field F.identity self.fields (named_field built))) }
    {
        let named = build(FieldBuilder::new())?.finalize(alloc);
        Ok(with_fields(kept(self.fields, named)?))
    }
}

impl<F: IdentityForm> FieldsBuilder<F, UnnamedFields> {
    /// Puts the field that the closure makes at the end. A field whose type's identity is
    /// `PhantomData<()>`, as that of `PhantomData<T>` is for every `T`, is left out.
    ///
    /// Errors: `AllocError`, if the closure returns it, or if an allocation failed.
    pub fn field<B: FnOnce(NewField<F>) -> Result<UnnamedField<F>, AllocError>>(
        self,
        alloc: Global,
        build: B,
    ) -> Result<FieldsBuilder<F, UnnamedFields>, AllocError>
        requires { B.IsAlwaysCallable build }
        ensures { IfOk result (λ after. (fresh : _) × (fresh.type_name ≡ None)
            × (built : _) × B.post build fresh (Ok built)
            × (after.fields ≡ with_field F.identity self.fields (unnamed_field built))) }
    {
        let unnamed = build(FieldBuilder::new())?.finalize(alloc);
        Ok(with_fields(kept(self.fields, unnamed)?))
    }
}

/// The fields with one more at the end, unless its type is left out of descriptions.
fn kept<F: IdentityForm>(
    mut fields: Items<Field<F>>,
    field: Field<F>,
) -> Result<Items<Field<F>>, AllocError>
    ensures { IfOk result (λ all. all ≡ with_field F.identity fields field) }
{
    if !F::is_phantom(&field.ty) {
        fields.push(field)?;
    }
    Ok(fields)
}

impl<F: IdForm> FieldsBuilder<F, NamedFields> {
    /// Puts the field that the closure makes at the end, whatever its type.
    ///
    /// Errors: `AllocError`, if the closure returns it, or if an allocation failed.
    pub fn field_portable<B: FnOnce(NewField<F>) -> Result<NamedField<F>, AllocError>>(
        self,
        alloc: Global,
        build: B,
    ) -> Result<FieldsBuilder<F, NamedFields>, AllocError>
        requires { B.IsAlwaysCallable build }
        ensures { IfOk result (λ after. (fresh : _) × (fresh.type_name ≡ None)
            × (built : _) × B.post build fresh (Ok built)
            × (after.fields ≡ self.fields ++ named_field built ∷ [])) }
    {
        let named = build(FieldBuilder::new())?.finalize(alloc);
        let mut fields = self.fields;
        fields.push(named)?;
        Ok(with_fields(fields))
    }
}

impl<F: IdForm> FieldsBuilder<F, UnnamedFields> {
    /// Puts the field that the closure makes at the end, whatever its type.
    ///
    /// Errors: `AllocError`, if the closure returns it, or if an allocation failed.
    pub fn field_portable<B: FnOnce(NewField<F>) -> Result<UnnamedField<F>, AllocError>>(
        self,
        alloc: Global,
        build: B,
    ) -> Result<FieldsBuilder<F, UnnamedFields>, AllocError>
        requires { B.IsAlwaysCallable build }
        ensures { IfOk result (λ after. (fresh : _) × (fresh.type_name ≡ None)
            × (built : _) × B.post build fresh (Ok built)
            × (after.fields ≡ self.fields ++ unnamed_field built ∷ [])) }
    {
        let unnamed = build(FieldBuilder::new())?.finalize(alloc);
        let mut fields = self.fields;
        fields.push(unnamed)?;
        Ok(with_fields(fields))
    }
}

impl<F: Form, K> From<FieldsBuilder<F, K>> for TypeDefComposite<F> {
    ghost from_gives = { λ builder d. d.fields ≡ builder.fields };

    fn from(builder: FieldsBuilder<F, K>) -> TypeDefComposite<F> {
        TypeDefComposite {
            fields: builder.fields,
        }
    }
}

impl<F: Form, K> FieldsBuilder<F, K> {
    /// The fields, in order. Does not allocate.
    pub fn finalize(self) -> Items<Field<F>>
        ensures { result ≡ self.fields }
    {
        self.fields
    }
}
