//! Copies of borrowed descriptions that own their strings.
ghost use Rattle.scale_info_borrowed_form.specs.OwnedDescriptions as borrowed;
ghost use Rattle.std.specs.Prelude.{◌≡◌, IfOk};

use crate::form::BorrowedForm;
use scale_info_collections::items::Items;
use scale_info_collections::text::Text;
use scale_info_description_codec::form::IdForm;
use scale_info_description_codec::part::{Part, StringOf, TypeOf};
use scale_info_identities::symbol::UntrackedSymbol;
use scale_info_identities::type_id::TypeId;
use scale_info_types::form::PortableForm;
use scale_info_types::ty::path::Path;
use scale_info_types::ty::variant::Variant;
use scale_info_types::ty::{
    Field, Type, TypeDef, TypeDefArray, TypeDefBitSequence, TypeDefCompact, TypeDefComposite,
    TypeDefMap, TypeDefSequence, TypeDefTuple, TypeDefVariant, TypeParameter,
};
use std::alloc::{AllocError, Global};

/// A copy of the description that owns its strings, and so outlives the bytes.
///
/// Errors: `AllocError`, if an allocation failed.
pub fn owned_type(
    alloc: Global,
    ty: &Type<BorrowedForm<'_>>,
) -> Result<Type<PortableForm>, AllocError>
    ensures { IfOk result (λ copy. copy ≡ borrowed.owned_description ty.now) }
{
    Type::try_to_owned(alloc, ty)
}

/// A form whose types and strings are copied to ids and to strings that are owned.
pub(crate) trait OwnForm: IdForm {
    /// The id that a type is.
    fn owned_id(ty: &Self::Ty) -> UntrackedSymbol<TypeId>
        ensures { result ≡ Self.id_of ty.now };

    /// A copy of a string. Errors: `AllocError`, if an allocation failed.
    fn owned_text(alloc: Global, text: &Self::String) -> Result<Text, AllocError>
        ensures { IfOk result (λ copy. copy ≡ Self.text text.now) };
}

impl<'s> OwnForm for BorrowedForm<'s> {
    fn owned_id(ty: &UntrackedSymbol<TypeId>) -> UntrackedSymbol<TypeId>
        ensures { result ≡ ty.now }
    {
        UntrackedSymbol::from(ty.id)
    }

    fn owned_text(alloc: Global, text: &&'s str) -> Result<Text, AllocError>
        ensures { IfOk result (λ copy. copy ≡ text.now.now) }
    {
        Text::from_str(alloc, text)
    }
}

/// A part of a description that is copied to one which owns its strings.
pub(crate) trait TryToOwned<F: OwnForm>: Part<F> {
    /// A copy of a value that owns its strings. Errors: `AllocError`, if an allocation failed.
    fn try_to_owned(alloc: Global, value: &Self::Value) -> Result<Self::Portable, AllocError>
        ensures { IfOk result (λ copy. copy ≡ Self.portable F.id_of value.now) };
}

impl<F: OwnForm> TryToOwned<F> for TypeOf<F> {
    fn try_to_owned(_alloc: Global, ty: &F::Ty) -> Result<UntrackedSymbol<TypeId>, AllocError> {
        Ok(F::owned_id(ty))
    }
}

impl<F: OwnForm> TryToOwned<F> for StringOf<F> {
    fn try_to_owned(alloc: Global, text: &F::String) -> Result<Text, AllocError> {
        F::owned_text(alloc, text)
    }
}

impl<F: OwnForm, T: TryToOwned<F>> TryToOwned<F> for Option<T> {
    fn try_to_owned(
        alloc: Global,
        value: &Option<T::Value>,
    ) -> Result<Option<T::Portable>, AllocError> {
        match value {
            None => Ok(None),
            Some(value) => Ok(Some(T::try_to_owned(alloc, value)?)),
        }
    }
}

impl<F: OwnForm, T: TryToOwned<F>> TryToOwned<F> for Items<T> {
    fn try_to_owned(
        alloc: Global,
        items: &Items<T::Value>,
    ) -> Result<Items<T::Portable>, AllocError> {
        let mut copies = Items::with_capacity(alloc, items.len())?;
        for item in items.as_slice() {
            copies.push(T::try_to_owned(alloc, item)?)?;
        }
        Ok(copies)
    }
}

impl<F: OwnForm> TryToOwned<F> for Path<F> {
    fn try_to_owned(alloc: Global, path: &Path<F>) -> Result<Path<PortableForm>, AllocError> {
        let segments = Items::<StringOf<F>>::try_to_owned(alloc, &path.segments)?;
        Ok(Path::from(segments))
    }
}

impl<F: OwnForm> TryToOwned<F> for TypeParameter<F> {
    fn try_to_owned(
        alloc: Global,
        parameter: &TypeParameter<F>,
    ) -> Result<TypeParameter<PortableForm>, AllocError> {
        Ok(TypeParameter {
            name: F::owned_text(alloc, &parameter.name)?,
            ty: Option::<TypeOf<F>>::try_to_owned(alloc, &parameter.ty)?,
        })
    }
}

impl<F: OwnForm> TryToOwned<F> for Field<F> {
    fn try_to_owned(alloc: Global, field: &Field<F>) -> Result<Field<PortableForm>, AllocError> {
        Ok(Field {
            name: Option::<StringOf<F>>::try_to_owned(alloc, &field.name)?,
            ty: F::owned_id(&field.ty),
            type_name: Option::<StringOf<F>>::try_to_owned(alloc, &field.type_name)?,
            docs: Items::<StringOf<F>>::try_to_owned(alloc, &field.docs)?,
        })
    }
}

impl<F: OwnForm> TryToOwned<F> for Variant<F> {
    fn try_to_owned(
        alloc: Global,
        variant: &Variant<F>,
    ) -> Result<Variant<PortableForm>, AllocError> {
        Ok(Variant {
            name: F::owned_text(alloc, &variant.name)?,
            fields: Items::<Field<F>>::try_to_owned(alloc, &variant.fields)?,
            index: variant.index,
            docs: Items::<StringOf<F>>::try_to_owned(alloc, &variant.docs)?,
        })
    }
}

impl<F: OwnForm> TryToOwned<F> for TypeDef<F> {
    fn try_to_owned(alloc: Global, def: &TypeDef<F>) -> Result<TypeDef<PortableForm>, AllocError> {
        match def {
            TypeDef::Composite(def) => {
                let fields = Items::<Field<F>>::try_to_owned(alloc, &def.fields)?;
                Ok(TypeDef::Composite(TypeDefComposite { fields }))
            }
            TypeDef::Variant(def) => {
                let variants = Items::<Variant<F>>::try_to_owned(alloc, &def.variants)?;
                Ok(TypeDef::Variant(TypeDefVariant { variants }))
            }
            TypeDef::Sequence(def) => {
                let items = F::owned_id(&def.type_param);
                Ok(TypeDef::Sequence(TypeDefSequence::new(items)))
            }
            TypeDef::Array(def) => {
                let items = F::owned_id(&def.type_param);
                Ok(TypeDef::Array(TypeDefArray::new(def.len, items)))
            }
            TypeDef::Tuple(def) => {
                let members = Items::<TypeOf<F>>::try_to_owned(alloc, &def.fields)?;
                Ok(TypeDef::Tuple(TypeDefTuple::from(members)))
            }
            TypeDef::Primitive(primitive) => Ok(TypeDef::Primitive(*primitive)),
            TypeDef::Compact(def) => {
                let integer = F::owned_id(&def.type_param);
                Ok(TypeDef::Compact(TypeDefCompact::new(integer)))
            }
            TypeDef::BitSequence(def) => {
                let store = F::owned_id(&def.bit_store_type);
                let order = F::owned_id(&def.bit_order_type);
                Ok(TypeDef::BitSequence(TypeDefBitSequence::of_types(store, order)))
            }
            TypeDef::Map(def) => {
                let key = F::owned_id(&def.key);
                let value = F::owned_id(&def.value);
                Ok(TypeDef::Map(TypeDefMap::new(key, value)))
            }
        }
    }
}

impl<F: OwnForm> TryToOwned<F> for Type<F> {
    fn try_to_owned(alloc: Global, ty: &Type<F>) -> Result<Type<PortableForm>, AllocError> {
        Ok(Type {
            path: Path::try_to_owned(alloc, &ty.path)?,
            type_params: Items::<TypeParameter<F>>::try_to_owned(alloc, &ty.type_params)?,
            type_def: TypeDef::try_to_owned(alloc, &ty.type_def)?,
            docs: Items::<StringOf<F>>::try_to_owned(alloc, &ty.docs)?,
        })
    }
}
