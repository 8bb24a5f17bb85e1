//! Descriptions of types.
//!
//! A [`Type`] is a path, parameters, a definition and docs; a [`TypeDef`] is one of nine variants:
//! eight that the crate `scale-info` has, and maps.
ghost use Rattle.std.specs.Prelude.{◌≡◌, [], IfOk};
ghost use Rattle.std.specs.Iterator.{IsFinite};
ghost use Rattle.std.specs.Option.{option_copied};
ghost use Rattle.scale_info_types.specs.Iterators.{GivesAll};
ghost use Rattle.scale_info_types.specs.declared.ty.TypeDef.TheVariants as def;

use crate::form::{Form, MetaForm, PortableForm, copy_optional_type, copy_strings, copy_types};
use scale_info_collections::items::Items;
use scale_info_collections::marker::Marker;
use scale_info_collections::text::Text;
use scale_info_collections::try_clone::TryClone;
use scale_info_identities::symbol::UntrackedSymbol;
use scale_info_identities::type_id::TypeId;
use std::alloc::{AllocError, Global};

pub(crate) mod by_type;
pub mod composite;
pub mod fields;
pub mod path;
pub mod variant;

pub use composite::TypeDefComposite;
pub use fields::Field;
use path::Path;
pub use scale_info_primitives::primitive::TypeDefPrimitive;
pub use variant::TypeDefVariant;

/// A description of a type, in the form `T`.
///
/// It is declared under the name `Description` and offered as [`Type`].
#[derive(Drop)]
#[derive_where(PartialEq, Eq, PartialOrd, Ord)]
pub struct Description<T: Form = MetaForm> {
    /// Where the type is declared, and its name; empty for built-in types.
    pub path: Path<T>,
    /// The type's parameters, in order.
    pub type_params: Items<TypeParameter<T>>,
    /// What values of the type are made of.
    pub type_def: TypeDef<T>,
    /// The lines of the type's documentation.
    pub docs: Items<T::String>,
}

pub use Description as Type;

impl<T: Form> Description<T> {
    /// The description with these parts.
    ///
    /// Errors: `AllocError`, if an allocation failed.
    pub fn new<I: IntoIterator<Item = TypeParameter<T>>>(
        alloc: Global,
        path: Path<T>,
        type_params: I,
        type_def: TypeDef<T>,
        docs: Vec<T::String>,
    ) -> Result<Description<T>, AllocError>
        requires can { (it : I.IntoIter) → I.into_iter_gives type_params it
            → I.IntoIter.can_next it }
        requires ends { (it : I.IntoIter) → I.into_iter_gives type_params it
            → IsFinite (I.IntoIter.remaining it) }
        ensures path { IfOk result (λ d. d.path ≡ path) }
        ensures type_params { IfOk result
            (λ d. GivesAll I.into_iter_gives I.IntoIter.next_gives type_params d.type_params) }
        ensures type_def { IfOk result (λ d. d.type_def ≡ type_def) }
        ensures docs { IfOk result (λ d. d.docs ≡ docs.items) }
    {
        Ok(Description {
            path,
            type_params: Items::from_iter(alloc, type_params)?,
            type_def,
            docs: Items::from(docs),
        })
    }

    /// The description with this definition, and with empty path, parameters and docs.
    pub fn from_def(alloc: Global, type_def: TypeDef<T>) -> Description<T>
        ensures path { result.path.segments ≡ [] }
        ensures type_params { result.type_params ≡ [] }
        ensures type_def { result.type_def ≡ type_def }
        ensures docs { result.docs ≡ [] }
    {
        Description {
            path: Path::empty(alloc),
            type_params: Items::new(alloc),
            type_def,
            docs: Items::new(alloc),
        }
    }

    /// Where the type is declared, and its name.
    pub fn path(&self) -> &Path<T>
        ensures { result.now ≡ self.now.path }
    {
        &self.path
    }

    /// The type's parameters, in order.
    pub fn type_params(&self) -> &[TypeParameter<T>]
        ensures { result.now ≡ self.now.type_params }
    {
        self.type_params.as_slice()
    }

    /// What values of the type are made of.
    pub fn type_def(&self) -> &TypeDef<T>
        ensures { result.now ≡ self.now.type_def }
    {
        &self.type_def
    }

    /// The lines of documentation.
    pub fn docs(&self) -> &[T::String]
        ensures { result.now ≡ self.now.docs }
    {
        self.docs.as_slice()
    }
}

impl<T: Form> From<(Path<T>, Vec<TypeParameter<T>>, TypeDef<T>, Vec<T::String>)>
    for Description<T> {
    ghost from_gives = { λ parts d. d ≡ record {
      path = parts.0;
      type_params = parts.1.items;
      type_def = parts.2;
      docs = parts.3.items;
    } };

    fn from(parts: (Path<T>, Vec<TypeParameter<T>>, TypeDef<T>, Vec<T::String>)) -> Description<T> {
        let (path, type_params, type_def, docs) = parts;
        Self {
            path,
            type_params: Items::from(type_params),
            type_def,
            docs: Items::from(docs),
        }
    }
}

impl<T: Form> TryClone for Description<T> {
    fn try_clone(&self, alloc: Global) -> Result<Description<T>, AllocError> {
        Ok(Description {
            path: self.path.try_clone(alloc)?,
            type_params: self.type_params.try_clone(alloc)?,
            type_def: self.type_def.try_clone(alloc)?,
            docs: copy_strings::<T>(alloc, &self.docs)?,
        })
    }
}

/// A parameter of a type, and the type that it is given.
#[derive(Drop)]
#[derive_where(PartialEq, Eq, PartialOrd, Ord)]
pub struct TypeParameter<T: Form = MetaForm> {
    /// The parameter's name, such as `T`.
    pub name: T::String,
    /// The type that it is given; None if the parameter is skipped.
    pub ty: Option<T::Ty>,
}

impl<T: Form> TypeParameter<T> {
    /// The parameter with this name and type.
    pub fn new(name: T::String, ty: Option<T::Ty>) -> TypeParameter<T>
        ensures { result ≡ record { name = name; ty = ty } }
    {
        TypeParameter { name, ty }
    }

    /// The parameter's name.
    pub fn name(&self) -> &T::String
        ensures { result.now ≡ self.now.name }
    {
        &self.name
    }

    /// The type that it is given; None if the parameter is skipped.
    pub fn ty(&self) -> Option<&T::Ty>
        ensures { option_copied result ≡ self.now.ty }
    {
        self.ty.as_ref()
    }
}

impl TypeParameter<PortableForm> {
    /// The portable parameter with this name and type.
    pub fn new_portable(
        name: Text,
        ty: Option<UntrackedSymbol<TypeId>>,
    ) -> TypeParameter<PortableForm>
        ensures { result ≡ record { name = name; ty = ty } }
    {
        TypeParameter::new(name, ty)
    }
}

impl<T: Form> From<(T::String, Option<T::Ty>)> for TypeParameter<T> {
    ghost from_gives = { λ parts p. p ≡ record { name = parts.0; ty = parts.1 } };

    fn from(parts: (T::String, Option<T::Ty>)) -> TypeParameter<T> {
        let (name, ty) = parts;
        Self::new(name, ty)
    }
}

impl<T: Form> TryClone for TypeParameter<T> {
    fn try_clone(&self, alloc: Global) -> Result<TypeParameter<T>, AllocError> {
        Ok(TypeParameter {
            name: T::copy_string(alloc, &self.name)?,
            ty: copy_optional_type::<T>(alloc, &self.ty)?,
        })
    }
}

/// What values of a type are made of.
#[derive(Drop)]
#[derive_where(PartialEq, Eq, PartialOrd, Ord)]
pub enum TypeDef<T: Form = MetaForm> {
    /// A struct or a tuple struct.
    Composite(TypeDefComposite<T>),
    /// An enum.
    Variant(TypeDefVariant<T>),
    /// Any number of items of one type.
    Sequence(TypeDefSequence<T>),
    /// A fixed number of items of one type.
    Array(TypeDefArray<T>),
    /// Members of several types.
    Tuple(TypeDefTuple<T>),
    /// A built-in type.
    Primitive(TypeDefPrimitive),
    /// A number in the compact encoding.
    Compact(TypeDefCompact<T>),
    /// A sequence of bits.
    BitSequence(TypeDefBitSequence<T>),
    /// Values by keys.
    Map(TypeDefMap<T>),
}

impl<T: Form> From<TypeDefComposite<T>> for TypeDef<T> {
    ghost from_gives = { λ part d. d ≡ def.Composite part };

    fn from(def: TypeDefComposite<T>) -> TypeDef<T> {
        TypeDef::Composite(def)
    }
}

impl<T: Form> From<TypeDefVariant<T>> for TypeDef<T> {
    ghost from_gives = { λ part d. d ≡ def.Variant part };

    fn from(def: TypeDefVariant<T>) -> TypeDef<T> {
        TypeDef::Variant(def)
    }
}

impl<T: Form> From<TypeDefSequence<T>> for TypeDef<T> {
    ghost from_gives = { λ part d. d ≡ def.Sequence part };

    fn from(def: TypeDefSequence<T>) -> TypeDef<T> {
        TypeDef::Sequence(def)
    }
}

impl<T: Form> From<TypeDefArray<T>> for TypeDef<T> {
    ghost from_gives = { λ part d. d ≡ def.Array part };

    fn from(def: TypeDefArray<T>) -> TypeDef<T> {
        TypeDef::Array(def)
    }
}

impl<T: Form> From<TypeDefTuple<T>> for TypeDef<T> {
    ghost from_gives = { λ part d. d ≡ def.Tuple part };

    fn from(def: TypeDefTuple<T>) -> TypeDef<T> {
        TypeDef::Tuple(def)
    }
}

impl<T: Form> From<TypeDefPrimitive> for TypeDef<T> {
    ghost from_gives = { λ part d. d ≡ def.Primitive part };

    fn from(def: TypeDefPrimitive) -> TypeDef<T> {
        TypeDef::Primitive(def)
    }
}

impl<T: Form> From<TypeDefCompact<T>> for TypeDef<T> {
    ghost from_gives = { λ part d. d ≡ def.Compact part };

    fn from(def: TypeDefCompact<T>) -> TypeDef<T> {
        TypeDef::Compact(def)
    }
}

impl<T: Form> From<TypeDefBitSequence<T>> for TypeDef<T> {
    ghost from_gives = { λ part d. d ≡ def.BitSequence part };

    fn from(def: TypeDefBitSequence<T>) -> TypeDef<T> {
        TypeDef::BitSequence(def)
    }
}

impl<T: Form> From<TypeDefMap<T>> for TypeDef<T> {
    ghost from_gives = { λ part d. d ≡ def.Map part };

    fn from(def: TypeDefMap<T>) -> TypeDef<T> {
        TypeDef::Map(def)
    }
}

impl<T: Form> TryClone for TypeDef<T> {
    fn try_clone(&self, alloc: Global) -> Result<TypeDef<T>, AllocError> {
        match self {
            TypeDef::Composite(part) => Ok(TypeDef::Composite(part.try_clone(alloc)?)),
            TypeDef::Variant(part) => Ok(TypeDef::Variant(part.try_clone(alloc)?)),
            TypeDef::Sequence(part) => Ok(TypeDef::Sequence(part.try_clone(alloc)?)),
            TypeDef::Array(part) => Ok(TypeDef::Array(part.try_clone(alloc)?)),
            TypeDef::Tuple(part) => Ok(TypeDef::Tuple(part.try_clone(alloc)?)),
            TypeDef::Primitive(part) => Ok(TypeDef::Primitive(*part)),
            TypeDef::Compact(part) => Ok(TypeDef::Compact(part.try_clone(alloc)?)),
            TypeDef::BitSequence(part) => Ok(TypeDef::BitSequence(part.try_clone(alloc)?)),
            TypeDef::Map(part) => Ok(TypeDef::Map(part.try_clone(alloc)?)),
        }
    }
}

/// Any number of items of one type, as `Vec<u8>`, `[u8]` or `VecDeque<u8>` are.
#[derive(Drop)]
#[derive_where(PartialEq, Eq, PartialOrd, Ord)]
pub struct TypeDefSequence<T: Form = MetaForm> {
    /// The items' type.
    pub type_param: T::Ty,
    #[derive_where(skip(EqHashOrd))]
    form: Marker<T::String>,
}

impl<T: Form> TypeDefSequence<T> {
    /// The sequence of items of this type.
    pub fn new(type_param: T::Ty) -> TypeDefSequence<T>
        ensures { result.type_param ≡ type_param }
    {
        TypeDefSequence {
            type_param,
            form: Marker::new(),
        }
    }

    /// The items' type.
    pub fn type_param(&self) -> &T::Ty
        ensures { result.now ≡ self.now.type_param }
    {
        &self.type_param
    }
}

impl<T: Form> TryClone for TypeDefSequence<T> {
    fn try_clone(&self, alloc: Global) -> Result<TypeDefSequence<T>, AllocError> {
        let type_param = T::copy_type(alloc, &self.type_param)?;
        Ok(TypeDefSequence::new(type_param))
    }
}

/// A fixed number of items of one type, as `[u8; 32]` is.
#[derive(Drop)]
#[derive_where(PartialEq, Eq, PartialOrd, Ord)]
pub struct TypeDefArray<T: Form = MetaForm> {
    /// The number of items.
    pub len: u32,
    /// The items' type.
    pub type_param: T::Ty,
    #[derive_where(skip(EqHashOrd))]
    form: Marker<T::String>,
}

impl<T: Form> TypeDefArray<T> {
    /// The array of this many items of this type.
    pub fn new(len: u32, type_param: T::Ty) -> TypeDefArray<T>
        ensures len { result.len ≡ len }
        ensures type_param { result.type_param ≡ type_param }
    {
        TypeDefArray {
            len,
            type_param,
            form: Marker::new(),
        }
    }

    /// The number of items.
    pub fn len(&self) -> u32
        ensures { result ≡ self.now.len }
    {
        self.len
    }

    /// The items' type.
    pub fn type_param(&self) -> &T::Ty
        ensures { result.now ≡ self.now.type_param }
    {
        &self.type_param
    }
}

impl<T: Form> TryClone for TypeDefArray<T> {
    fn try_clone(&self, alloc: Global) -> Result<TypeDefArray<T>, AllocError> {
        let type_param = T::copy_type(alloc, &self.type_param)?;
        Ok(TypeDefArray::new(self.len, type_param))
    }
}

/// Members of several types, as `(u8, bool)` has.
#[derive(Drop)]
#[derive_where(PartialEq, Eq, PartialOrd, Ord)]
pub struct TypeDefTuple<T: Form = MetaForm> {
    /// The members' types, in order.
    pub fields: Items<T::Ty>,
    #[derive_where(skip(EqHashOrd))]
    form: Marker<T::String>,
}

impl<T: Form> TypeDefTuple<T> {
    /// The members' types, in order.
    pub fn fields(&self) -> &[T::Ty]
        ensures { result.now ≡ self.now.fields }
    {
        self.fields.as_slice()
    }
}

impl TypeDefTuple<PortableForm> {
    /// The tuple of members of these types, in order. None is dropped.
    ///
    /// Errors: `AllocError`, if an allocation failed.
    pub fn new_portable<I: IntoIterator<Item = UntrackedSymbol<TypeId>>>(
        alloc: Global,
        fields: I,
    ) -> Result<TypeDefTuple<PortableForm>, AllocError>
        requires can { (it : I.IntoIter) → I.into_iter_gives fields it → I.IntoIter.can_next it }
        requires ends { (it : I.IntoIter) → I.into_iter_gives fields it
            → IsFinite (I.IntoIter.remaining it) }
        ensures { IfOk result
            (λ d. GivesAll I.into_iter_gives I.IntoIter.next_gives fields d.fields) }
    {
        Ok(TypeDefTuple::from(Items::from_iter(alloc, fields)?))
    }
}

/// The tuple of members of these types, in order. None is dropped. Does not allocate.
impl<T: Form> From<Items<T::Ty>> for TypeDefTuple<T> {
    ghost from_gives = { λ fields tuple. tuple.fields ≡ fields };

    fn from(fields: Items<T::Ty>) -> TypeDefTuple<T> {
        TypeDefTuple {
            fields,
            form: Marker::new(),
        }
    }
}

impl<T: Form> TryClone for TypeDefTuple<T> {
    fn try_clone(&self, alloc: Global) -> Result<TypeDefTuple<T>, AllocError> {
        Ok(TypeDefTuple::from(copy_types::<T>(alloc, &self.fields)?))
    }
}

/// A number in the compact encoding, as `Compact<u32>` is: the smaller the number, the fewer its
/// bytes.
#[derive(Drop)]
#[derive_where(PartialEq, Eq, PartialOrd, Ord)]
pub struct TypeDefCompact<T: Form = MetaForm> {
    /// The number's type.
    pub type_param: T::Ty,
    #[derive_where(skip(EqHashOrd))]
    form: Marker<T::String>,
}

impl<T: Form> TypeDefCompact<T> {
    /// The compact integer of this type.
    pub fn new(type_param: T::Ty) -> TypeDefCompact<T>
        ensures { result.type_param ≡ type_param }
    {
        TypeDefCompact {
            type_param,
            form: Marker::new(),
        }
    }

    /// The number's type.
    pub fn type_param(&self) -> &T::Ty
        ensures { result.now ≡ self.now.type_param }
    {
        &self.type_param
    }
}

impl<T: Form> TryClone for TypeDefCompact<T> {
    fn try_clone(&self, alloc: Global) -> Result<TypeDefCompact<T>, AllocError> {
        let type_param = T::copy_type(alloc, &self.type_param)?;
        Ok(TypeDefCompact::new(type_param))
    }
}

/// A sequence of bits, as `BitVec<u8, Lsb0>` of the crate `bitvec` is.
///
/// The bits are packed into numbers of the store type, such as `u8`. The order type says which bit
/// of a number comes first: by convention a composite whose path ends in `Lsb0` (the lowest) or
/// `Msb0` (the highest).
#[derive(Drop)]
#[derive_where(PartialEq, Eq, PartialOrd, Ord)]
pub struct TypeDefBitSequence<T: Form = MetaForm> {
    /// The type of the numbers that keep the bits.
    pub bit_store_type: T::Ty,
    /// The type that names the order of the bits in such a number.
    pub bit_order_type: T::Ty,
    #[derive_where(skip(EqHashOrd))]
    form: Marker<T::String>,
}

impl<T: Form> TypeDefBitSequence<T> {
    /// The type of the numbers that keep the bits.
    pub fn bit_store_type(&self) -> &T::Ty
        ensures { result.now ≡ self.now.bit_store_type }
    {
        &self.bit_store_type
    }

    /// The type that names the order of the bits.
    pub fn bit_order_type(&self) -> &T::Ty
        ensures { result.now ≡ self.now.bit_order_type }
    {
        &self.bit_order_type
    }
}

impl<T: Form> TypeDefBitSequence<T> {
    /// The bit sequence with this store and order, in any form. The crate `scale-info` makes one in
    /// the forms that it has alone, by `new` and `new_portable`.
    pub fn of_types(bit_store_type: T::Ty, bit_order_type: T::Ty) -> TypeDefBitSequence<T>
        ensures store { result.bit_store_type ≡ bit_store_type }
        ensures order { result.bit_order_type ≡ bit_order_type }
    {
        TypeDefBitSequence {
            bit_store_type,
            bit_order_type,
            form: Marker::new(),
        }
    }
}

impl TypeDefBitSequence<PortableForm> {
    /// The bit sequence with this store and order.
    pub fn new_portable(
        bit_store_type: UntrackedSymbol<TypeId>,
        bit_order_type: UntrackedSymbol<TypeId>,
    ) -> TypeDefBitSequence<PortableForm>
        ensures store { result.bit_store_type ≡ bit_store_type }
        ensures order { result.bit_order_type ≡ bit_order_type }
    {
        TypeDefBitSequence::of_types(bit_store_type, bit_order_type)
    }
}

impl<T: Form> TryClone for TypeDefBitSequence<T> {
    fn try_clone(&self, alloc: Global) -> Result<TypeDefBitSequence<T>, AllocError> {
        let store = T::copy_type(alloc, &self.bit_store_type)?;
        let order = T::copy_type(alloc, &self.bit_order_type)?;
        Ok(TypeDefBitSequence::of_types(store, order))
    }
}

/// Values by keys: each key of one type has a value of another type.
///
/// The crate `scale-info` has no such definition, and describes a map such as `BTreeMap<K, V>` as a
/// composite.
#[derive(Drop)]
#[derive_where(PartialEq, Eq, PartialOrd, Ord)]
pub struct TypeDefMap<T: Form = MetaForm> {
    /// The keys' type.
    pub key: T::Ty,
    /// The values' type.
    pub value: T::Ty,
    #[derive_where(skip(EqHashOrd))]
    form: Marker<T::String>,
}

impl<T: Form> TypeDefMap<T> {
    /// The map from keys of the first type to values of the second.
    pub fn new(key: T::Ty, value: T::Ty) -> TypeDefMap<T>
        ensures key { result.key ≡ key }
        ensures value { result.value ≡ value }
    {
        TypeDefMap {
            key,
            value,
            form: Marker::new(),
        }
    }

    /// The keys' type.
    pub fn key(&self) -> &T::Ty
        ensures { result.now ≡ self.now.key }
    {
        &self.key
    }

    /// The values' type.
    pub fn value(&self) -> &T::Ty
        ensures { result.now ≡ self.now.value }
    {
        &self.value
    }
}

impl<T: Form> TryClone for TypeDefMap<T> {
    fn try_clone(&self, alloc: Global) -> Result<TypeDefMap<T>, AllocError> {
        let key = T::copy_type(alloc, &self.key)?;
        let value = T::copy_type(alloc, &self.value)?;
        Ok(TypeDefMap::new(key, value))
    }
}

/// A portable description with its id in a table.
#[derive(Drop, PartialEq, Eq)]
pub struct PortableType {
    /// The id as it was read or given. In a table that this library makes it is the index of the
    /// entry.
    ///
    /// In a table that was read it may be any number: a reference goes by the index of the entry,
    /// so don't look an entry up by this field.
    pub id: u32,
    /// The description.
    pub ty: Description<PortableForm>,
}

impl PortableType {
    /// The entry with this id and description.
    pub fn new(id: u32, ty: Description<PortableForm>) -> PortableType
        ensures { result ≡ record { id = id; ty = ty } }
    {
        PortableType { id, ty }
    }

    /// The id as it was read or given; see the field for what it is not.
    pub fn id(&self) -> u32
        ensures { result ≡ self.now.id }
    {
        self.id
    }

    /// The description.
    pub fn ty(&self) -> &Description<PortableForm>
        ensures { result.now ≡ self.now.ty }
    {
        &self.ty
    }
}

impl TryClone for PortableType {
    fn try_clone(&self, alloc: Global) -> Result<PortableType, AllocError> {
        Ok(PortableType {
            id: self.id,
            ty: self.ty.try_clone(alloc)?,
        })
    }
}
