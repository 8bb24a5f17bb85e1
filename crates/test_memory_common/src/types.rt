//! Types by their names, what they are described as, and a catalogue of them.
use crate::by_name::{Described, Known, Twenty, for_known_type, for_type, found};
use crate::described::described;
use crate::own::{Missing, Recursive};
use scale_info::impls::{Compact, meta_type};
use scale_info::meta_type::{Catalogue, CatalogueError, HasIdentity, Identified};
use scale_info::{
    Field, MetaType, Path, Type, TypeDef, TypeDefBitSequence, TypeDefComposite, TypeDefMap,
    TypeDefVariant, TypeId, TypeInfo, TypeParameter, Variant,
};
use std::alloc::{AllocError, Global};
use std::collections::{BTreeSet, VecDeque};
use std::marker::PhantomData;
use std::ops::{Range, RangeInclusive};
use std::test::Fail;
use std::time::Duration;
use test_common::held::Held;
use test_common::lists::{list_of, with};
use test_common::results::both;

/// A pair of `u32` and `bool`.
pub type Pair = (u32, bool);

/// Three types, of which one is an array.
pub type Triple = (u32, [u8; 32], bool);

/// A number, and a marker that the description leaves out.
pub type Marked = (u64, PhantomData<u8>);

/// An array that is longer than descriptions can say.
pub type TooLong = [u8; 4294967296];

/// A box in a box, whose identity is that of the inner box.
pub type Boxes = Box<Box<u8>>;

/// So many types that the cache of their numbers grows twice.
pub type Many = (
    Twenty,
    Vec<u32>,
    [u8; 32],
    [u32; 16],
    Pair,
    Triple,
    Option<Pair>,
    Compact<u32>,
    Range<u8>,
    RangeInclusive<u8>,
    Duration,
    String,
    Result<bool, String>,
    BTreeSet<String>,
    VecDeque<String>,
    Option<u8>,
    Option<u128>,
);

/// Makes the type of a name.
#[derive(Drop)]
struct MetaTypeOf(Global);

impl Known for MetaTypeOf {
    type Returned = Result<MetaType, Fail>;

    fn of<T: HasIdentity>(self) -> Result<MetaType, Fail> {
        Ok(meta_type::<T>(self.0)?)
    }
}

/// The type of this name. There is one of each kind of definition.
pub fn type_named(alloc: Global, name: &str) -> Result<MetaType, Fail> {
    found(for_known_type(MetaTypeOf(alloc), name))
}

/// The types of these names, in order, with ` | ` between two; none of an empty text.
pub fn types_named(alloc: Global, names: &str) -> Result<Vec<MetaType>, Fail> {
    let mut types = Held(Vec::new(alloc));
    for name in names.split(" | ") {
        if !name.is_empty() {
            types.0.push(type_named(alloc, name)?)?;
        }
    }
    Ok(types.into_inner())
}

/// Makes the identity that the type of a name is known by.
#[derive(Drop)]
struct IdentityOf(Global);

impl Known for IdentityOf {
    type Returned = Result<TypeId, AllocError>;

    fn of<T: HasIdentity>(self) -> Result<TypeId, AllocError> {
        T::Identity::type_id(self.0)
    }
}

/// Makes the description of a standard type with a name.
#[derive(Drop)]
struct DescriptionOf(Global);

impl Described for DescriptionOf {
    type Returned = Result<Type, Fail>;

    fn of<T: TypeInfo>(self) -> Result<Type, Fail> {
        Ok(T::type_info(self.0)?)
    }
}

/// What the type of this name is described as.
pub fn description_named(alloc: Global, name: &str) -> Result<Type, Fail> {
    match own_description(alloc, name)? {
        Some(description) => Ok(description),
        None => found(for_type(DescriptionOf(alloc), name)),
    }
}

/// What the program's own type of this name is described as; None of another type.
fn own_description(alloc: Global, name: &str) -> Result<Option<Type>, AllocError> {
    let description = match name {
        "Recursive" => recursive(alloc)?,
        "Bits" => bits(alloc)?,
        "Mapping" => mapping(alloc)?,
        "Referring" => composite_of_two::<u32, Missing>(alloc)?,
        "Wide" => wide(alloc)?,
        _ => return described(alloc, name),
    };
    Ok(Some(description))
}

/// A map from `u32` to `bool`.
pub fn map(alloc: Global) -> Result<TypeDefMap, AllocError> {
    let (key, value) = both(meta_type::<u32>(alloc), meta_type::<bool>(alloc))?;
    Ok(TypeDefMap::new(key, value))
}

/// What is described as a map from `u32` to `bool`.
fn mapping(alloc: Global) -> Result<Type, AllocError> {
    Ok(Type::from_def(alloc, map(alloc)?.into()))
}

/// A sequence of bits, stored as `u8`.
fn bits(alloc: Global) -> Result<Type, AllocError> {
    Ok(Type::from_def(alloc, TypeDefBitSequence::new::<u8, u32>(alloc)?.into()))
}

/// A field of this type, with nothing else.
pub fn unnamed_field<T: HasIdentity>(alloc: Global) -> Result<Field, AllocError> {
    let ty = meta_type::<T>(alloc)?;
    Ok(Field::new(None, ty, None, Vec::new(alloc)))
}

/// A composite of these fields.
fn composite(alloc: Global, fields: Vec<Field>) -> Type {
    Type::from_def(alloc, TypeDefComposite::from(fields).into())
}

/// A composite of two fields, of these types.
fn composite_of_two<T: HasIdentity, U: HasIdentity>(alloc: Global) -> Result<Type, AllocError> {
    let first = list_of(alloc, unnamed_field::<T>(alloc)?);
    Ok(composite(alloc, with(first, unnamed_field::<U>(alloc))?))
}

/// A composite of forty fields of `u32`.
fn wide(alloc: Global) -> Result<Type, AllocError> {
    let mut fields = Held(Vec::new(alloc));
    for _ in 0..40 {
        fields.0.push(unnamed_field::<u32>(alloc)?)?;
    }
    Ok(composite(alloc, fields.into_inner()))
}

/// A field with a name, a name of its type, and docs.
pub fn documented_field(alloc: Global) -> Result<Field, AllocError> {
    let docs = with(list_of(alloc, "f"), Ok("g"))?;
    let ty = meta_type::<Box<Recursive>>(alloc)?;
    Ok(Field::new(Some("value"), ty, Some("Box<Recursive>"), docs))
}

/// A variant with a field and docs.
pub fn documented_variant(alloc: Global) -> Result<Variant, AllocError> {
    let docs = list_of(alloc, "v")?;
    let fields = list_of(alloc, documented_field(alloc)?)?;
    Ok(Variant::new("Value", fields, 7, docs))
}

/// A parameter that is given `bool`.
pub fn given_parameter(alloc: Global) -> Result<TypeParameter, AllocError> {
    Ok(TypeParameter::new("T", Some(meta_type::<bool>(alloc)?)))
}

/// A skipped parameter, and one that is given `bool`.
pub fn parameters(alloc: Global) -> Result<Vec<TypeParameter>, AllocError> {
    let skipped = list_of(alloc, TypeParameter::new("S", None));
    with(skipped, given_parameter(alloc))
}

/// The path `demo::Recursive`.
pub fn demo_path(alloc: Global) -> Result<Path, AllocError> {
    Path::from_segments_unchecked(alloc, with(list_of(alloc, "demo"), Ok("Recursive"))?)
}

/// An enum of itself, with docs of the type, of a variant and of its field.
fn recursive(alloc: Global) -> Result<Type, AllocError> {
    let docs = with(list_of(alloc, "d"), Ok(""))?;
    let params = Held(parameters(alloc)?);
    let path = Held(demo_path(alloc)?);
    let variants = list_of(alloc, documented_variant(alloc)?)?;
    Type::new(
        alloc,
        path.into_inner(),
        params.into_inner(),
        TypeDef::from(TypeDefVariant::from(variants)),
        docs,
    )
}

/// The types that [`catalogue`] describes.
const ALL: &str = "\
bool | char | u8 | u16 | u32 | u64 | u128 | i8 | i16 | i32 | i64 | i128 | U256 | I256 | String \
| Vec<u32> | [u8; 32] | [u32; 16] | (u32, bool) | (u32, [u8; 32], bool) | (u64, PhantomData<u8>) \
| Option<(u32, bool)> | Compact<u32> | Range<u8> | Duration | Box<Box<u8>> | Recursive | Bits \
| Mapping | Referring | A | B | C | D | P | Wide | EnumOfItself | References | Documented \
| Fielded | Choice | NonZeroU8 | NonZeroU16 | NonZeroU32 | NonZeroU64 | NonZeroU128 | NonZeroI8 \
| NonZeroI16 | NonZeroI32 | tuple of 20 | RangeInclusive<u8> | Result<bool, String> \
| BTreeSet<String> | VecDeque<String> | Option<u8> | Option<u128> | Many";

/// Adds a standard type with a name.
#[derive(Drop)]
struct AddTo<'a> {
    known: &'a mut Catalogue,
}

impl Described for AddTo<'_> {
    type Returned = Result<bool, CatalogueError>;

    fn of<T: TypeInfo>(self) -> Result<bool, CatalogueError> {
        self.known.add::<T>()
    }
}

/// Adds what the program's own type of this name is described as.
fn add_own_type(
    alloc: Global,
    known: &mut Catalogue,
    name: &str,
    description: Type,
) -> Result<bool, CatalogueError> {
    match for_known_type(IdentityOf(alloc), name) {
        Some(id) => known.add_described(id?, description),
        None => Ok(false),
    }
}

/// Adds the type of this name; nothing, if no type has it.
fn add_named(alloc: Global, known: &mut Catalogue, name: &str) -> Result<bool, CatalogueError> {
    match own_description(alloc, name)? {
        Some(description) => add_own_type(alloc, known, name, description),
        None => for_type(AddTo { known }, name).unwrap_or(Ok(false)),
    }
}

/// Adds the types of these names, with ` | ` between two.
pub fn add_all(alloc: Global, known: &mut Catalogue, names: &str) -> Result<(), CatalogueError> {
    for name in names.split(" | ") {
        add_named(alloc, known, name)?;
    }
    Ok(())
}

/// The catalogue of the types of these names.
pub fn catalogue_of(alloc: Global, names: &str) -> Result<Catalogue, CatalogueError> {
    let mut known = Held(Catalogue::new(alloc));
    add_all(alloc, &mut known.0, names)?;
    Ok(known.into_inner())
}

/// The catalogue of all types here.
pub fn catalogue(alloc: Global) -> Result<Catalogue, CatalogueError> {
    catalogue_of(alloc, ALL)
}
