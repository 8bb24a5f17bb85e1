//! Registrations of types by their names, values that hold a type, with ids in its place, and the
//! tables of both.
//!
//! A row has the names, and after ` after ` those of types that are registered before; after
//! ` under ` stand those that the catalogue describes, or `nothing`; they are all where the row has
//! no such part.
use crate::nested;
use scale_info::impls::meta_type;
use scale_info::meta_type::{Catalogue, CatalogueError, HasIdentity};
use scale_info::registry::RegisterError;
use scale_info::{
    Field, IntoPortable, MetaType, PortableRegistry, Registry, Scale, TypeDef, TypeDefArray,
    TypeDefBitSequence, TypeDefCompact, TypeDefComposite, TypeDefMap, TypeDefSequence,
    TypeDefTuple, TypeDefVariant, TypeId, TypeParameter, UntrackedSymbol, Variant,
};
use std::alloc::{AllocError, Global};
use std::test::Fail;
use test_common::held::Held;
use test_common::lists::{list_of, with};
use test_common::rows::parted;
use test_memory_common::answers::{Answer, digits, encoded, failed, printed};
use test_memory_common::by_name::{Known, for_known_type, found};
use test_memory_common::marked;
use test_memory_common::outcomes::Outcome;
use test_memory_common::types::{
    catalogue, catalogue_of, description_named, type_named, types_named,
};

/// A registry, and the catalogue by which types are added to it.
type Given = (Held<Registry>, Held<Catalogue>);

/// The names before a mark, and those after it, if there is one.
fn parts<'a>(row: &'a str, mark: &str) -> (&'a str, Option<&'a str>) {
    match row.split_once(mark) {
        Some((names, others)) => (names, Some(others)),
        None => (row, None),
    }
}

/// The registry of these types.
fn registry_of(alloc: Global, names: &str) -> Result<Registry, Fail> {
    let mut registry = Held(Registry::new(alloc));
    let known = Held(catalogue(alloc)?);
    let types = Held(types_named(alloc, names)?);
    registry.0.register_types(types.into_inner(), &known.0)?;
    Ok(registry.into_inner())
}

/// The catalogue of these types, or of all.
fn described(alloc: Global, names: Option<&str>) -> Result<Catalogue, CatalogueError> {
    match names {
        Some("nothing") => Ok(Catalogue::new(alloc)),
        Some(names) => catalogue_of(alloc, names),
        None => catalogue(alloc),
    }
}

/// What a row gives, and its names.
fn read<'a>(alloc: Global, row: &'a str) -> Result<(Given, &'a str), Fail> {
    let (row, under) = parts(row, " under ");
    let (names, after) = parts(row, " after ");
    let registry = Held(registry_of(alloc, after.unwrap_or(""))?);
    let known = Held(described(alloc, under)?);
    Ok(((registry, known), names))
}

/// The table of a registry, and whether each reference leads to a type.
fn state(alloc: Global, registry: &Registry) -> Result<String, AllocError> {
    let table = PortableRegistry::from_registry(alloc, registry)?;
    let digits = digits(alloc, &table)?;
    let mark = if table.is_closed() { "closed" } else { "open" };
    format!(in alloc; "{digits} {mark}")
}

/// The ids of types.
fn ids(alloc: Global, symbols: &[UntrackedSymbol<TypeId>]) -> Result<String, AllocError> {
    let mut text = String::new(alloc);
    for symbol in symbols {
        let id = symbol.id();
        text.push_str(format!(in alloc; "{id} ")?.as_str())?;
    }
    Ok(text)
}

/// The outcome of the ids of types.
fn listed(
    alloc: Global,
    returned: Result<Vec<UntrackedSymbol<TypeId>>, RegisterError>,
) -> Result<Answer, AllocError> {
    match returned {
        Ok(symbols) => printed(alloc, ids(alloc, &symbols)),
        Err(error) => failed(alloc, &error),
    }
}

/// The outcome of the id of a type.
fn single(
    alloc: Global,
    returned: Result<UntrackedSymbol<TypeId>, RegisterError>,
) -> Result<Answer, AllocError> {
    match returned {
        Ok(symbol) => printed(alloc, ids(alloc, &[symbol])),
        Err(error) => failed(alloc, &error),
    }
}

/// Makes a call between the marks on a registry under a catalogue, and shows what it returned.
macro_rules! registered {
    ($rt:expr, $given:expr; $registry:ident, $known:ident => $call:expr, $shown:ident) => {{
        let (mut $registry, $known) = $given;
        let before = state($rt.alloc(), &$registry.0);
        let returned = marked!($rt; $call);
        let after = state($rt.alloc(), &$registry.0);
        Outcome::lending(before, after, $shown($rt.alloc(), returned))
    }};
}

/// Registers types, which are handed over.
fn register_types(rt: &HostRuntime, given: Given, types: Vec<MetaType>) -> Result<Outcome, Fail> {
    registered!(rt, given; registry, known => registry.0.register_types(types, &known.0), listed)
}

/// Registers types, which stay where they are.
fn register_all(rt: &HostRuntime, given: Given, types: &[MetaType]) -> Result<Outcome, Fail> {
    registered!(rt, given; registry, known => registry.0.register_all(types, &known.0), listed)
}

/// Registers a type.
fn register_type(rt: &HostRuntime, given: Given, ty: &MetaType) -> Result<Outcome, Fail> {
    registered!(rt, given; registry, known => registry.0.register_type(ty, &known.0), single)
}

/// Registers the types of a row by the call of this name.
fn register(rt: &HostRuntime, call: &str, row: &str) -> Result<Outcome, Fail> {
    let (given, names) = read(rt.alloc(), row)?;
    match call {
        "register_types" => register_types(rt, given, types_named(rt.alloc(), names)?),
        "register_all" => { register_all(rt, given, &Held(types_named(rt.alloc(), names)?).0) }
        _ => register_type(rt, given, &Held(type_named(rt.alloc(), names)?).0),
    }
}

/// Registers 24 lists, each of which refers to the next type.
fn register_nested(rt: &HostRuntime) -> Result<Outcome, Fail> {
    let registry = Held(Registry::new(rt.alloc()));
    let known = Held(nested::catalogue(rt.alloc())?);
    register_types(rt, (registry, known), nested::outermost(rt.alloc())?)
}

/// Converts a value.
fn convert<T: IntoPortable + Drop>(
    rt: &HostRuntime,
    (mut registry, known): Given,
    value: Result<T, AllocError>,
) -> Result<Outcome, Fail>
where
    T::Output: Scale,
{
    let value = value?;
    let before = state(rt.alloc(), &registry.0);
    let returned = marked!(rt; value.into_portable(rt.alloc(), &mut registry.0, &known.0));
    let after = state(rt.alloc(), &registry.0);
    Outcome::lending(before, after, encoded(rt.alloc(), returned))
}

/// The field `a` of a type.
fn field(alloc: Global, ty: MetaType, type_name: Option<&'static str>) -> Field {
    Field::new(Some("a"), ty, type_name, Vec::new(alloc))
}

/// A variant of one field.
fn variant(alloc: Global, ty: MetaType) -> Result<Variant, AllocError> {
    let fields = list_of(alloc, Field::new(None, ty, None, Vec::new(alloc)))?;
    Ok(Variant::new("V", fields, 3, Vec::new(alloc)))
}

/// A composite of one field.
fn composite(alloc: Global, ty: MetaType) -> Result<TypeDefComposite, AllocError> {
    Ok(TypeDefComposite::from(list_of(alloc, field(alloc, ty, None))?))
}

/// An enum of one variant.
fn variants(alloc: Global, ty: MetaType) -> Result<TypeDefVariant, AllocError> {
    Ok(TypeDefVariant::from(list_of(alloc, variant(alloc, ty)?)?))
}

/// A tuple of `u8` and a type.
fn tuple(alloc: Global, ty: MetaType) -> Result<TypeDefTuple, AllocError> {
    let first = list_of(alloc, meta_type::<u8>(alloc)?);
    TypeDefTuple::new(alloc, with(first, Ok(ty))?)
}

/// A map from `u8` to a type.
fn map(alloc: Global, ty: MetaType) -> Result<TypeDefMap, AllocError> {
    Ok(TypeDefMap::new(meta_type::<u8>(alloc)?, ty))
}

/// Makes a sequence of bits in `u8`, in the order of a type with a name.
#[derive(Drop)]
struct BitsInOrder(Global);

impl Known for BitsInOrder {
    type Returned = Result<TypeDefBitSequence, Fail>;

    fn of<T: HasIdentity>(self) -> Result<TypeDefBitSequence, Fail> {
        Ok(TypeDefBitSequence::new::<u8, T>(self.0)?)
    }
}

/// Converts a value of this kind that holds a type, with `u8` before it where it holds two.
fn part(rt: &HostRuntime, given: Given, kind: &str, ty: MetaType) -> Result<Outcome, Fail> {
    let alloc = rt.alloc();
    match kind {
        "a text" => convert(rt, given, Ok("x")),
        "a type" => convert(rt, given, Ok(ty)),
        "a parameter" => convert(rt, given, Ok(TypeParameter::new("T", Some(ty)))),
        "a field" => convert(rt, given, Ok(field(alloc, ty, Some("A")))),
        "a variant" => convert(rt, given, variant(alloc, ty)),
        "a composite" => convert(rt, given, composite(alloc, ty)),
        "variants" => convert(rt, given, variants(alloc, ty)),
        "a definition" => { convert(rt, given, Ok(TypeDef::from(TypeDefSequence::new(ty)))) }
        "a sequence" => convert(rt, given, Ok(TypeDefSequence::new(ty))),
        "an array" => convert(rt, given, Ok(TypeDefArray::new(32, ty))),
        "a compact" => convert(rt, given, Ok(TypeDefCompact::new(ty))),
        "a tuple" => convert(rt, given, tuple(alloc, ty)),
        "a map" => convert(rt, given, map(alloc, ty)),
        _ => Err(Fail::new("no kind has this name")),
    }
}

/// Converts a value of the kind that a row begins with, which holds the type after the colon.
fn convert_value(rt: &HostRuntime, row: &str) -> Result<Outcome, Fail> {
    let (kind, row) = parted(row, ':')?;
    let (given, name) = read(rt.alloc(), row)?;
    let name = name.trim();
    match kind {
        "a description" => {
            let described = description_named(rt.alloc(), name)?;
            convert(rt, given, Ok(described))
        }
        "a bit sequence" => {
            let bits = BitsInOrder(rt.alloc());
            convert(rt, given, Ok(found(for_known_type(bits, name))?))
        }
        _ => {
            let ty = type_named(rt.alloc(), name)?;
            part(rt, given, kind, ty)
        }
    }
}

/// Makes the call of this name on a registry.
pub fn call(rt: &HostRuntime, name: &str, input: &str) -> Result<Outcome, Fail> {
    match name {
        "register_type" | "register_types" | "register_all" => register(rt, name, input),
        "register_nested" => register_nested(rt),
        "convert" => convert_value(rt, input),
        _ => Err(Fail::new("no call has this name")),
    }
}
