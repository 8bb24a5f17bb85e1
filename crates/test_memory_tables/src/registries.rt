//! Registries that begin with `u8`: what is registered after it under the catalogue of all types,
//! what is converted, and what is made of them.
use scale_info::meta_type::Catalogue;
use scale_info::registry::RegisterError;
use scale_info::{
    Field, IntoPortable, Items, MetaType, PortableRegistry, Registry, Scale, tuple_meta_type,
};
use std::alloc::{AllocError, Global};
use std::test::Fail;
use test_common::held::Held;
use test_common::lists::{list_of, with};
use test_memory_common::answers::{digits, done, encoded};
use test_memory_common::marked;
use test_memory_common::marks::{begin, end};
use test_memory_common::outcomes::Outcome;
use test_memory_common::own::Missing;
use test_memory_common::types::{catalogue, documented_field, type_named, unnamed_field};

/// The registry of `u8` and of the type of this name.
fn registry_of(alloc: Global, known: &Catalogue, name: &str) -> Result<Registry, Fail> {
    let mut registry = Held(registry_of_u8(alloc, known)?);
    let ty = Held(type_named(alloc, name)?);
    registry.0.register_type(&ty.0, known)?;
    Ok(registry.into_inner())
}

/// The registry of `u8` and of the type of this name, under the catalogue of all types.
fn described_registry_of(alloc: Global, name: &str) -> Result<Registry, Fail> {
    let known = Held(catalogue(alloc)?);
    registry_of(alloc, &known.0, name)
}

/// The registry of `u8`.
fn registry_of_u8(alloc: Global, known: &Catalogue) -> Result<Registry, RegisterError> {
    let mut registry = Held(Registry::new(alloc));
    let ty = Held(MetaType::new::<u8>(alloc)?);
    registry.0.register_type(&ty.0, known)?;
    Ok(registry.into_inner())
}

/// The encodings of a registry's descriptions, in order.
fn descriptions(alloc: Global, registry: &Registry) -> Result<String, AllocError> {
    let mut text = String::new(alloc);
    for (_, ty) in registry.types() {
        text.push_str(digits(alloc, ty)?.as_str())?;
        text.push_str(" ")?;
    }
    Ok(text)
}

/// The encodings of a registry's descriptions, each after its id.
fn numbered(alloc: Global, registry: &Registry) -> Result<String, AllocError> {
    let mut text = String::new(alloc);
    for (id, ty) in registry.types() {
        let (id, digits) = (id.id(), digits(alloc, ty)?);
        write!(text, " {id}: {digits}")?;
    }
    Ok(text)
}

/// What shows a registry: its descriptions, and whether it equals one that is made anew.
fn state(alloc: Global, registry: &Registry, known: &Catalogue) -> Result<String, AllocError> {
    let is_anew = match registry_of_u8(alloc, known) {
        Ok(anew) => *registry == Held(anew).0,
        Err(_) => false,
    };
    let mut text = descriptions(alloc, registry)?;
    text.push_str(if is_anew { "as made anew" } else { "changed" })?;
    Ok(text)
}

/// The values of a list, where there is one.
fn listed<T, E>(returned: Result<Vec<T>, E>) -> Result<Items<T>, E> {
    match returned {
        Ok(all) => Ok(Items::from(all)),
        Err(error) => Err(error),
    }
}

/// The catalogue of all types, and the registry of `u8` under it.
fn begun(alloc: Global) -> Result<(Held<Catalogue>, Held<Registry>), Fail> {
    let known = Held(catalogue(alloc)?);
    let registry = Held(registry_of_u8(alloc, &known.0)?);
    Ok((known, registry))
}

/// Makes a call between the marks on the registry of `u8` under the catalogue of all types, and
/// shows the encoding of what it returned.
macro_rules! registered {
    ($rt:expr; $registry:ident, $known:ident => $call:expr $(, $list:ident)?) => {{
        let ($known, mut $registry) = begun($rt.alloc())?;
        let before = state($rt.alloc(), &$registry.0, &$known.0);
        let returned = marked!($rt; $call);
        let after = state($rt.alloc(), &$registry.0, &$known.0);
        Outcome::lending(before, after, encoded($rt.alloc(), $($list)?(returned)))
    }};
}

/// Registers a type.
fn register_type(rt: &HostRuntime, name: &str) -> Result<Outcome, Fail> {
    let ty = Held(type_named(rt.alloc(), name)?);
    registered!(rt; registry, known => registry.0.register_type(&ty.0, &known.0))
}

/// Registers a type that the registry has, under a catalogue without descriptions.
fn register_known_type(rt: &HostRuntime, name: &str) -> Result<Outcome, Fail> {
    let ty = Held(type_named(rt.alloc(), name)?);
    let mut registry = Held(described_registry_of(rt.alloc(), name)?);
    let nothing = Held(Catalogue::new(rt.alloc()));
    let before = descriptions(rt.alloc(), &registry.0);
    let returned = marked!(rt; registry.0.register_type(&ty.0, &nothing.0));
    let after = descriptions(rt.alloc(), &registry.0);
    Outcome::lending(before, after, encoded(rt.alloc(), returned))
}

/// `bool`, the type of this name, and `String`.
pub fn three(alloc: Global, name: &str) -> Result<Vec<MetaType>, Fail> {
    let named = Held(type_named(alloc, name)?);
    let two = with(tuple_meta_type!(alloc; bool), Ok(named.into_inner()));
    Ok(with(two, MetaType::new::<String>(alloc))?)
}

/// Registers three types.
fn register_types(rt: &HostRuntime, name: &str) -> Result<Outcome, Fail> {
    let types = Held(three(rt.alloc(), name)?);
    registered!(
        rt;
        registry, known => registry.0.register_types(types.into_inner(), &known.0), listed
    )
}

/// Registers three types that stay where they are.
fn register_all(rt: &HostRuntime, name: &str) -> Result<Outcome, Fail> {
    let types = Held(three(rt.alloc(), name)?);
    registered!(rt; registry, known => registry.0.register_all(&types.0, &known.0), listed)
}

/// Two fields, of which the second is one of a type that is not described where the name says so.
fn two_fields(alloc: Global, name: &str) -> Result<Vec<Field>, AllocError> {
    let first = list_of(alloc, documented_field(alloc)?);
    match name {
        "two fields" => with(first, documented_field(alloc)),
        _ => with(first, unnamed_field::<Missing>(alloc)),
    }
}

/// Converts two fields.
fn map_into_portable(rt: &HostRuntime, name: &str) -> Result<Outcome, Fail> {
    let fields = Held(two_fields(rt.alloc(), name)?);
    registered!(
        rt;
        registry, known => registry.0.map_into_portable(fields.into_inner(), &known.0), listed
    )
}

/// Converts a value by a catalogue.
pub fn into_portable<T: IntoPortable + Drop>(
    rt: &HostRuntime,
    known: &Catalogue,
    value: T,
) -> Result<Outcome, Fail>
where
    T::Output: Scale,
{
    registered!(rt; registry, described => value.into_portable(rt.alloc(), &mut registry.0, known))
}

/// Makes the table of a registry.
fn from_registry(rt: &HostRuntime, name: &str) -> Result<Outcome, Fail> {
    let registry = Held(described_registry_of(rt.alloc(), name)?);
    let returned = marked!(rt; PortableRegistry::from_registry(rt.alloc(), &registry.0));
    Outcome::of(encoded(rt.alloc(), returned))
}

/// Makes the table of a registry that is finished.
fn from_finished(rt: &HostRuntime, name: &str) -> Result<Outcome, Fail> {
    let registry = Held(described_registry_of(rt.alloc(), name)?);
    let returned = marked!(rt; PortableRegistry::from_finished(rt.alloc(), registry.into_inner()));
    Outcome::of(encoded(rt.alloc(), returned))
}

/// Takes the descriptions out of a registry.
fn into_types(rt: &HostRuntime, name: &str) -> Result<Outcome, Fail> {
    let registry = Held(described_registry_of(rt.alloc(), name)?);
    let types = marked!(rt; Items::from(registry.into_inner().into_types()));
    Outcome::of(done(digits(rt.alloc(), &types)))
}

/// Goes over the descriptions of a registry, which are shown with their ids, and compares it with
/// another.
fn look(rt: &HostRuntime, name: &str) -> Result<Outcome, Fail> {
    let known = Held(catalogue(rt.alloc())?);
    let registry = Held(registry_of(rt.alloc(), &known.0, name)?);
    let other = Held(registry_of_u8(rt.alloc(), &known.0)?);
    begin(rt);
    let same = registry.0 == other.0;
    let mut count = 0u32;
    for _ in registry.0.types() {
        count = count.saturating_add(1);
    }
    end(rt);
    let types = numbered(rt.alloc(), &registry.0)?;
    Outcome::of(done(format!(in rt.alloc(); "{count} {same}{types}")))
}

/// Makes the call of this name on a registry.
pub fn call(rt: &HostRuntime, name: &str, input: &str) -> Result<Outcome, Fail> {
    match name {
        "register_type" => register_type(rt, input),
        "register_types" => register_types(rt, input),
        "register_all" => register_all(rt, input),
        "register_known_type" => register_known_type(rt, input),
        "map_into_portable" => map_into_portable(rt, input),
        "from_registry" => from_registry(rt, input),
        "from_finished" => from_finished(rt, input),
        "into_types" => into_types(rt, input),
        "look" => look(rt, input),
        _ => Err(Fail::new("no call has this name")),
    }
}
