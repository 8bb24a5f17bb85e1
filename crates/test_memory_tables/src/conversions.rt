//! Values that hold types, converted.
use crate::registries::into_portable;
use scale_info::meta_type::{Catalogue, CatalogueError};
use scale_info::{
    IntoPortable, Scale, TypeDefArray, TypeDefBitSequence, TypeDefCompact, TypeDefComposite,
    TypeDefSequence, TypeDefTuple, TypeDefVariant, tuple_meta_type,
};
use std::alloc::{AllocError, Global};
use std::test::Fail;
use test_common::held::Held;
use test_common::lists::list_of;
use test_memory_common::outcomes::Outcome;
use test_memory_common::types::{
    catalogue, demo_path, description_named, documented_field, documented_variant, given_parameter,
    map, type_named,
};

/// The catalogue by which a value is converted.
type Known = Result<Catalogue, CatalogueError>;

/// Converts a value of this kind, a part of a description, by a catalogue.
fn part(rt: &HostRuntime, known: Known, kind: &str) -> Result<Outcome, Fail> {
    let known = Held(known?);
    part_by(rt, &known.0, kind)
}

/// Converts a value of this kind by a catalogue, which is borrowed.
fn part_by(rt: &HostRuntime, known: &Catalogue, kind: &str) -> Result<Outcome, Fail> {
    let alloc = rt.alloc();
    match kind {
        "text" => into_portable(rt, known, "a text"),
        "path" => into_portable(rt, known, demo_path(alloc)?),
        "field" => into_portable(rt, known, documented_field(alloc)?),
        "variant" => into_portable(rt, known, documented_variant(alloc)?),
        "parameter" => into_portable(rt, known, given_parameter(alloc)?),
        "composite" => into_portable(rt, known, composite(alloc)?),
        "variants" => into_portable(rt, known, variants(alloc)?),
        "sequence" => into_portable(rt, known, TypeDefSequence::of::<Vec<u32>>(alloc)?),
        "array" => into_portable(rt, known, TypeDefArray::new(32, type_named(alloc, "u32")?)),
        "compact" => into_portable(rt, known, TypeDefCompact::new(type_named(alloc, "u32")?)),
        "tuple" => into_portable(rt, known, tuple(alloc)?),
        "bit sequence" => into_portable(rt, known, TypeDefBitSequence::new::<u8, u32>(alloc)?),
        "map" => into_portable(rt, known, map(alloc)?),
        _ => Err(Fail::new("no kind has this name")),
    }
}

/// The definition of a tuple.
fn tuple(alloc: Global) -> Result<TypeDefTuple, AllocError> {
    TypeDefTuple::new(alloc, tuple_meta_type!(alloc; u8, Vec<u32>)?)
}

/// The definition of a composite.
fn composite(alloc: Global) -> Result<TypeDefComposite, AllocError> {
    Ok(TypeDefComposite::from(list_of(alloc, documented_field(alloc)?)?))
}

/// The definition of an enum.
fn variants(alloc: Global) -> Result<TypeDefVariant, AllocError> {
    Ok(TypeDefVariant::from(list_of(alloc, documented_variant(alloc)?)?))
}

/// Converts a value by the catalogue of all types.
fn described<T: IntoPortable + Drop>(rt: &HostRuntime, value: T) -> Result<Outcome, Fail>
where
    T::Output: Scale,
{
    let known = Held(catalogue(rt.alloc())?);
    into_portable(rt, &known.0, value)
}

/// Converts the type of this name.
fn meta_type(rt: &HostRuntime, name: &str) -> Result<Outcome, Fail> {
    described(rt, type_named(rt.alloc(), name)?)
}

/// Converts the description of this name.
fn description(rt: &HostRuntime, name: &str) -> Result<Outcome, Fail> {
    described(rt, description_named(rt.alloc(), name)?)
}

/// Converts the definition of this name.
fn definition(rt: &HostRuntime, name: &str) -> Result<Outcome, Fail> {
    described(rt, description_named(rt.alloc(), name)?.type_def)
}

/// Makes the call of this name, which converts a value.
pub fn call(rt: &HostRuntime, name: &str, input: &str) -> Result<Outcome, Fail> {
    match name {
        "part" => part(rt, catalogue(rt.alloc()), input),
        "part_undescribed" => part(rt, Ok(Catalogue::new(rt.alloc())), input),
        "MetaType" => meta_type(rt, input),
        "Type" => description(rt, input),
        "TypeDef" => definition(rt, input),
        _ => Err(Fail::new("no call has this name")),
    }
}
