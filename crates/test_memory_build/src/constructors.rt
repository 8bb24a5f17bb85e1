//! Constructors that collect lists or make identities.
use scale_info::form::{Form, PortableForm};
use scale_info::{
    Type, TypeDef, TypeDefBitSequence, TypeDefComposite, TypeDefTuple, TypeDefVariant, TypeId,
    UntrackedSymbol,
};
use std::alloc::{AllocError, Global};
use std::test::Fail;
use test_common::held::Held;
use test_common::lists::list_of;
use test_common::parts;
use test_common::rows::numbers;
use test_common::shown::text_of;
use test_memory_common::answers::{encoded, printed, registered};
use test_memory_common::marked;
use test_memory_common::outcomes::Outcome;
use test_memory_common::types::{
    demo_path, description_named, documented_field, documented_variant, parameters, types_named,
};

/// Makes a description of the kind of this name.
fn description(rt: &HostRuntime, name: &str) -> Result<Outcome, Fail> {
    let alloc = rt.alloc();
    let docs = list_of(alloc, "d")?;
    let path = Held(demo_path(alloc)?);
    let params = Held(parameters(alloc)?);
    let def = description_named(alloc, name)?.type_def;
    let (path, params) = (path.into_inner(), params.into_inner());
    let returned = marked!(rt; Type::new(alloc, path, params, def, docs));
    Outcome::of(registered(alloc, returned))
}

/// Makes a portable description.
fn portable_description(rt: &HostRuntime) -> Result<Outcome, Fail> {
    let alloc = rt.alloc();
    let path = Held(parts::path(alloc, &["p", "q"])?);
    let params = Held(list_of(alloc, parts::parameter(alloc, "T", Some(7))?)?);
    let docs = parts::texts(alloc, &["d", "e"])?;
    let (path, params) = (path.into_inner(), params.into_inner());
    let definition = parts::sequence(2);
    let returned = marked!(rt; Type::<PortableForm>::new(alloc, path, params, definition, docs));
    Outcome::of(encoded(alloc, returned))
}

/// Makes the definition of a composite.
fn composite(rt: &HostRuntime) -> Result<Outcome, Fail> {
    let fields = list_of(rt.alloc(), documented_field(rt.alloc())?)?;
    let returned = marked!(rt; TypeDefComposite::new(rt.alloc(), fields));
    Outcome::of(registered(rt.alloc(), returned))
}

/// Makes the definition of an enum.
fn variants(rt: &HostRuntime) -> Result<Outcome, Fail> {
    let variants = list_of(rt.alloc(), documented_variant(rt.alloc())?)?;
    let returned = marked!(rt; TypeDefVariant::new(rt.alloc(), variants));
    Outcome::of(registered(rt.alloc(), returned))
}

/// Makes the definition of a composite of the types with these ids.
fn portable_composite(rt: &HostRuntime, row: &str) -> Result<Outcome, Fail> {
    let ids = numbers(rt.alloc(), row)?;
    let fields = parts::unnamed_fields(rt.alloc(), &ids)?;
    let returned = marked!(rt; TypeDefComposite::<PortableForm>::new(rt.alloc(), fields));
    Outcome::of(encoded(rt.alloc(), definition(returned)))
}

/// Makes the definition of an enum of one variant, with fields of the types with these ids.
fn portable_variants(rt: &HostRuntime, row: &str) -> Result<Outcome, Fail> {
    let ids = numbers(rt.alloc(), row)?;
    let variant = parts::variant(rt.alloc(), "V", &ids, 0, &[])?;
    let variants = list_of(rt.alloc(), variant)?;
    let returned = marked!(rt; TypeDefVariant::<PortableForm>::new(rt.alloc(), variants));
    Outcome::of(encoded(rt.alloc(), definition(returned)))
}

/// Makes the definition of a tuple of types of the program, as a text.
fn tuple(rt: &HostRuntime, names: &str) -> Result<Outcome, Fail> {
    let members = types_named(rt.alloc(), names)?;
    let returned = marked!(rt; TypeDefTuple::new(rt.alloc(), members));
    shown(rt.alloc(), returned)
}

/// Makes the definition of a tuple of ids.
fn portable_tuple(rt: &HostRuntime, row: &str) -> Result<Outcome, Fail> {
    let members = ids(rt.alloc(), &numbers(rt.alloc(), row)?)?;
    let returned = marked!(rt; TypeDefTuple::new_portable(rt.alloc(), members));
    Outcome::of(encoded(rt.alloc(), definition(returned)))
}

/// References to the types with these ids.
fn ids(alloc: Global, numbers: &[u32]) -> Result<Vec<UntrackedSymbol<TypeId>>, AllocError> {
    let mut ids = Vec::new(alloc);
    for number in numbers {
        ids.push(parts::id(*number))?;
    }
    Ok(ids)
}

/// Makes the definition of a sequence of bits, as a text.
fn bit_sequence(rt: &HostRuntime, name: &str) -> Result<Outcome, Fail> {
    let returned = marked!(rt; match name {
        "of plain types" => TypeDefBitSequence::new::<u8, u32>(rt.alloc()),
        "of a box" => TypeDefBitSequence::new::<Box<u8>, bool>(rt.alloc()),
        _ => TypeDefBitSequence::new::<Vec<u32>, [u8; 32]>(rt.alloc()),
    });
    shown(rt.alloc(), returned)
}

/// The definition that a definition of one kind is.
fn definition<F: Form, D: Into<TypeDef<F>>>(
    returned: Result<D, AllocError>,
) -> Result<TypeDef<F>, AllocError> {
    match returned {
        Ok(definition) => Ok(definition.into()),
        Err(error) => Err(error),
    }
}

/// A definition as a text.
fn shown<D: Into<TypeDef>>(
    alloc: Global,
    returned: Result<D, AllocError>,
) -> Result<Outcome, Fail> {
    Outcome::of(printed(alloc, text_of(alloc, definition(returned))))
}

/// Makes the call of this name: a constructor.
pub fn call(rt: &HostRuntime, name: &str, input: &str) -> Result<Outcome, Fail> {
    match name {
        "Type::new" => description(rt, input),
        "Type::new_portable" => portable_description(rt),
        "TypeDefComposite::new" => composite(rt),
        "TypeDefComposite::new_portable" => portable_composite(rt, input),
        "TypeDefVariant::new" => variants(rt),
        "TypeDefVariant::new_portable" => portable_variants(rt, input),
        "TypeDefTuple::new" => tuple(rt, input),
        "TypeDefTuple::new_portable" => portable_tuple(rt, input),
        "TypeDefBitSequence::new" => bit_sequence(rt, input),
        _ => Err(Fail::new("no call has this name")),
    }
}
