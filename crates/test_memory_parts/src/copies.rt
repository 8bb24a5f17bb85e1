//! Copies of descriptions, of their parts, of identities, lists and texts.
use scale_info::form::{Form, MetaForm, PortableForm};
use scale_info::{IntoPortable, Items, Scale, TryClone};
use std::alloc::AllocError;
use std::fmt::Debug;
use std::test::Fail;
use test_common::held::Held;
use test_common::parts;
use test_common::shown::identity_of;
use test_memory_common::answers::{encoded, printed, registered, shown};
use test_memory_common::inputs::table_of;
use test_memory_common::marked;
use test_memory_common::outcomes::Outcome;
use test_memory_common::types::{
    demo_path, description_named, documented_field, documented_variant, given_parameter, type_named,
};

/// Copies a portable value.
fn copy_of<T: TryClone + Scale>(rt: &HostRuntime, value: &T) -> Result<Outcome, Fail> {
    let returned = marked!(rt; value.try_clone(rt.alloc()));
    Outcome::of(encoded(rt.alloc(), returned))
}

/// Copies a portable value that is made for it; an Err is returned as it is.
fn copy<T: TryClone + Scale + Drop>(
    rt: &HostRuntime,
    value: Result<T, AllocError>,
) -> Result<Outcome, Fail> {
    let value = value?;
    copy_of(rt, &value)
}

/// Copies a value that holds types of the program.
fn copy_meta<T: TryClone + IntoPortable + Drop>(rt: &HostRuntime, value: T) -> Result<Outcome, Fail>
where
    T::Output: Scale,
{
    let returned = marked!(rt; value.try_clone(rt.alloc()));
    Outcome::of(registered(rt.alloc(), returned))
}

/// Copies a value that is shown by its `Debug`.
fn copy_shown<T: TryClone + Debug + Drop>(rt: &HostRuntime, value: &T) -> Result<Outcome, Fail> {
    let returned = marked!(rt; value.try_clone(rt.alloc()));
    Outcome::of(shown(rt.alloc(), returned))
}

/// Copies a portable part of a description.
fn portable_part(rt: &HostRuntime, kind: &str) -> Result<Outcome, Fail> {
    let alloc = rt.alloc();
    match kind {
        "field" => copy(rt, parts::field(alloc, Some("n"), 3, Some("N"), &["d", ""])),
        "variant" => copy(rt, parts::variant(alloc, "V", &[1, 2], 255, &["v"])),
        "path" => copy(rt, parts::path(alloc, &["hello", "world", "Planet"])),
        "given parameter" => copy(rt, parts::parameter(alloc, "T", Some(7))),
        "skipped parameter" => copy(rt, parts::parameter(alloc, "S", None)),
        "text" => copy(rt, parts::text(alloc, "a text")),
        "letter" => copy(rt, parts::text(alloc, "Ä")),
        "symbol" => copy(rt, Ok(parts::id(7))),
        _ => Err(Fail::new("no kind has this name")),
    }
}

/// Copies a part of a description in the form of the program.
fn meta_part(rt: &HostRuntime, kind: &str) -> Result<Outcome, Fail> {
    match kind {
        "field" => copy_meta(rt, documented_field(rt.alloc())?),
        "variant" => copy_meta(rt, documented_variant(rt.alloc())?),
        "path" => copy_meta(rt, demo_path(rt.alloc())?),
        "parameter" => copy_meta(rt, given_parameter(rt.alloc())?),
        _ => Err(Fail::new("no kind has this name")),
    }
}

/// Copies the type of this name.
fn meta_type(rt: &HostRuntime, name: &str) -> Result<Outcome, Fail> {
    let ty = Held(type_named(rt.alloc(), name)?);
    let returned = marked!(rt; ty.0.try_clone(rt.alloc()));
    Outcome::of(printed(rt.alloc(), identity_of(rt.alloc(), returned)))
}

/// Copies the identity of the type of this name.
fn identity(rt: &HostRuntime, name: &str) -> Result<Outcome, Fail> {
    copy_shown(rt, type_named(rt.alloc(), name)?.type_id())
}

/// Copies what the type of this name is described as.
fn meta_description(rt: &HostRuntime, name: &str) -> Result<Outcome, Fail> {
    copy_meta(rt, description_named(rt.alloc(), name)?)
}

/// Copies the definition of the type of this name.
fn meta_definition(rt: &HostRuntime, name: &str) -> Result<Outcome, Fail> {
    copy_meta(rt, description_named(rt.alloc(), name)?.type_def)
}

/// Copies the description at index 0.
fn description(rt: &HostRuntime, row: &str) -> Result<Outcome, Fail> {
    let table = Held(table_of(rt.alloc(), row)?);
    match table.0.resolve(0) {
        Some(ty) => copy_of(rt, ty),
        None => Err(Fail::new("the table is empty")),
    }
}

/// Copies the definition at index 0.
fn definition(rt: &HostRuntime, row: &str) -> Result<Outcome, Fail> {
    let table = Held(table_of(rt.alloc(), row)?);
    match table.0.resolve(0) {
        Some(ty) => copy_of(rt, ty.type_def()),
        None => Err(Fail::new("the table is empty")),
    }
}

/// Copies a list.
fn list(rt: &HostRuntime, kind: &str) -> Result<Outcome, Fail> {
    match kind {
        "numbers" => copy(rt, Ok(Items::from(vec![in rt.alloc(); 7u32, 8]?))),
        "texts" => copy(
            rt,
            Ok(Items::from(parts::texts(rt.alloc(), &["d", "", "e"])?)),
        ),
        "no texts" => copy(rt, Ok(Items::from(parts::texts(rt.alloc(), &[])?))),
        _ => Err(Fail::new("no list has this name")),
    }
}

/// Copies a type or a text by its form.
fn by_form(rt: &HostRuntime, kind: &str) -> Result<Outcome, Fail> {
    match kind {
        "type of the program" => type_of_program(rt),
        "portable type" => portable_type(rt),
        "text of the program" => text_of_program(rt),
        "portable text" => portable_text(rt),
        _ => Err(Fail::new("no kind has this name")),
    }
}

/// Copies a type of the program.
fn type_of_program(rt: &HostRuntime) -> Result<Outcome, Fail> {
    let ty = Held(type_named(rt.alloc(), "Vec<u32>")?);
    let returned = marked!(rt; MetaForm::copy_type(rt.alloc(), &ty.0));
    Outcome::of(printed(rt.alloc(), identity_of(rt.alloc(), returned)))
}

/// Copies an id.
fn portable_type(rt: &HostRuntime) -> Result<Outcome, Fail> {
    let id = parts::id(7);
    let returned = marked!(rt; PortableForm::copy_type(rt.alloc(), &id));
    Outcome::of(encoded(rt.alloc(), returned))
}

/// Copies a text of the program.
fn text_of_program(rt: &HostRuntime) -> Result<Outcome, Fail> {
    let returned = marked!(rt; MetaForm::copy_string(rt.alloc(), &"a text"));
    Outcome::of(shown(rt.alloc(), returned))
}

/// Copies a text of a table.
fn portable_text(rt: &HostRuntime) -> Result<Outcome, Fail> {
    let text = parts::text(rt.alloc(), "a text")?;
    let returned = marked!(rt; PortableForm::copy_string(rt.alloc(), &text));
    Outcome::of(encoded(rt.alloc(), returned))
}

/// Makes the call of this name, which copies a value.
pub fn call(rt: &HostRuntime, name: &str, input: &str) -> Result<Outcome, Fail> {
    match name {
        "portable_part" => portable_part(rt, input),
        "meta_part" => meta_part(rt, input),
        "MetaType" => meta_type(rt, input),
        "TypeId" => identity(rt, input),
        "Type" => meta_description(rt, input),
        "TypeDef" => meta_definition(rt, input),
        "description" => description(rt, input),
        "definition" => definition(rt, input),
        "Items" => list(rt, input),
        "Form" => by_form(rt, input),
        _ => Err(Fail::new("no call has this name")),
    }
}
