//! Descriptions by their builders: empty ones, one with docs, a generic struct, an enum, and a
//! struct of a table.
use scale_info::build::{
    Fields, FieldsBuilder, NamedFields, PathNotAssigned, TypeBuilder, UnnamedFields, Variants,
};
use scale_info::form::{MetaForm, PortableForm};
use scale_info::meta_type::HasIdentity;
use scale_info::{Items, Path, Text, Type, TypeDefTuple, named_type_params};
use std::alloc::{AllocError, Global};
use std::test::Fail;
use test_common::held::Held;
use test_common::lists::{list_of, with};
use test_common::parts;
use test_common::shown::text_of;
use test_memory_common::answers::{encoded, printed, registered};
use test_memory_common::by_name::{Known, for_known_type, found};
use test_memory_common::marked;
use test_memory_common::marks::{begin, end};
use test_memory_common::outcomes::Outcome;
use test_memory_common::texts::bracketed;
use test_memory_common::types::{demo_path, parameters};

/// What a call that can't fail returned.
fn done<T>(value: T) -> Result<T, AllocError> {
    Ok(value)
}

/// Gives a description docs.
fn docs(rt: &HostRuntime) -> Result<Outcome, Fail> {
    let path = Held(demo_path(rt.alloc())?);
    let builder = Type::builder(rt.alloc());
    let returned = marked!(rt; builder.docs(rt.alloc(), &["a struct", ""]));
    let unit = Fields::unit::<MetaForm>(rt.alloc());
    let ty = match returned {
        Ok(builder) => Ok(builder.path(path.into_inner()).composite(unit)),
        Err(error) => Err(error),
    };
    Outcome::of(registered(rt.alloc(), ty))
}

/// Gives a description its path, its parameters and a composite.
fn composite(rt: &HostRuntime) -> Result<Outcome, Fail> {
    let (path, params) = (demo_path(rt.alloc())?, parameters(rt.alloc())?);
    begin(rt);
    let unit = Fields::unit::<MetaForm>(rt.alloc());
    let ty = Type::builder(rt.alloc())
        .path(path)
        .type_params(params)
        .composite(unit);
    end(rt);
    Outcome::of(registered(rt.alloc(), done(ty)))
}

/// Gives a description a path and an enum.
fn variants(rt: &HostRuntime) -> Result<Outcome, Fail> {
    let path = demo_path(rt.alloc())?;
    let ty = marked!(rt; Type::builder(rt.alloc())
        .path(path)
        .variant(Variants::new(rt.alloc())));
    Outcome::of(registered(rt.alloc(), done(ty)))
}

/// Gives a portable description a path and a composite.
fn portable_composite(rt: &HostRuntime) -> Result<Outcome, Fail> {
    let path = parts::path(rt.alloc(), &["hello", "Planet"])?;
    begin(rt);
    let unit = Fields::unit::<PortableForm>(rt.alloc());
    let ty = Type::builder_portable(rt.alloc())
        .path(path)
        .composite(unit);
    end(rt);
    Outcome::of(encoded(rt.alloc(), done(ty)))
}

/// Makes the tuple without members.
fn unit_tuple(rt: &HostRuntime) -> Result<Outcome, Fail> {
    let def = marked!(rt; TypeDefTuple::unit(rt.alloc()));
    Outcome::of(registered(rt.alloc(), done(def)))
}

/// The path of the generic struct.
fn path(alloc: Global) -> Result<Path, AllocError> {
    let modules = with(list_of(alloc, "scale_info"), Ok("tests"));
    let segments = with(modules, Ok("MyStruct"))?;
    Ok(Path::from(Items::from(segments)))
}

/// The struct's field, by its builder.
fn built_fields<T: HasIdentity>(
    alloc: Global,
) -> Result<FieldsBuilder<MetaForm, NamedFields>, AllocError> {
    let fields = Fields::named::<MetaForm>(alloc);
    fields.field(alloc, |f| f.name("data").type_name("T").ty::<T>(alloc))
}

/// The struct's parameter and its docs, by a builder.
fn begun<T: HasIdentity>(
    alloc: Global,
) -> Result<TypeBuilder<MetaForm, PathNotAssigned>, AllocError> {
    let params = named_type_params!(alloc; (T, T))?;
    let builder = Type::builder(alloc).type_params(params);
    builder.docs(alloc, &["a struct", ""])
}

/// The struct's description, by builders.
fn built<T: HasIdentity>(alloc: Global) -> Result<Type, AllocError> {
    let path = path(alloc)?;
    let builder = begun::<T>(alloc)?.path(path);
    Ok(builder.composite(built_fields::<T>(alloc)?))
}

/// Builds the generic struct of a type.
#[derive(Drop)]
struct StructOf<'a> {
    rt: &'a HostRuntime,
}

impl Known for StructOf<'_> {
    type Returned = Result<Outcome, Fail>;

    fn of<T: HasIdentity>(self) -> Result<Outcome, Fail> {
        let rt = self.rt;
        let returned = marked!(rt; text_of(rt.alloc(), built::<T>(rt.alloc())));
        Outcome::of(printed(rt.alloc(), returned))
    }
}

/// Builds the generic struct of the type of this name.
fn generic_struct(rt: &HostRuntime, name: &str) -> Result<Outcome, Fail> {
    found(for_known_type(StructOf { rt }, name))
}

/// One field of this type without a name.
fn unnamed<T: HasIdentity>(
    alloc: Global,
) -> Result<FieldsBuilder<MetaForm, UnnamedFields>, AllocError> {
    Fields::unnamed::<MetaForm>(alloc).field(alloc, |f| f.ty::<T>(alloc))
}

/// Two fields without names.
fn two_unnamed(alloc: Global) -> Result<FieldsBuilder<MetaForm, UnnamedFields>, AllocError> {
    unnamed::<u16>(alloc)?.field(alloc, |f| f.ty::<u32>(alloc))
}

/// The field `b` of `u8`.
fn named(alloc: Global) -> Result<FieldsBuilder<MetaForm, NamedFields>, AllocError> {
    Fields::named::<MetaForm>(alloc).field(alloc, |f| f.name("b").ty::<u8>(alloc))
}

/// The variants, and after them that of this name: `A(bool)`, `B { b: u8 }`, `C(u16, u32)` or `D`.
fn with_variant(alloc: Global, variants: Variants, name: &str) -> Result<Variants, AllocError> {
    match name {
        "A" => variants.variant(
            alloc,
            "A",
            |v| Ok(v.index(3).fields(unnamed::<bool>(alloc)?)),
        ),
        "B" => variants.variant(alloc, "B", |v| Ok(v.fields(named(alloc)?).index(0))),
        "C" => variants.variant(alloc, "C", |v| Ok(v.index(2).fields(two_unnamed(alloc)?))),
        _ => variants.variant_unit(alloc, "D", 3),
    }
}

/// An enum of the variants of these names, by builders.
fn built_enum(alloc: Global, names: &str) -> Result<Type, AllocError> {
    let mut variants = Variants::new(alloc);
    for name in names.split(' ') {
        variants = with_variant(alloc, variants, name)?;
    }
    let segments = with(list_of(alloc, "demo"), Ok("E"))?;
    let path = Path::from(Items::from(segments));
    Ok(Type::builder(alloc).path(path).variant(variants))
}

/// Builds an enum of the variants of these names.
fn enumeration(rt: &HostRuntime, names: &str) -> Result<Outcome, Fail> {
    let returned = marked!(rt; text_of(rt.alloc(), built_enum(rt.alloc(), names)));
    Outcome::of(printed(rt.alloc(), returned))
}

/// Fields of a table's struct in the making.
type Built = FieldsBuilder<PortableForm, NamedFields>;

/// The fields, and after them that with this name and type. The first type is given before the
/// name, and the others after it.
fn with_field(alloc: Global, fields: Built, name: &str, id: u32) -> Result<Built, AllocError> {
    match id {
        0 => fields.field_portable(alloc, |f| Ok(f.ty(id).name(Text::from_str(alloc, name)?))),
        _ => fields.field_portable(alloc, |f| Ok(f.name(Text::from_str(alloc, name)?).ty(id))),
    }
}

/// The struct of the first name, whose fields have the other names; the field at an index has the
/// type with that id.
fn built_portable(alloc: Global, names: &[&str]) -> Result<Type<PortableForm>, AllocError> {
    let mut fields = Fields::named::<PortableForm>(alloc);
    let mut id = 0u32;
    for name in names.iter().skip(1) {
        fields = with_field(alloc, fields, name, id)?;
        id = id.saturating_add(1);
    }
    let name = names.first().copied().unwrap_or("");
    let segments = list_of(alloc, Text::from_str(alloc, name)?)?;
    let path = Path::from(Items::from(segments));
    Ok(Type::builder_portable(alloc).path(path).composite(fields))
}

/// Builds a struct of a table, of the texts between brackets.
fn portable_struct(rt: &HostRuntime, row: &str) -> Result<Outcome, Fail> {
    let names = bracketed(rt.alloc(), row)?;
    let returned = marked!(rt; built_portable(rt.alloc(), names.as_slice()));
    Outcome::of(encoded(rt.alloc(), returned))
}

/// Makes the call of this name, which builds a description.
pub fn call(rt: &HostRuntime, name: &str, input: &str) -> Result<Outcome, Fail> {
    match name {
        "docs" => docs(rt),
        "composite" => composite(rt),
        "variants" => variants(rt),
        "portable_composite" => portable_composite(rt),
        "unit_tuple" => unit_tuple(rt),
        "generic_struct" => generic_struct(rt, input),
        "enum" => enumeration(rt, input),
        "portable_struct" => portable_struct(rt, input),
        _ => Err(Fail::new("no call has this name")),
    }
}
