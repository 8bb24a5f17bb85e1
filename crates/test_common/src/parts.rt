//! Parts of portable descriptions, made in few words.
use crate::results::both;
use scale_info::form::PortableForm;
use scale_info::{
    Field, Path, Text, Type, TypeDef, TypeDefSequence, TypeId, TypeParameter, UntrackedSymbol,
    Variant,
};
use std::alloc::{AllocError, Global};

/// The reference to the type with this id.
pub fn id(number: u32) -> UntrackedSymbol<TypeId> {
    UntrackedSymbol::from(number)
}

/// The text with these characters.
pub fn text(alloc: Global, chars: &str) -> Result<Text, AllocError> {
    Ok(Text::from(String::from_str(alloc, chars)?))
}

/// The text with these characters, if there are some.
fn optional_text(alloc: Global, chars: Option<&str>) -> Result<Option<Text>, AllocError> {
    match chars {
        None => Ok(None),
        Some(chars) => Ok(Some(text(alloc, chars)?)),
    }
}

/// The texts with these characters, in order.
pub fn texts(alloc: Global, all: &[&str]) -> Result<Vec<Text>, AllocError> {
    let mut made = Vec::new(alloc);
    for chars in all {
        made.push(text(alloc, chars)?)?;
    }
    Ok(made)
}

/// The path with these segments.
pub fn path(alloc: Global, segments: &[&str]) -> Result<Path<PortableForm>, AllocError> {
    Path::from_segments_unchecked(alloc, texts(alloc, segments)?)
}

/// The field with these parts.
pub fn field(
    alloc: Global,
    name: Option<&str>,
    ty: u32,
    type_name: Option<&str>,
    docs: &[&str],
) -> Result<Field<PortableForm>, AllocError> {
    Ok(Field::new(
        optional_text(alloc, name)?,
        id(ty),
        optional_text(alloc, type_name)?,
        texts(alloc, docs)?,
    ))
}

/// One field for each of these types, without name, type name and docs.
pub fn unnamed_fields(
    alloc: Global,
    types: &[u32],
) -> Result<Vec<Field<PortableForm>>, AllocError> {
    let mut made = Vec::new(alloc);
    for ty in types {
        made.push(Field::new(None, id(*ty), None, Vec::new(alloc)))?;
    }
    Ok(made)
}

/// The variant with one unnamed field for each of these types.
pub fn variant(
    alloc: Global,
    name: &str,
    fields: &[u32],
    index: u8,
    docs: &[&str],
) -> Result<Variant<PortableForm>, AllocError> {
    Ok(Variant::new(
        text(alloc, name)?,
        unnamed_fields(alloc, fields)?,
        index,
        texts(alloc, docs)?,
    ))
}

/// The parameter that stands for a type, or is skipped.
pub fn parameter(
    alloc: Global,
    name: &str,
    ty: Option<u32>,
) -> Result<TypeParameter<PortableForm>, AllocError> {
    let ty = match ty {
        None => None,
        Some(number) => Some(id(number)),
    };
    Ok(TypeParameter::new_portable(text(alloc, name)?, ty))
}

/// A sequence of the type with this id.
pub fn sequence(ty: u32) -> TypeDef<PortableForm> {
    TypeDef::from(TypeDefSequence::new(id(ty)))
}

/// One skipped parameter for each of these names.
fn skipped(alloc: Global, names: &[&str]) -> Result<Vec<TypeParameter<PortableForm>>, AllocError> {
    let mut made = Vec::new(alloc);
    for name in names {
        made.push(parameter(alloc, name, None)?)?;
    }
    Ok(made)
}

/// The description with one skipped parameter for each of these names.
pub fn description(
    alloc: Global,
    segments: &[&str],
    params: &[&str],
    type_def: TypeDef<PortableForm>,
    docs: &[&str],
) -> Result<Type<PortableForm>, AllocError> {
    let head = both(path(alloc, segments), skipped(alloc, params));
    let ((path, params), docs) = both(head, texts(alloc, docs))?;
    Type::new(alloc, path, params, type_def, docs)
}
