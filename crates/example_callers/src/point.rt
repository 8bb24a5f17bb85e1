//! A program's body that puts a table together and writes it.
use scale_info::form::PortableForm;
use scale_info::interner::InternError;
use scale_info::{
    Field, Path, PortableRegistry, PortableRegistryBuilder, Text, Type, TypeDefComposite,
    TypeDefPrimitive, TypeDefSequence,
};
use std::alloc::{AllocError, Global};
use std::io::Write;

/// Writes the bytes of the table of `struct shapes::Point { x: u32, tags: Vec<u32> }`.
pub fn write_point<W: Write>(alloc: Global, output: &mut W) -> anyhow::Result<()> {
    let mut bytes = Vec::new(alloc);
    point_table(alloc)?.encode(&mut bytes)?;
    output.write_all(&bytes)?;
    Ok(())
}

/// The table of `struct shapes::Point { x: u32, tags: Vec<u32> }`: `u32`, `Vec<u32>` and `Point`,
/// at the indices 0, 1 and 2.
fn point_table(alloc: Global) -> Result<PortableRegistry, InternError> {
    let mut builder = PortableRegistryBuilder::new(alloc);
    let number = builder.register_type(Type::from_def(alloc, TypeDefPrimitive::U32.into()))?;
    let numbers = TypeDefSequence::new(number.into());
    let numbers = builder.register_type(Type::from_def(alloc, numbers.into()))?;
    builder.register_type(point(alloc, number, numbers)?)?;
    Ok(builder.finish(alloc)?)
}

/// The description of `Point`, where `u32` and `Vec<u32>` have these ids.
fn point(alloc: Global, number: u32, numbers: u32) -> Result<Type<PortableForm>, AllocError> {
    let path = point_path(alloc)?;
    let fields = point_fields(alloc, number, numbers)?;
    Type::new(alloc, path, Vec::new(alloc), fields.into(), Vec::new(alloc))
}

/// The path `shapes::Point`.
fn point_path(alloc: Global) -> Result<Path<PortableForm>, AllocError> {
    let module = Text::from_str(alloc, "shapes")?;
    let name = Text::from_str(alloc, "Point")?;
    Path::from_segments_unchecked(alloc, vec![in alloc; module, name]?)
}

/// The fields `x` and `tags`.
fn point_fields(
    alloc: Global,
    number: u32,
    numbers: u32,
) -> Result<TypeDefComposite<PortableForm>, AllocError> {
    let x = named_field(alloc, "x", number, "u32")?;
    let tags = named_field(alloc, "tags", numbers, "Vec<u32>")?;
    Ok(TypeDefComposite::from(vec![in alloc; x, tags]?))
}

/// A field without docs.
fn named_field(
    alloc: Global,
    name: &str,
    ty: u32,
    type_name: &str,
) -> Result<Field<PortableForm>, AllocError> {
    let name = Text::from_str(alloc, name)?;
    let type_name = Text::from_str(alloc, type_name)?;
    Ok(Field::new(Some(name), ty.into(), Some(type_name), Vec::new(alloc)))
}
