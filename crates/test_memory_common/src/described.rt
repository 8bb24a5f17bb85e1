//! Descriptions of a program's own types.
use crate::own::{A, B, C, D, EnumOfItself, References};
use crate::parts::{begun, composite, enumeration, named, variant};
use crate::types::parameters;
use scale_info::impls::meta_type;
use scale_info::meta_type::HasIdentity;
use scale_info::{Field, Type, TypeDefComposite, TypeDefPrimitive, TypeDefVariant, Variant};
use std::alloc::{AllocError, Global};
use test_common::lists::{list_of, with};

/// One field with a name.
fn one_field<T: HasIdentity>(alloc: Global, name: &'static str) -> Result<Vec<Field>, AllocError> {
    list_of(alloc, named::<T>(alloc, name)?)
}

/// The fields of `RecursiveRefs { boxed: .., reference: .., mutable_reference: .. }`.
fn references(alloc: Global) -> Result<Vec<Field>, AllocError> {
    let boxed = one_field::<Box<References>>(alloc, "boxed");
    let two = with(boxed, named::<&References>(alloc, "reference"));
    with(two, named::<&mut References>(alloc, "mutable_reference"))
}

/// `enum demo::Recursive { Value(Box<Recursive>), Empty }`.
fn recursive(alloc: Global) -> Result<Type, AllocError> {
    let value = with(
        Ok(Vec::new(alloc)),
        variant::<Box<EnumOfItself>>(alloc, "Value", 0),
    );
    let empty = Variant::new("Empty", Vec::new(alloc), 1, Vec::new(alloc));
    let segments = with(list_of(alloc, "demo"), Ok("Recursive"));
    let builder = begun(alloc, segments, Ok(Vec::new(alloc)));
    enumeration(alloc, builder, with(value, Ok(empty)), &[])
}

/// One variant of one field, both with docs.
fn documented_variants(alloc: Global) -> Result<Vec<Variant>, AllocError> {
    let field_docs = with(list_of(alloc, "f"), Ok("g"))?;
    let ty = meta_type::<bool>(alloc)?;
    let docs = list_of(alloc, "v")?;
    let fields = list_of(alloc, Field::new(Some("n"), ty, Some("N"), field_docs))?;
    list_of(alloc, Variant::new("V", fields, 7, docs))
}

/// An enum of one variant, with docs of the type, the variant and its field.
fn documented(alloc: Global) -> Result<Type, AllocError> {
    let builder = begun(alloc, list_of(alloc, "p"), parameters(alloc));
    enumeration(alloc, builder, documented_variants(alloc), &["d", ""])
}

/// `{ a: u32, b: [u8; 32], c: bool }` without a path.
fn fielded(alloc: Global) -> Result<Type, AllocError> {
    let first = one_field::<u32>(alloc, "a");
    let two = with(first, named::<[u8; 32]>(alloc, "b"));
    let three = with(two, named::<bool>(alloc, "c"))?;
    Ok(Type::from_def(alloc, TypeDefComposite::from(three).into()))
}

/// An enum of `A(u32)` and `B(bool)` without a path.
fn choice(alloc: Global) -> Result<Type, AllocError> {
    let first = with(Ok(Vec::new(alloc)), variant::<u32>(alloc, "A", 0));
    let both = with(first, variant::<bool>(alloc, "B", 1))?;
    Ok(Type::from_def(alloc, TypeDefVariant::from(both).into()))
}

/// The description of a primitive.
fn number(alloc: Global, primitive: TypeDefPrimitive) -> Type {
    Type::from_def(alloc, primitive.into())
}

/// The description of a struct of this name, with these fields.
fn plain(
    alloc: Global,
    name: &'static str,
    fields: Result<Vec<Field>, AllocError>,
) -> Result<Type, AllocError> {
    composite(alloc, name, Ok(Vec::new(alloc)), fields)
}

/// `P { a: u8, b: bool }` with a skipped parameter and one that is given `bool`.
fn skipping(alloc: Global) -> Result<Type, AllocError> {
    let fields = with(one_field::<u8>(alloc, "a"), named::<bool>(alloc, "b"));
    composite(alloc, "P", parameters(alloc), fields)
}

/// `A { b: B, c: C }`.
fn of_b_and_c(alloc: Global) -> Result<Type, AllocError> {
    let fields = with(one_field::<B>(alloc, "b"), named::<C>(alloc, "c"));
    plain(alloc, "A", fields)
}

/// What the program's own type of this name is described as; None of another type.
pub fn described(alloc: Global, name: &str) -> Result<Option<Type>, AllocError> {
    let description = match name {
        "A" => of_b_and_c(alloc)?,
        "B" => plain(alloc, "B", one_field::<D>(alloc, "d"))?,
        "C" => plain(alloc, "C", Ok(Vec::new(alloc)))?,
        "D" => plain(alloc, "D", one_field::<A>(alloc, "a"))?,
        "P" => skipping(alloc)?,
        "References" => plain(alloc, "RecursiveRefs", references(alloc))?,
        "EnumOfItself" => recursive(alloc)?,
        "Documented" => documented(alloc)?,
        "Fielded" => fielded(alloc)?,
        "Choice" => choice(alloc)?,
        "U256" => number(alloc, TypeDefPrimitive::U256),
        "I256" => number(alloc, TypeDefPrimitive::I256),
        _ => return Ok(None),
    };
    Ok(Some(description))
}
