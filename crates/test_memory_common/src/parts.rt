//! Parts of descriptions in the form of a program, made in few words.
use scale_info::build::{PathAssigned, TypeBuilder};
use scale_info::form::MetaForm;
use scale_info::impls::meta_type;
use scale_info::meta_type::HasIdentity;
use scale_info::{Field, Items, Path, Type, TypeParameter, Variant};
use std::alloc::{AllocError, Global};
use test_common::lists::list_of;
use test_common::results::both;

/// A description in the making that has its path.
pub type Begun = TypeBuilder<MetaForm, PathAssigned<MetaForm>>;

/// A field of this type, without docs.
fn field<T: HasIdentity>(
    alloc: Global,
    name: Option<&'static str>,
    type_name: Option<&'static str>,
) -> Result<Field, AllocError> {
    let ty = meta_type::<T>(alloc)?;
    Ok(Field::new(name, ty, type_name, Vec::new(alloc)))
}

/// A field with a name, without the name of its type.
pub fn named<T: HasIdentity>(alloc: Global, name: &'static str) -> Result<Field, AllocError> {
    field::<T>(alloc, Some(name), None)
}

/// A variant of one field without a name, without docs.
pub fn variant<T: HasIdentity>(
    alloc: Global,
    name: &'static str,
    index: u8,
) -> Result<Variant, AllocError> {
    let fields = list_of(alloc, field::<T>(alloc, None, None)?)?;
    Ok(Variant::new(name, fields, index, Vec::new(alloc)))
}

/// A description of these parameters and this path in the making.
pub fn begun(
    alloc: Global,
    segments: Result<Vec<&'static str>, AllocError>,
    params: Result<Vec<TypeParameter>, AllocError>,
) -> Result<Begun, AllocError> {
    let (segments, params) = both(segments, params)?;
    let path = Path::from(Items::from(segments));
    Ok(Type::builder(alloc).path(path).type_params(params))
}

/// The description of a composite of one segment, without docs.
pub fn composite(
    alloc: Global,
    name: &'static str,
    params: Result<Vec<TypeParameter>, AllocError>,
    fields: Result<Vec<Field>, AllocError>,
) -> Result<Type, AllocError> {
    let builder = begun(alloc, list_of(alloc, name), params);
    let (builder, fields) = both(builder, fields)?;
    Ok(builder.composite(fields))
}

/// The description of an enum with these lines of documentation.
pub fn enumeration(
    alloc: Global,
    builder: Result<Begun, AllocError>,
    variants: Result<Vec<Variant>, AllocError>,
    docs: &[&'static str],
) -> Result<Type, AllocError> {
    let (builder, variants) = both(builder, variants)?;
    Ok(builder.docs(alloc, docs)?.variant(variants))
}
