//! Types and descriptions of a program as texts, which tests compare with rows.
//!
//! An identity is its head; where it has numbers or arguments, all of it stands in parentheses, as
//! in `(array 5 u8)`. A description is its path, each parameter as `T=u8`, a colon, the definition,
//! and each line of docs after `//`. A field is `name:type:type name`, each that is missing empty.
use scale_info::form::Form;
use scale_info::impls::meta_type;
use scale_info::meta_type::InfoError;
use scale_info::{Field, MetaType, Type, TypeDef, TypeId, TypeInfo, TypeParameter, Variant};
use std::alloc::{AllocError, Global};

/// How deep an identity is shown.
const DEPTH: u32 = 8;

/// Appends a number after a space.
fn push_number(text: &mut String, number: usize) -> Result<(), AllocError> {
    let alloc = *text.allocator();
    text.push_str(format!(in alloc; " {number}")?.as_str())
}

/// Appends a parenthesis, and the head and the numbers of an identity after it.
fn push_opening(text: &mut String, id: &TypeId) -> Result<(), AllocError> {
    text.push_str("(")?;
    text.push_str(id.head())?;
    for num in id.nums() {
        push_number(text, *num)?;
    }
    Ok(())
}

/// Appends an identity, this many arguments deep.
fn push_id(text: &mut String, id: &TypeId, depth: u32) -> Result<(), AllocError> {
    if depth == 0 {
        return text.push_str("..");
    }
    if id.nums().is_empty() && id.args().is_empty() {
        return text.push_str(id.head());
    }
    push_opening(text, id)?;
    for arg in id.args() {
        text.push_str(" ")?;
        push_id(text, arg, depth - 1)?;
    }
    text.push_str(")")
}

/// The identity that a type is known by, as a text.
pub fn identity_of(
    alloc: Global,
    made: Result<MetaType, AllocError>,
) -> Result<String, AllocError> {
    let ty = made?;
    let mut text = String::new(alloc);
    push_id(&mut text, ty.type_id(), DEPTH)?;
    Ok(text)
}

/// Appends a type after a space.
fn push_type(text: &mut String, ty: &MetaType) -> Result<(), AllocError> {
    text.push_str(" ")?;
    push_id(text, ty.type_id(), DEPTH)
}

/// Appends types, each after a space.
fn push_types(text: &mut String, types: &[MetaType]) -> Result<(), AllocError> {
    for ty in types {
        push_type(text, ty)?;
    }
    Ok(())
}

/// Appends fields, each after a space.
fn push_fields(text: &mut String, fields: &[Field]) -> Result<(), AllocError> {
    for field in fields {
        text.push_str(" ")?;
        text.push_str(field.name.unwrap_or(""))?;
        text.push_str(":")?;
        push_id(text, field.ty.type_id(), DEPTH)?;
        text.push_str(":")?;
        text.push_str(field.type_name.unwrap_or(""))?;
    }
    Ok(())
}

/// Appends variants, each with its index and its fields, after a space and before a semicolon.
fn push_variants(text: &mut String, variants: &[Variant]) -> Result<(), AllocError> {
    for variant in variants {
        text.push_str(" ")?;
        text.push_str(variant.name)?;
        push_number(text, variant.index as usize)?;
        push_fields(text, variant.fields())?;
        text.push_str(";")?;
    }
    Ok(())
}

/// Appends parameters, each after a space.
fn push_parameters(text: &mut String, parameters: &[TypeParameter]) -> Result<(), AllocError> {
    for parameter in parameters {
        text.push_str(" ")?;
        text.push_str(parameter.name)?;
        text.push_str("=")?;
        if let Some(ty) = &parameter.ty {
            push_id(text, ty.type_id(), DEPTH)?;
        }
    }
    Ok(())
}

/// The kind of a definition; of a primitive its name.
fn kind<F: Form>(def: &TypeDef<F>) -> &'static str {
    match def {
        TypeDef::Composite(_) => "struct",
        TypeDef::Variant(_) => "enum",
        TypeDef::Sequence(_) => "sequence",
        TypeDef::Array(_) => "array",
        TypeDef::Tuple(_) => "tuple",
        TypeDef::Primitive(primitive) => primitive.name(),
        TypeDef::Compact(_) => "compact",
        TypeDef::BitSequence(_) => "bits",
        TypeDef::Map(_) => "map",
    }
}

/// The fields of a struct.
fn fields_of<F: Form>(def: &TypeDef<F>) -> &[Field<F>] {
    match def {
        TypeDef::Composite(def) => def.fields(),
        _ => &[],
    }
}

/// The variants of an enum.
fn variants_of<F: Form>(def: &TypeDef<F>) -> &[Variant<F>] {
    match def {
        TypeDef::Variant(def) => def.variants(),
        _ => &[],
    }
}

/// The members of a tuple.
fn members_of<F: Form>(def: &TypeDef<F>) -> &[F::Ty] {
    match def {
        TypeDef::Tuple(def) => def.fields(),
        _ => &[],
    }
}

/// The length of an array.
fn len_of<F: Form>(def: &TypeDef<F>) -> Option<u32> {
    match def {
        TypeDef::Array(def) => Some(def.len),
        _ => None,
    }
}

/// The one type that a definition refers to.
fn item_of<F: Form>(def: &TypeDef<F>) -> Option<&F::Ty> {
    match def {
        TypeDef::Sequence(def) => Some(&def.type_param),
        TypeDef::Array(def) => Some(&def.type_param),
        TypeDef::Compact(def) => Some(&def.type_param),
        _ => None,
    }
}

/// The store and the order of bits, or the key and the value of a map.
fn pair_of<F: Form>(def: &TypeDef<F>) -> Option<(&F::Ty, &F::Ty)> {
    match def {
        TypeDef::BitSequence(def) => Some((&def.bit_store_type, &def.bit_order_type)),
        TypeDef::Map(def) => Some((&def.key, &def.value)),
        _ => None,
    }
}

/// Appends the length and the types of a definition other than a struct and an enum.
fn push_parts(text: &mut String, def: &TypeDef) -> Result<(), AllocError> {
    if let Some(len) = len_of(def) {
        push_number(text, len as usize)?;
    }
    if let Some(item) = item_of(def) {
        push_type(text, item)?;
    }
    if let Some((first, second)) = pair_of(def) {
        push_type(text, first)?;
        push_type(text, second)?;
    }
    push_types(text, members_of(def))
}

/// Appends the kind of a definition and what it has.
fn push_definition(text: &mut String, def: &TypeDef) -> Result<(), AllocError> {
    text.push_str(kind(def))?;
    push_fields(text, fields_of(def))?;
    push_variants(text, variants_of(def))?;
    push_parts(text, def)
}

/// Appends segments with `::` between them.
fn push_path(text: &mut String, segments: &[&'static str]) -> Result<(), AllocError> {
    let mut mark = "";
    for segment in segments {
        text.push_str(mark)?;
        text.push_str(segment)?;
        mark = "::";
    }
    Ok(())
}

/// Appends lines of docs, each after `//`.
fn push_docs(text: &mut String, docs: &[&'static str]) -> Result<(), AllocError> {
    for line in docs {
        text.push_str(" // ")?;
        text.push_str(line)?;
    }
    Ok(())
}

/// Appends a description.
fn push_description(text: &mut String, ty: &Type) -> Result<(), AllocError> {
    push_path(text, ty.path.segments())?;
    push_parameters(text, ty.type_params())?;
    text.push_str(": ")?;
    push_definition(text, &ty.type_def)?;
    push_docs(text, ty.docs())
}

/// What is shown as a text.
pub trait Show {
    /// Appends what is shown.
    fn push_to(&self, text: &mut String) -> Result<(), AllocError>;
}

impl Show for Vec<MetaType> {
    fn push_to(&self, text: &mut String) -> Result<(), AllocError> {
        push_types(text, self)
    }
}

impl Show for Vec<TypeParameter> {
    fn push_to(&self, text: &mut String) -> Result<(), AllocError> {
        push_parameters(text, self)
    }
}

impl Show for TypeDef {
    fn push_to(&self, text: &mut String) -> Result<(), AllocError> {
        push_definition(text, self)
    }
}

impl Show for Type {
    fn push_to(&self, text: &mut String) -> Result<(), AllocError> {
        push_description(text, self)
    }
}

/// The text and what is shown of a value, which is handed over: a generic function drops it for
/// nearly nothing in its proof.
fn with<T: Show + Drop>(mut text: String, value: T) -> Result<String, AllocError> {
    value.push_to(&mut text)?;
    Ok(text)
}

/// What was made, as a text. A test hands the outcome on, since its proof grows with what it drops
/// where it returns early.
pub fn text_of<T: Show + Drop>(
    alloc: Global,
    made: Result<T, AllocError>,
) -> Result<String, AllocError> {
    with(String::new(alloc), made?)
}

/// Appends the own identity of a type, and after `by` the one that it is known by where that is
/// another.
fn push_identities(text: &mut String, own: &TypeId, known: &TypeId) -> Result<(), AllocError> {
    push_id(text, own, DEPTH)?;
    if known == own {
        return Ok(());
    }
    text.push_str(" by ")?;
    push_id(text, known, DEPTH)
}

/// The identities of a type.
fn identities<T: TypeInfo>(alloc: Global) -> Result<String, AllocError> {
    let own = T::type_id(alloc)?;
    let known = meta_type::<T>(alloc)?;
    let mut text = String::new(alloc);
    push_identities(&mut text, &own, known.type_id())?;
    Ok(text)
}

/// What a type is: its own identity, after `by` the one that it is known by where that is another,
/// and its description after `is`.
pub fn shown<T: TypeInfo>(alloc: Global) -> Result<String, InfoError> {
    let mut text = identities::<T>(alloc)?;
    text.push_str(" is ")?;
    Ok(with(text, T::type_info(alloc)?)?)
}
