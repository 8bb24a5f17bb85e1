//! Descriptions like those of a runtime's metadata.
use crate::random::Random;
use crate::texts::{docs, name};
use scale_info::form::PortableForm;
use scale_info::{
    Field, Path, Text, Type, TypeDef, TypeDefArray, TypeDefCompact, TypeDefComposite,
    TypeDefPrimitive, TypeDefSequence, TypeDefTuple, TypeDefVariant, Variant,
};
use std::alloc::{AllocError, Global};

/// The built-in types, which come first.
const BUILT_IN: [TypeDefPrimitive; 8] = [
    TypeDefPrimitive::Bool,
    TypeDefPrimitive::Str,
    TypeDefPrimitive::U8,
    TypeDefPrimitive::U16,
    TypeDefPrimitive::U32,
    TypeDefPrimitive::U64,
    TypeDefPrimitive::U128,
    TypeDefPrimitive::I32,
];

/// The index of `u8` among these, and how many unsigned integers there are from it on.
const UNSIGNED: (u32, u32) = (2, 5);

/// The modules in which structs and enums stand.
const MODULES: [&str; 4] = [
    "frame_support",
    "pallet_balances",
    "sp_runtime",
    "demo_runtime",
];

/// The description at this index of the table of a seed. A struct or an enum that is changed has a
/// field or a variant more.
pub fn described(
    alloc: Global,
    seed: u32,
    id: u32,
    is_changed: bool,
) -> Result<Type<PortableForm>, AllocError> {
    let mut random = Random::new(seed, id);
    if let Some(kind) = BUILT_IN.get(id as usize) {
        return Ok(Type::from_def(alloc, (*kind).into()));
    }
    let random = &mut random;
    let more = if is_changed { 1 } else { 0 };
    match random.below(100) {
        0..=7 => bare(
            alloc,
            TypeDefSequence::new(reference(random, id).into()).into(),
        ),
        8..=12 => {
            let len = random.below(64);
            bare(
                alloc,
                TypeDefArray::new(len, reference(random, id).into()).into(),
            )
        }
        13..=18 => tuple(alloc, random, id),
        19..=23 => {
            let integer = UNSIGNED.0 + random.below(UNSIGNED.1);
            bare(alloc, TypeDefCompact::new(integer.into()).into())
        }
        24..=63 => {
            let count = 1 + random.below(6) + more;
            let fields = fields(alloc, random, id, count)?;
            documented(
                alloc,
                seed,
                id,
                TypeDef::Composite(TypeDefComposite::from(fields)),
            )
        }
        _ => {
            let variants = variants(alloc, random, id, more as u8)?;
            documented(
                alloc,
                seed,
                id,
                TypeDef::Variant(TypeDefVariant::from(variants)),
            )
        }
    }
}

/// A type that has no path.
fn bare(alloc: Global, def: TypeDef<PortableForm>) -> Result<Type<PortableForm>, AllocError> {
    Ok(Type::from_def(alloc, def))
}

/// The id of a type to refer to: mostly of a built-in one, sometimes of one that came soon before.
fn reference(random: &mut Random, id: u32) -> u32 {
    if id > 64 && random.below(5) == 0 {
        return id - 1 - random.below(24);
    }
    random.below(8)
}

/// A tuple of at most three members.
fn tuple(alloc: Global, random: &mut Random, id: u32) -> Result<Type<PortableForm>, AllocError> {
    let mut members = Vec::new(alloc);
    for _ in 0..random.below(4) {
        members.push(reference(random, id).into())?;
    }
    bare(alloc, TypeDefTuple::new_portable(alloc, members)?.into())
}

/// A type of a module, with its index in its name, and with docs: the same ones for each
/// definition.
fn documented(
    alloc: Global,
    seed: u32,
    id: u32,
    def: TypeDef<PortableForm>,
) -> Result<Type<PortableForm>, AllocError> {
    let mut random = Random::new(seed.wrapping_add(1), id);
    let module = Text::from_str(alloc, MODULES[random.below(4) as usize])?;
    let word = name(alloc, &mut random, 1)?;
    let last = Text::from(format!(in alloc; "{word}{id}")?);
    let path = Path::from_segments_unchecked(alloc, vec![in alloc; module, last]?)?;
    let lines = docs(alloc, &mut random, 2)?;
    Type::new(alloc, path, Vec::new(alloc), def, lines)
}

/// So many fields, which have names in three types of four.
fn fields(
    alloc: Global,
    random: &mut Random,
    id: u32,
    count: u32,
) -> Result<Vec<Field<PortableForm>>, AllocError> {
    let is_named = random.below(4) > 0;
    let mut fields = Vec::new(alloc);
    for _ in 0..count {
        let own = if is_named {
            Some(name(alloc, random, 2)?)
        } else {
            None
        };
        let ty = reference(random, id);
        let type_name = Text::from_str(alloc, "T::Balance")?;
        fields.push(Field::new(own, ty.into(), Some(type_name), Vec::new(alloc)))?;
    }
    Ok(fields)
}

/// The variants of an enum: mostly two to twelve, sometimes 60, and rarely 200; and so many more.
fn variants(
    alloc: Global,
    random: &mut Random,
    id: u32,
    more: u8,
) -> Result<Vec<Variant<PortableForm>>, AllocError> {
    let count = match random.below(100) {
        0 => 200,
        1..=5 => 60,
        _ => 2 + random.below(11) as u8,
    };
    let count = count.saturating_add(more);
    let mut variants = Vec::new(alloc);
    for index in 0..count {
        let own = name(alloc, random, 2)?;
        let most = random.below(4);
        let fields = fields(alloc, random, id, most)?;
        let lines = docs(alloc, random, 1)?;
        variants.push(Variant::new(own, fields, index, lines))?;
    }
    Ok(variants)
}
