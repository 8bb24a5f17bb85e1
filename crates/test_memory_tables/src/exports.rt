//! Types that are written for what the chosen ones reach.
use crate::registries::three;
use scale_info::export::{Exported, export};
use scale_info::impls::meta_type;
use scale_info::meta_type::{Catalogue, CatalogueError, HasIdentity, Identified};
use scale_info::{MetaType, Type, TypeDefSequence};
use std::alloc::{AllocError, Global};
use std::test::Fail;
use test_common::catalogues::add_own;
use test_common::held::Held;
use test_common::rows::numbers;
use test_memory_common::answers::{Answer, done, failed};
use test_memory_common::inputs::output;
use test_memory_common::marked;
use test_memory_common::outcomes::Outcome;
use test_memory_common::own::Own;
use test_memory_common::types::{catalogue, type_named};

/// A sequence of [`Second`].
type First = Own<100>;

/// A sequence of [`Third`].
type Second = Own<101>;

/// A sequence of [`First`].
type Third = Own<102>;

/// The ids and the map of what was written.
fn written(alloc: Global, exported: Exported) -> Result<Answer, AllocError> {
    let (ids, map) = (exported.ids, exported.map);
    done(format!(in alloc; "{ids:?} {map:?}"))
}

/// A sequence of this type.
fn sequence_of<T: HasIdentity>(alloc: Global) -> Result<Type, AllocError> {
    Ok(Type::from_def(alloc, TypeDefSequence::of::<T>(alloc)?.into()))
}

/// Adds three types, each a sequence of the next, and the last of the first.
fn add_cycle(alloc: Global, known: &mut Catalogue) -> Result<(), CatalogueError> {
    add_own(known, First::type_id(alloc)?, sequence_of::<Second>(alloc))?;
    add_own(known, Second::type_id(alloc)?, sequence_of::<Third>(alloc))?;
    add_own(known, Third::type_id(alloc)?, sequence_of::<First>(alloc))?;
    Ok(())
}

/// The type of this name, which is one of the cycle, a plain type, or another.
fn exported(alloc: Global, name: &str) -> Result<MetaType, Fail> {
    let ty = match name {
        "First" => meta_type::<First>(alloc),
        "Second" => meta_type::<Second>(alloc),
        "Third" => meta_type::<Third>(alloc),
        "u8" => meta_type::<u8>(alloc),
        "Box<u8>" => meta_type::<Box<u8>>(alloc),
        "String" => meta_type::<String>(alloc),
        _ => return type_named(alloc, name),
    };
    Ok(ty?)
}

/// The types of these names, between which stand semicolons.
fn types_named(alloc: Global, names: &str) -> Result<Vec<MetaType>, Fail> {
    let mut all = Vec::new(alloc);
    for name in names.split(';') {
        if !name.is_empty() {
            all.push(exported(alloc, name.trim())?)?;
        }
    }
    Ok(all)
}

/// Types and the ids of those that are chosen, after a colon; of one name alone three types, of
/// which the second is chosen.
fn chosen(alloc: Global, row: &str) -> Result<(Vec<u32>, Vec<MetaType>), Fail> {
    match row.split_once(':') {
        Some((names, ids)) => Ok((numbers(alloc, ids)?, types_named(alloc, names)?)),
        None => Ok((numbers(alloc, "1")?, three(alloc, row)?)),
    }
}

/// Writes what the types reach that the filter chooses. It notes each id that it is asked, for
/// which there is room.
fn export_types(rt: &HostRuntime, row: &str) -> Result<Outcome, Fail> {
    let mut known = Held(catalogue(rt.alloc())?);
    add_cycle(rt.alloc(), &mut known.0)?;
    let (ids, types) = chosen(rt.alloc(), row)?;
    let types = Held(types);
    let mut out = output(rt.alloc())?;
    let before = hex::encode(rt.alloc(), out.as_slice());
    let mut asked = Vec::with_capacity(rt.alloc(), 64)?;
    let noted = &mut asked;
    let returned = marked!(rt; export(
        rt.alloc(),
        &known.0,
        &types.0,
        move |id| {
            let _ = noted.push(id);
            ids.contains(&id)
        },
        &mut out,
    ));
    let after = hex::encode(rt.alloc(), out.as_slice());
    let answer = match returned {
        Ok(exported) => written(rt.alloc(), exported),
        Err(error) => failed(rt.alloc(), &error),
    };
    Outcome::asking(Outcome::lending(before, after, answer), asked)
}

/// Makes the call of this name, which writes types.
pub fn call(rt: &HostRuntime, name: &str, input: &str) -> Result<Outcome, Fail> {
    match name {
        "export" => export_types(rt, input),
        _ => Err(Fail::new("no call has this name")),
    }
}
