//! The passes over bytes: a value is skipped, its references are gathered, and it is renumbered.
use scale_info::form::PortableForm;
use scale_info::impls::Compact;
use scale_info::{
    Field, Items, Path, PortableType, Text, Type, TypeDef, TypeDefPrimitive, TypeId, TypeParameter,
    UntrackedSymbol, Variant,
};
use scale_info_passes::entries::index_entries;
use scale_info_passes::pass::Pass;
use scale_info_passes::visitors::{gather, renumber, skip};
use std::alloc::{AllocError, Global};
use std::test::Fail;
use test_common::rows::parted;
use test_memory_common::answers::{done, failed};
use test_memory_common::inputs::bytes_of;
use test_memory_common::marked;
use test_memory_common::outcomes::Outcome;
use test_memory_tables::tables::with_rest;

/// The new numbers of the references 0, 1 and 2; a reference 3 stays.
const NUMBERS: [u32; 3] = [7, 6, 300];

/// The rest after a value, its references, and its encoding by the new numbers; None, if the input
/// begins with no value.
type Visit<'a> = Option<(&'a [u8], Vec<u32>, Vec<u8>)>;

/// What the passes make of the value that an input begins with.
fn visit<T: Pass>(alloc: Global, input: &[u8]) -> Result<Visit<'_>, AllocError> {
    let Some(rest) = skip::<T>(input) else {
        return Ok(None);
    };
    let mut renumbered = Vec::new(alloc);
    let _ = renumber::<T>(alloc, input, &NUMBERS, &mut renumbered)?;
    match gather::<T>(input, Vec::new(alloc))? {
        Some((ids, _)) => Ok(Some((rest, ids, renumbered))),
        None => Ok(None),
    }
}

/// How many of the proper prefixes of an input begin with a value.
fn prefixes<T: Pass>(input: &[u8]) -> usize {
    let mut count = 0usize;
    for end in 0..input.len() {
        count = count.saturating_add(skip::<T>(&input[..end]).is_some() as usize);
    }
    count
}

/// References in hexadecimal, each as one byte.
fn references(alloc: Global, ids: &[u32]) -> Result<String, AllocError> {
    let mut bytes = Vec::new(alloc);
    for id in ids {
        bytes.push(u8::try_from(*id).unwrap_or(255))?;
    }
    hex::encode(alloc, bytes.as_slice())
}

/// The references of a value, its encoding by the new numbers, and the rest.
fn shown(alloc: Global, rest: &[u8], ids: &[u32], renumbered: &[u8]) -> Result<String, AllocError> {
    let ids = references(alloc, ids)?;
    let value = with_rest(hex::encode(alloc, renumbered), rest)?;
    format!(in alloc; "references {ids}, renumbered {value}")
}

/// Has the passes visit a value, and the proper prefixes of the input.
fn visited<T: Pass>(rt: &HostRuntime, input: &[u8]) -> Result<Outcome, Fail> {
    let returned = marked!(rt; visit::<T>(rt.alloc(), input));
    let answer = match returned {
        Ok(Some((rest, ids, renumbered))) => {
            let (count, len) = (prefixes::<T>(input), input.len());
            let text = shown(rt.alloc(), rest, &ids, &renumbered)?;
            done(format!(in rt.alloc(); "{text}, {count} of {len} prefixes"))
        }
        Ok(None) => done(String::from_str(rt.alloc(), "no value")),
        Err(error) => failed(rt.alloc(), &error),
    };
    Outcome::of(answer)
}

/// Has the passes visit a value of the type of this name.
fn visited_as(rt: &HostRuntime, kind: &str, input: &[u8]) -> Result<Outcome, Fail> {
    match kind {
        "u8" => visited::<u8>(rt, input),
        "u32" => visited::<u32>(rt, input),
        "compact" => visited::<Compact<u32>>(rt, input),
        "id" => visited::<UntrackedSymbol<TypeId>>(rt, input),
        "text" => visited::<Text>(rt, input),
        "primitive" => visited::<TypeDefPrimitive>(rt, input),
        "option" => visited::<Option<UntrackedSymbol<TypeId>>>(rt, input),
        "list" => visited::<Items<UntrackedSymbol<TypeId>>>(rt, input),
        "pair" => visited::<(u8, UntrackedSymbol<TypeId>)>(rt, input),
        "entry" => visited::<PortableType>(rt, input),
        "path" => visited::<Path<PortableForm>>(rt, input),
        "parameter" => visited::<TypeParameter<PortableForm>>(rt, input),
        "field" => visited::<Field<PortableForm>>(rt, input),
        "variant" => visited::<Variant<PortableForm>>(rt, input),
        "definition" => visited::<TypeDef<PortableForm>>(rt, input),
        "description" => visited::<Type<PortableForm>>(rt, input),
        _ => Err(Fail::new("no type has this name")),
    }
}

/// Has the passes visit a value. A row is its type, a semicolon and a name, a colon and the bytes.
fn pass(rt: &HostRuntime, row: &str) -> Result<Outcome, Fail> {
    let (name, input) = parted(row, ':')?;
    let (kind, _) = parted(name, ';')?;
    visited_as(rt, kind, &bytes_of(rt.alloc(), input)?)
}

/// Indexes entries. A row is their number, a colon and the bytes.
fn index(rt: &HostRuntime, row: &str) -> Result<Outcome, Fail> {
    let (count, input) = parted(row, ':')?;
    let count: u32 = count.parse()?;
    let input = bytes_of(rt.alloc(), input)?;
    let returned = marked!(rt; index_entries(rt.alloc(), count, &input));
    let answer = match returned {
        Ok(Some((index, rest))) => {
            let (offsets, starts, ids) = (index.offsets, index.starts, index.references);
            let left = rest.len();
            done(format!(in rt.alloc(); "{offsets:?} {starts:?} {ids:?}, {left} left"))
        }
        Ok(None) => done(String::from_str(rt.alloc(), "no entries")),
        Err(error) => failed(rt.alloc(), &error),
    };
    Outcome::of(answer)
}

/// Makes the call of this name, which passes over bytes.
pub fn call(rt: &HostRuntime, name: &str, input: &str) -> Result<Outcome, Fail> {
    match name {
        "pass" => pass(rt, input),
        "index_entries" => index(rt, input),
        _ => Err(Fail::new("no call has this name")),
    }
}
