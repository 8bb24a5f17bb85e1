//! Catalogues, to which descriptions are added.
use scale_info::meta_type::{Catalogue, CatalogueError, Identified};
use scale_info::{Type, TypeDefPrimitive, TypeId, TypeInfo};
use std::alloc::{AllocError, Global};
use std::test::Fail;
use test_common::catalogues::add_own;
use test_common::held::Held;
use test_common::shown::Show;
use test_memory_common::answers::{Answer, done, shown};
use test_memory_common::by_name::{Described, for_type, found as found_type};
use test_memory_common::marked;
use test_memory_common::marks::{begin, end};
use test_memory_common::outcomes::Outcome;
use test_memory_common::own::Missing;
use test_memory_common::types::{Pair, add_all, catalogue, description_named, type_named};

/// The identity of this number.
fn numbered(alloc: Global, number: usize) -> Result<TypeId, AllocError> {
    Ok(TypeId::new("demo::Numbered", vec![in alloc; number]?, Vec::new(alloc)))
}

/// The description of `u32`.
fn plain(alloc: Global) -> Type {
    Type::from_def(alloc, TypeDefPrimitive::U32.into())
}

/// A catalogue of fifteen descriptions, whose map needs room for one more.
fn fifteen(alloc: Global) -> Result<Catalogue, CatalogueError> {
    let mut known = Held(Catalogue::new(alloc));
    for number in 0..15 {
        add_own(&mut known.0, numbered(alloc, number)?, Ok(plain(alloc)))?;
    }
    Ok(known.into_inner())
}

/// How many of the fifteen a catalogue has.
fn kept(alloc: Global, known: &Catalogue) -> Result<u32, AllocError> {
    let mut kept = 0u32;
    for number in 0..15 {
        let id = numbered(alloc, number)?;
        kept = kept.saturating_add(known.get(&id).is_some() as u32);
    }
    Ok(kept)
}

/// What a catalogue describes under this identity, as a text; of an identity that it has not
/// `nothing`.
fn found(alloc: Global, known: &Catalogue, identity: &TypeId) -> Result<String, AllocError> {
    let mut text = String::new(alloc);
    match known.get(identity) {
        Some(ty) => ty.push_to(&mut text)?,
        None => text.push_str("nothing")?,
    }
    Ok(text)
}

/// How many descriptions a catalogue has, how many of the fifteen it has, and what it describes
/// under this identity.
fn state(alloc: Global, known: &Catalogue, identity: &TypeId) -> Result<String, AllocError> {
    let (len, kept) = (known.len(), kept(alloc, known)?);
    let found = found(alloc, known, identity)?;
    format!(in alloc; "{len} {kept} {found}")
}

/// Adds a type to the fifteen and the types of these names.
fn add<T: TypeInfo>(rt: &HostRuntime, before: &str) -> Result<Outcome, Fail> {
    let mut known = Held(fifteen(rt.alloc())?);
    add_all(rt.alloc(), &mut known.0, before)?;
    let identity = T::Identity::type_id(rt.alloc())?;
    let before = state(rt.alloc(), &known.0, &identity);
    let returned = marked!(rt; known.0.add::<T>());
    let after = state(rt.alloc(), &known.0, &identity);
    Outcome::lending(before, after, shown(rt.alloc(), returned))
}

/// Adds the type of a name.
#[derive(Drop)]
struct AddAfter<'a> {
    rt: &'a HostRuntime,
    before: &'a str,
}

impl Described for AddAfter<'_> {
    type Returned = Result<Outcome, Fail>;

    fn of<T: TypeInfo>(self) -> Result<Outcome, Fail> {
        add::<T>(self.rt, self.before)
    }
}

/// Adds the last of the types of these names to the fifteen and the types before it.
fn add_named(rt: &HostRuntime, names: &str) -> Result<Outcome, Fail> {
    let (before, last) = names.rsplit_once(" | ").unwrap_or(("", names));
    found_type(for_type(AddAfter { rt, before }, last))
}

/// Adds the pair of `u32` and `bool`, whose identity has the description of `u32`.
fn add_described_otherwise(rt: &HostRuntime) -> Result<Outcome, Fail> {
    let mut known = Held(fifteen(rt.alloc())?);
    let identity = Pair::type_id(rt.alloc())?;
    add_own(
        &mut known.0,
        Pair::type_id(rt.alloc())?,
        Ok(plain(rt.alloc())),
    )?;
    let before = state(rt.alloc(), &known.0, &identity);
    let returned = marked!(rt; known.0.add::<Pair>());
    let after = state(rt.alloc(), &known.0, &identity);
    Outcome::lending(before, after, shown(rt.alloc(), returned))
}

/// Adds the description of this name under an identity, and says what is returned.
fn added(rt: &HostRuntime, known: &mut Catalogue, name: &str) -> Result<Answer, Fail> {
    let identity = Missing::type_id(rt.alloc())?;
    let description = Held(description_named(rt.alloc(), name)?);
    let returned = marked!(rt; known.add_described(identity, description.into_inner()));
    Ok(shown(rt.alloc(), returned)?)
}

/// Adds the description of this name under an identity, and says what is borrowed and returned.
fn add_to(rt: &HostRuntime, mut known: Catalogue, name: &str) -> Result<Outcome, Fail> {
    let identity = Missing::type_id(rt.alloc())?;
    let before = state(rt.alloc(), &known, &identity);
    let answer = added(rt, &mut known, name)?;
    let after = state(rt.alloc(), &known, &identity);
    Outcome::lending(before, after, Ok(answer))
}

/// Adds the description of this name under a new identity.
fn add_described(rt: &HostRuntime, name: &str) -> Result<Outcome, Fail> {
    let known = Held(fifteen(rt.alloc())?);
    add_to(rt, known.into_inner(), name)
}

/// Adds the description of this name to an empty catalogue.
fn add_first_described(rt: &HostRuntime, name: &str) -> Result<Outcome, Fail> {
    add_to(rt, Catalogue::new(rt.alloc()), name)
}

/// Adds the description of this name under an identity that has the other one.
fn add_described_after(rt: &HostRuntime, other: &str, name: &str) -> Result<Outcome, Fail> {
    let mut known = Held(fifteen(rt.alloc())?);
    let identity = Missing::type_id(rt.alloc())?;
    known
        .0
        .add_described(identity, description_named(rt.alloc(), other)?)?;
    add_to(rt, known.into_inner(), name)
}

/// Looks the type of this name up in the catalogue of all types.
fn look(rt: &HostRuntime, name: &str) -> Result<Outcome, Fail> {
    let ty = Held(type_named(rt.alloc(), name)?);
    let known = Held(catalogue(rt.alloc())?);
    begin(rt);
    let is_found = ty.0.type_info(&known.0).is_some();
    let same = known.0.get(ty.0.type_id()).is_some();
    end(rt);
    let found = found(rt.alloc(), &known.0, ty.0.type_id())?;
    Outcome::of(done(format!(in rt.alloc(); "({is_found}, {same}) {found}")))
}

/// Makes the call of this name on a catalogue.
pub fn call(rt: &HostRuntime, name: &str, input: &str) -> Result<Outcome, Fail> {
    match name {
        "add" => add_named(rt, input),
        "add_described" => add_described(rt, input),
        "add_first_described" => add_first_described(rt, input),
        "add_described_again" => add_described_after(rt, input, input),
        "add_another_described" => add_described_after(rt, "u32", input),
        "add_described_otherwise" => add_described_otherwise(rt),
        "look" => look(rt, input),
        _ => Err(Fail::new("no call has this name")),
    }
}
