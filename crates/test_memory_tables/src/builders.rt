//! Tables that are built at run time.
use scale_info::form::PortableForm;
use scale_info::interner::InternError;
use scale_info::{PortableRegistry, PortableRegistryBuilder, Scale, Type};
use std::alloc::{AllocError, Global};
use std::test::Fail;
use test_common::held::Held;
use test_common::parts::sequence;
use test_common::rows::row_bytes;
use test_memory_common::answers::{digits, done, encoded, failed, shown};
use test_memory_common::inputs::table_of;
use test_memory_common::marked;
use test_memory_common::marks::{begin, end};
use test_memory_common::outcomes::Outcome;

/// The builder of a table's descriptions.
pub fn built(alloc: Global, table: PortableRegistry) -> Result<PortableRegistryBuilder, Fail> {
    let mut builder = Held(PortableRegistryBuilder::new(alloc));
    for entry in table.types.into_vec() {
        builder.0.register_type(entry.ty)?;
    }
    Ok(builder.into_inner())
}

/// The builder of a sequence of each type from 1000 on, up to but not including an end.
fn sequences(alloc: Global, end: u32) -> Result<PortableRegistryBuilder, Fail> {
    let mut builder = Held(PortableRegistryBuilder::new(alloc));
    for id in 1000..end {
        builder
            .0
            .register_type(Type::from_def(alloc, sequence(id)))?;
    }
    Ok(builder.into_inner())
}

/// The last description of the table of this name.
fn last_of(alloc: Global, row: &str) -> Result<Type<PortableForm>, Fail> {
    let mut types = Held(table_of(alloc, row)?.types.into_vec());
    match types.0.pop() {
        Some(entry) => Ok(entry.ty),
        None => Err(Fail::new("the table is empty")),
    }
}

/// The encodings of a builder's descriptions, in order.
fn state(alloc: Global, builder: &PortableRegistryBuilder) -> Result<String, AllocError> {
    let mut text = String::new(alloc);
    for id in 0..builder.next_type_id() {
        if let Some(ty) = builder.get(id) {
            text.push_str(digits(alloc, ty)?.as_str())?;
            text.push_str(" ")?;
        }
    }
    Ok(text)
}

/// Registers a description, and says what is borrowed and returned.
fn register(
    rt: &HostRuntime,
    mut builder: PortableRegistryBuilder,
    ty: Type<PortableForm>,
) -> Result<Outcome, Fail> {
    let before = state(rt.alloc(), &builder);
    let returned = marked!(rt; builder.register_type(ty));
    let after = state(rt.alloc(), &builder);
    Outcome::lending(before, after, shown(rt.alloc(), returned))
}

/// Registers the last description of a table as a call of this name does: after fifteen others,
/// behind which there is room; after sixteen others, which leave no room for one more, and none
/// for its index; as the first one; or where the builder has it.
fn register_type(rt: &HostRuntime, call: &str, row: &str) -> Result<Outcome, Fail> {
    let ty = Held(last_of(rt.alloc(), row)?);
    let builder = match call {
        "register_type" => sequences(rt.alloc(), 1015)?,
        "register_seventeenth_type" => sequences(rt.alloc(), 1016)?,
        "register_first_type" => PortableRegistryBuilder::new(rt.alloc()),
        "register_known_type" => built(rt.alloc(), table_of(rt.alloc(), row)?)?,
        _ => return Err(Fail::new("no call of a builder has this name")),
    };
    register(rt, builder, ty.into_inner())
}

/// Asks a builder for its next id, and for its first description.
pub fn look(rt: &HostRuntime, row: &str) -> Result<Outcome, Fail> {
    let builder = Held(built(rt.alloc(), table_of(rt.alloc(), row)?)?);
    begin(rt);
    let (next, first) = (builder.0.next_type_id(), builder.0.get(0).is_some());
    end(rt);
    Outcome::of(done(format!(in rt.alloc(); "{next} {first}")))
}

/// Makes the table of what was registered.
fn finish(rt: &HostRuntime, row: &str) -> Result<Outcome, Fail> {
    let builder = Held(built(rt.alloc(), table_of(rt.alloc(), row)?)?);
    let returned = marked!(rt; builder.into_inner().finish(rt.alloc()));
    Outcome::of(encoded(rt.alloc(), returned))
}

/// The descriptions with these encodings, between which stand semicolons; each may have a name
/// before a colon.
fn described(alloc: Global, row: &str) -> Result<Vec<Type<PortableForm>>, Fail> {
    let mut all = Held(Vec::new(alloc));
    for part in row.split(';') {
        let (_, digits) = part.split_once(':').unwrap_or(("", part));
        let bytes = row_bytes(alloc, digits)?;
        let (ty, _) = Type::<PortableForm>::decode_from(alloc, &bytes)?;
        all.0.push(ty)?;
    }
    Ok(all.into_inner())
}

/// The ids of descriptions that are registered in this order, each with the next id after it, and
/// the table of them.
fn registered(
    alloc: Global,
    types: Vec<Type<PortableForm>>,
) -> Result<(Vec<(u32, u32)>, PortableRegistry), InternError> {
    let mut builder = Held(PortableRegistryBuilder::new(alloc));
    let mut ids = Vec::new(alloc);
    for ty in types {
        let id = builder.0.register_type(ty)?;
        ids.push((id, builder.0.next_type_id()))?;
    }
    Ok((ids, builder.into_inner().finish(alloc)?))
}

/// Registers descriptions, and makes the table of them.
fn register_each(rt: &HostRuntime, row: &str) -> Result<Outcome, Fail> {
    let types = described(rt.alloc(), row)?;
    let returned = marked!(rt; registered(rt.alloc(), types));
    let answer = match returned {
        Ok((ids, table)) => {
            let table = digits(rt.alloc(), &table)?;
            done(format!(in rt.alloc(); "{ids:?} {table}"))
        }
        Err(error) => failed(rt.alloc(), &error),
    };
    Outcome::of(answer)
}

/// Makes the call of this name of a builder of tables.
pub fn call(rt: &HostRuntime, name: &str, input: &str) -> Result<Outcome, Fail> {
    match name {
        "finish" => finish(rt, input),
        "register_each" => register_each(rt, input),
        "register_type"
        | "register_first_type"
        | "register_seventeenth_type"
        | "register_known_type" => register_type(rt, name, input),
        _ => Err(Fail::new("no call has this name")),
    }
}
