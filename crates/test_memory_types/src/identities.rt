//! Identities of standard types, what these types are described as, and types by their identities.
use scale_info::impls::meta_type;
use scale_info::meta_type::{HasIdentity, Identified};
use scale_info::{MetaType, TypeDefSequence, TypeInfo};
use std::test::Fail;
use test_common::shown;
use test_common::shown::identity_of;
use test_memory_common::answers::{printed, registered, shown};
use test_memory_common::by_name::{Described, for_type, found};
use test_memory_common::marked;
use test_memory_common::outcomes::Outcome;

/// Makes the identity of a type.
fn identity<T: Identified>(rt: &HostRuntime) -> Result<Outcome, Fail> {
    let returned = marked!(rt; T::type_id(rt.alloc()));
    Outcome::of(shown(rt.alloc(), returned))
}

/// Makes the description of a type, which refers to types of the catalogue.
fn description<T: TypeInfo>(rt: &HostRuntime) -> Result<Outcome, Fail> {
    let returned = marked!(rt; T::type_info(rt.alloc()));
    Outcome::of(registered(rt.alloc(), returned))
}

/// Makes the identities and the description of a type, as a text.
fn text<T: TypeInfo>(rt: &HostRuntime) -> Result<Outcome, Fail> {
    let returned = marked!(rt; shown::shown::<T>(rt.alloc()));
    Outcome::of(printed(rt.alloc(), returned))
}

/// Makes a type by its identity.
fn by_identity<T: HasIdentity>(rt: &HostRuntime) -> Result<Outcome, Fail> {
    let returned = marked!(rt; MetaType::new::<T>(rt.alloc()));
    Outcome::of(printed(rt.alloc(), identity_of(rt.alloc(), returned)))
}

/// Makes a type by the function of that name.
fn by_function<T: HasIdentity>(rt: &HostRuntime) -> Result<Outcome, Fail> {
    let returned = marked!(rt; meta_type::<T>(rt.alloc()));
    Outcome::of(printed(rt.alloc(), identity_of(rt.alloc(), returned)))
}

/// Makes the definition of a sequence, which is shown by the type of its items.
fn sequence<T: HasIdentity>(rt: &HostRuntime) -> Result<Outcome, Fail> {
    let returned = marked!(rt; TypeDefSequence::of::<T>(rt.alloc()));
    let items = returned.map(|definition| definition.type_param);
    Outcome::of(printed(rt.alloc(), identity_of(rt.alloc(), items)))
}

/// A call that is made for a type.
#[derive(Drop)]
struct CallOfType<'a> {
    rt: &'a HostRuntime,
    name: &'a str,
}

impl Described for CallOfType<'_> {
    type Returned = Result<Outcome, Fail>;

    fn of<T: TypeInfo>(self) -> Result<Outcome, Fail> {
        match self.name {
            "type_id" => identity::<T>(self.rt),
            "type_info" => description::<T>(self.rt),
            "describe" => text::<T>(self.rt),
            "MetaType::new" => by_identity::<T>(self.rt),
            "meta_type" => by_function::<T>(self.rt),
            "TypeDefSequence::of" => sequence::<T>(self.rt),
            _ => Err(Fail::new("no call has this name")),
        }
    }
}

/// Makes the call of this name for the type that the input names.
pub fn call(rt: &HostRuntime, name: &str, input: &str) -> Result<Outcome, Fail> {
    found(for_type(CallOfType { rt, name }, input))
}
