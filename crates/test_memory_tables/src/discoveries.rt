//! Discoveries of types, and how often the cache of their numbers serves.
use scale_info::interner::Interner;
use scale_info::meta_type::TypeId;
use scale_info::registry::RegisterError;
use scale_info::{MetaType, Type};
use scale_info_catalogue::discovery::discover;
use scale_info_catalogue::number_cache::NumberCache;
use std::alloc::{AllocError, Global};
use std::test::Fail;
use test_common::held::Held;
use test_common::lists::list_of;
use test_memory_common::answers::{Answer, done, failed};
use test_memory_common::marked;
use test_memory_common::outcomes::Outcome;
use test_memory_common::types::{catalogue, type_named};

/// Of how many identities the cache has the number.
fn served(identities: &Interner<TypeId>, cache: &NumberCache) -> usize {
    let mut count = 0usize;
    for (number, id) in identities.elements().iter().enumerate() {
        let is_known = cache.known(identities, id) == Some(number as u32);
        count = count.saturating_add(is_known as usize);
    }
    count
}

/// How many descriptions were found, and how many of the identities are in the cache.
fn found(
    alloc: Global,
    returned: Result<Vec<&Type>, RegisterError>,
    identities: &Interner<TypeId>,
    cache: &NumberCache,
) -> Result<Answer, AllocError> {
    match returned {
        Ok(found) => {
            let (all, cached) = (identities.elements().len(), served(identities, cache));
            done(format!(in alloc; "{} described, {cached} of {all} in the cache", found.len()))
        }
        Err(error) => failed(alloc, &error),
    }
}

/// Numbers a type and all that is reached from it.
fn discover_type(rt: &HostRuntime, name: &str) -> Result<Outcome, Fail> {
    let known = Held(catalogue(rt.alloc())?);
    let ty = Held(type_named(rt.alloc(), name)?);
    let mut identities = Held(Interner::new(rt.alloc()));
    let mut cache = Held(NumberCache::new(rt.alloc()));
    let pending = list_of(rt.alloc(), &ty.0)?;
    let returned = marked!(rt; discover(
        rt.alloc(),
        &mut identities.0,
        &mut cache.0,
        pending,
        &known.0,
    ));
    Outcome::of(found(rt.alloc(), returned, &identities.0, &cache.0))
}

/// Makes the call of this name, which discovers types.
pub fn call(rt: &HostRuntime, name: &str, input: &str) -> Result<Outcome, Fail> {
    match name {
        "discover" => discover_type(rt, input),
        _ => Err(Fail::new("no call has this name")),
    }
}
