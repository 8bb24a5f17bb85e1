//! What exports return, compared.
use crate::asserts::holds;
use scale_info::export::{Exported, export};
use scale_info::meta_type::Catalogue;
use scale_info::tuple_meta_type;
use std::alloc::{AllocError, Global};
use std::collections::BTreeMap;
use std::test::Fail;

/// What an export returns of a list of `u32`, and of `u32`, of which both are kept.
fn exported(alloc: Global) -> Result<Exported, Fail> {
    let mut known = Catalogue::new(alloc);
    known.add::<u32>()?;
    known.add::<Vec<u32>>()?;
    let types = tuple_meta_type!(alloc; Vec<u32>, u32)?;
    let mut output = Vec::new(alloc);
    Ok(export(alloc, &known, &types, |_| true, &mut output)?)
}

/// These ids, and this map of ids.
fn by_hand(alloc: Global, ids: &[u32], map: &[(u32, u32)]) -> Result<Exported, AllocError> {
    let mut new_ids = BTreeMap::new(alloc);
    for (old, new) in map {
        new_ids.insert(*old, *new)?;
    }
    let ids = Vec::from_slice(alloc, ids)?;
    Ok(Exported { ids, map: new_ids })
}

#[test]
fn exports_are_equal_by_their_ids_and_maps(rt: HostRuntime) -> Result<(), Fail> {
    let alloc = rt.alloc();
    let found = exported(alloc)?;
    holds(
        &rt,
        "same",
        found == by_hand(alloc, &[0, 1], &[(0, 0), (1, 1)])?,
    );
    holds(
        &rt,
        "ids",
        found != by_hand(alloc, &[1, 0], &[(0, 0), (1, 1)])?,
    );
    holds(
        &rt,
        "map",
        found != by_hand(alloc, &[0, 1], &[(0, 1), (1, 0)])?,
    );
    holds(&rt, "kept", found != by_hand(alloc, &[0, 1], &[(0, 0)])?);
    Ok(())
}
