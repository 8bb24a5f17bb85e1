//! A program that describes its own types and registers them: `docs/OWN_TYPES.md` shows it.
#![tactic(auto)]

mod types;

use anyhow::Result;
use scale_info::Registry;
use scale_info::export::export;
use scale_info::impls::meta_type;
use scale_info::meta_type::Catalogue;
use std::alloc::Global;
use types::{Point, Shape, Tree};

/// A catalogue of the program's types, and of what they refer to.
fn described(alloc: Global) -> Result<Catalogue> {
    let mut catalogue = Catalogue::new(alloc);
    catalogue.add::<u32>()?;
    catalogue.add::<Point>()?;
    catalogue.add::<Shape>()?;
    catalogue.add::<Vec<Tree>>()?;
    catalogue.add::<Tree>()?;
    Ok(catalogue)
}

/// Registers the tree, and prints the id and the path of each type that it leads to; a built-in
/// type has no path. Then it makes the bytes of a table of the point, which has the id 2, alone
/// with what the point refers to.
fn main(rt: HostRuntime) -> Result<()> {
    let alloc = rt.alloc();
    let catalogue = described(alloc)?;
    let mut registry = Registry::new(alloc);
    let tree = registry.register_type(&meta_type::<Tree>(alloc)?, &catalogue)?;
    println!(rt; "Tree has the id {}", tree.id())?;
    for (id, ty) in registry.types() {
        println!(rt; "{} [{}]", id.id(), ty.path)?;
    }
    let mut bytes = Vec::new(alloc);
    let roots = vec![in alloc; meta_type::<Tree>(alloc)?]?;
    let exported = export(alloc, &catalogue, &roots, |id| id == 2, &mut bytes)?;
    println!(rt; "{} types in {} bytes", exported.map.len(), bytes.len())?;
    Ok(())
}
