//! Chains: tables in which each type but the last is a sequence of the next.
use crate::parts::sequence;
use scale_info::form::PortableForm;
use scale_info::{Items, PortableRegistry, PortableType, Type, TypeDef, TypeDefPrimitive};
use std::alloc::Global;
use std::test::Fail;

/// A chain of so many types, of which the last has this definition.
pub fn chain(
    alloc: Global,
    count: u32,
    last: TypeDef<PortableForm>,
) -> Result<PortableRegistry, Fail> {
    let end = count.saturating_sub(1);
    let mut types = Vec::new(alloc);
    for id in 0..end {
        let ty = Type::from_def(alloc, sequence(id.saturating_add(1)));
        types.push(PortableType::new(id, ty))?;
    }
    types.push(PortableType::new(end, Type::from_def(alloc, last)))?;
    Ok(PortableRegistry {
        types: Items::from(types),
    })
}

/// The chain that ends with `bool`.
pub fn chain_to_bool(alloc: Global, count: u32) -> Result<PortableRegistry, Fail> {
    chain(alloc, count, TypeDef::from(TypeDefPrimitive::Bool))
}
