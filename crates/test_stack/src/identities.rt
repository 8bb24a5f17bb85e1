//! Identities of types, each the argument of the next.
use anyhow::{Result, bail};
use scale_info_collections::try_clone::TryClone;
use scale_info_identities::type_id::TypeId;
use std::alloc::{AllocError, Global};
use std::mem::forget;

/// The identity of so many boxes round a number.
fn nested(alloc: Global, levels: u32) -> Result<TypeId, AllocError> {
    let mut identity = TypeId::new("u8", Vec::new(alloc), Vec::new(alloc));
    for _ in 0..levels {
        let mut arguments = Vec::with_capacity(alloc, 1)?;
        arguments.push(identity)?;
        identity = TypeId::new("Box", Vec::new(alloc), arguments);
    }
    Ok(identity)
}

/// How deep an identity of so many levels is.
fn depth(identity: &TypeId, levels: u32) -> usize {
    let mut depth = 1;
    let mut identity = identity;
    for _ in 0..levels {
        let Some(argument) = identity.args().first() else {
            return depth;
        };
        depth = depth.saturating_add(1);
        identity = argument;
    }
    depth
}

/// The depth of an identity that equals another and is not below it, or 0.
fn compare(alloc: Global, levels: u32) -> Result<usize> {
    let other = nested(alloc, levels)?;
    let identity = nested(alloc, levels)?;
    let is_same = identity == other && identity >= other;
    let found = if is_same { depth(&identity, levels) } else { 0 };
    forget(other);
    forget(identity);
    Ok(found)
}

/// The depth of a copy of an identity.
fn copy(alloc: Global, levels: u32) -> Result<usize> {
    let identity = nested(alloc, levels)?;
    let copy = identity.try_clone(alloc)?;
    let found = depth(&copy, levels);
    forget(copy);
    forget(identity);
    Ok(found)
}

/// Makes the call that this word names, and returns how deep the outcome is.
pub fn call(alloc: Global, call: &str, levels: u32) -> Result<usize> {
    match call {
        "drop" => Ok(depth(&nested(alloc, levels)?, levels)),
        "compare" => compare(alloc, levels),
        "copy" => copy(alloc, levels),
        _ => bail!("no call has this name"),
    }
}
