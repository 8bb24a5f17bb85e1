//! Lists that are made an item at a time.
use std::alloc::{AllocError, Global};

/// A list of one item.
pub fn list_of<T: Drop>(alloc: Global, item: T) -> Result<Vec<T>, AllocError> {
    let mut list = Vec::new(alloc);
    list.push(item)?;
    Ok(list)
}

/// The list with the item at its end; an Err stays as it is.
pub fn with<T: Drop>(
    so_far: Result<Vec<T>, AllocError>,
    item: Result<T, AllocError>,
) -> Result<Vec<T>, AllocError> {
    let mut list = so_far?;
    list.push(item?)?;
    Ok(list)
}
