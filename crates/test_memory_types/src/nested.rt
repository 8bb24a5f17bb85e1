//! Lists of lists.
use scale_info::meta_type::{Catalogue, CatalogueError};
use scale_info::{MetaType, TypeInfo, tuple_meta_type};
use std::alloc::{AllocError, Global};
use test_common::held::Held;

/// Four lists around `T`.
type Lists<T> = Vec<Vec<Vec<Vec<T>>>>;

/// Eight lists around `u8`.
type Eight = Lists<Lists<u8>>;

/// Sixteen lists around `u8`.
type Sixteen = Lists<Lists<Eight>>;

/// Adds the four lists around `T`.
fn add_four<T: TypeInfo>(known: &mut Catalogue) -> Result<bool, CatalogueError> {
    known.add::<Vec<T>>()?;
    known.add::<Vec<Vec<T>>>()?;
    known.add::<Vec<Vec<Vec<T>>>>()?;
    known.add::<Lists<T>>()
}

/// Adds the eight lists around `T`.
fn add_eight<T: TypeInfo>(known: &mut Catalogue) -> Result<bool, CatalogueError> {
    add_four::<T>(known)?;
    add_four::<Lists<T>>(known)
}

/// Adds `u8` and the 24 lists around it.
fn add_all(known: &mut Catalogue) -> Result<bool, CatalogueError> {
    known.add::<u8>()?;
    add_eight::<u8>(known)?;
    add_eight::<Eight>(known)?;
    add_eight::<Sixteen>(known)
}

/// The catalogue of the 24 lists.
pub fn catalogue(alloc: Global) -> Result<Catalogue, CatalogueError> {
    let mut known = Held(Catalogue::new(alloc));
    add_all(&mut known.0)?;
    Ok(known.into_inner())
}

/// The outermost list.
pub fn outermost(alloc: Global) -> Result<Vec<MetaType>, AllocError> {
    tuple_meta_type!(alloc; Lists<Lists<Sixteen>>)
}
