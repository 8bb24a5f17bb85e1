//! Catalogues of a program's own types.
use scale_info::meta_type::{Catalogue, CatalogueError};
use scale_info::{Type, TypeId};
use std::alloc::AllocError;

/// Adds a description under an identity, and says whether the identity is new; an Err stays as it
/// is.
pub fn add_own(
    known: &mut Catalogue,
    id: TypeId,
    description: Result<Type, AllocError>,
) -> Result<bool, CatalogueError> {
    known.add_described(id, description?)
}
