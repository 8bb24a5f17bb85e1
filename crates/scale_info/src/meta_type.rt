//! Types of the program: their identities, what they are described as, and catalogues.
pub use scale_info_catalogue::catalogue::{Catalogue, CatalogueError};
pub use scale_info_identities::type_id::TypeId;
pub use scale_info_type_ids::identified::{HasIdentity, Identified};
pub use scale_info_type_info::type_info::{InfoError, StaticTypeInfo, TypeInfo};
pub use scale_info_types::meta_type::{Describes, MetaType};
