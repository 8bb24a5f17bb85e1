//! Descriptions put together part by part, by builders whose types say what is still missing.
#![tactic(auto)]

pub mod fields;
pub mod lists;
pub mod variants;

pub use fields::{
    Fields, FieldsBuilder, IdForm, NamedField, NamedFields, NewField, NoFields, UnnamedField,
    UnnamedFields,
};
pub use scale_info_types::build::{
    FieldBuilder, IdentityForm, NameAssigned, NameNotAssigned, PathAssigned, PathNotAssigned,
    TypeAssigned, TypeBuilder, TypeNotAssigned,
};
pub use variants::{IndexAssigned, IndexNotAssigned, VariantBuilder, Variants};
