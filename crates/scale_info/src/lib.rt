//! Portable registries of types: tables by which a client in any language decodes SCALE values.
#![tactic(auto)]

pub mod borrowed_form;
pub mod describe;
pub mod diff;
pub mod export;
pub mod graph;
pub mod impls;
pub mod laws;
pub mod macros;
pub mod meta_type;
pub mod metadata;
pub mod typed;
pub mod value;
pub mod visit;
pub mod walk;

pub use scale_info_build as build;
pub use scale_info_codec as codec;
pub use scale_info_codec::{DecodeError, EncodeError, Scale};
pub use scale_info_collections::items::Items;
pub use scale_info_collections::text::Text;
pub use scale_info_collections::try_clone::TryClone;
pub use scale_info_collections::{items, text, try_clone};
pub use scale_info_identities::symbol::UntrackedSymbol;
pub use scale_info_identities::type_id::TypeId;
pub use scale_info_interner::interner;
pub use scale_info_json_bytes::append_json_of;
pub use scale_info_json_text::{JsonTextError, from_json_text};
pub use scale_info_json_tree::{JsonError, append_json, from_json, to_json};
pub use scale_info_registry::registry;
pub use scale_info_registry::registry::{IntoPortable, Registry};
pub use scale_info_segments::utils;
pub use scale_info_table::portable;
pub use scale_info_table::portable::{PortableRegistry, PortableRegistryBuilder};
pub use scale_info_table_docs::docs::append_without_docs;
pub use scale_info_table_prune::indexed::IndexedTable;
pub use scale_info_table_prune::prune::{PruneError, append_pruned, prune};
pub use scale_info_table_prune::same_types::same_types;
pub use scale_info_table_view::view;
pub use scale_info_type_info::type_info::{StaticTypeInfo, TypeInfo};
pub use scale_info_types::meta_type::MetaType;
pub use scale_info_types::ty::path::{Path, PathError};
pub use scale_info_types::ty::variant::Variant;
pub use scale_info_types::ty::{
    Field, PortableType, Type, TypeDef, TypeDefArray, TypeDefBitSequence, TypeDefCompact,
    TypeDefComposite, TypeDefMap, TypeDefPrimitive, TypeDefSequence, TypeDefTuple, TypeDefVariant,
    TypeParameter,
};
pub use scale_info_types::{form, ty};
pub use scale_info_value_borrowed::borrowed;
pub use scale_info_value_loaded::loaded;
pub use scale_info_value_text::value_text;
pub use scale_info_walk::walk::RetainError;
