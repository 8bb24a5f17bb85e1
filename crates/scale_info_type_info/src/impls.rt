//! What standard types are described as.
ghost use Rattle.std.specs.Prelude.{◌≡◌};
ghost use Rattle.scale_info_type_info.specs.StandardTypes.{compact_description, defined};
ghost use Rattle.scale_info_types.specs.MetaDescriptions.{meta_content, meta_definition};

use crate::type_info::{InfoError, TypeInfo};
use scale_info_type_ids::impls::Compact;
use scale_info_types::meta_type::meta_type;
use scale_info_types::ty::{Type, TypeDef, TypeDefCompact};
use std::alloc::Global;

mod generics;
mod lists;
mod parts;
mod pointers;
mod primitives;
mod slices;
mod texts;
mod tuples;
mod values;

impl<T: TypeInfo> TypeInfo for Compact<T> {
    ghost description = { compact_description T.Identity.own };

    fn type_info(alloc: Global) -> Result<Type, InfoError> {
        let compact = TypeDefCompact::new(meta_type::<T>(alloc)?);
        Ok(built_in(alloc, TypeDef::from(compact)))
    }
}

/// The description of a type that has no path, no parameters and no docs.
fn built_in(alloc: Global, definition: TypeDef) -> Type
    ensures { meta_content result ≡ defined (meta_definition definition.entry) }
{
    Type::from_def(alloc, definition)
}
