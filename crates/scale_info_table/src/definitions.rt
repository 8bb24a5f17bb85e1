//! Descriptions by the ids of their types.
ghost use Rattle.std.specs.Prelude.{◌≡◌, option_map, slice_get};
ghost use Rattle.std.specs.Option.{option_copied};
ghost use Rattle.scale_info_table.specs.declared.portable.PortableRegistry as tables;

use crate::portable::PortableRegistry;
use scale_info_types::form::PortableForm;
use scale_info_types::ty::{Type, TypeDef};

/// What has the descriptions of types by their ids: a table, or what was loaded of one.
///
/// Values are read and written by it, and types are described by it; nothing else is asked of it.
/// An implementor states the table that it stands for, `table`, and owes the contract of
/// `description`; what comes of it is then what the table gives.
pub trait Definitions {
    /// The table that it stands for.
    ghost table: { Self → tables.PortableRegistry };

    /// The description of the type with this id; None, where the id is no index of the table.
    fn description(&self, id: u32) -> Option<&Type<PortableForm>>
        ensures { option_copied result
            ≡ option_map (λ entry. entry.ty) (slice_get (table self.now).types id) };

    /// Its definition; None, where the id is no index of the table.
    #[inline(always)]
    fn definition(&self, id: u32) -> Option<&TypeDef<PortableForm>>
        ensures { option_copied result ≡ option_map (λ d. d.type_def)
            (option_map (λ entry. entry.ty) (slice_get (table self.now).types id)) }
    {
        match self.description(id) {
            None => None,
            Some(ty) => Some(&ty.type_def),
        }
    }
}

/// A table has the descriptions of its entries.
impl Definitions for PortableRegistry {
    ghost table = { λ table. table };

    #[inline(always)]
    fn description(&self, id: u32) -> Option<&Type<PortableForm>> {
        self.resolve(id)
    }
}
