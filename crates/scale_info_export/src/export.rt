//! Types of the program in, bytes of a table out.
ghost use Rattle.std.specs.Prelude.{◌≡◌, IfErr, IfOk, OnErr, OnOk};
ghost use Rattle.scale_info_bytes.specs.Encodings.{AppendsEncoding};
ghost use Rattle.scale_info_export.specs.Exports.{IsExportError, IsExported};
ghost use Rattle.scale_info_export.specs.Exports.{of_encode, of_register};
ghost use Rattle.scale_info_export.specs.declared.export.ExportError.TheVariants as export_error;
ghost use Rattle.scale_info_catalogue.specs.CatalogueSystems.{catalogue_system};
ghost use Rattle.scale_info_catalogue.specs.Discoveries.{roots_of};
ghost use Rattle.scale_info_table.specs.TableEncoding.{EncodesRegistry};
ghost use Rattle.scale_info_table.specs.declared.portable.PortableRegistry as tables;

use crate::borrowed::{BorrowedEntries, encode_kept, number_kept};
use crate::laws::registered_tables;
use scale_info_bytes::error::EncodeError;
use scale_info_catalogue::catalogue::Catalogue;
use scale_info_identities::type_id::TypeId;
use scale_info_registry::registry::{RegisterError, borrow_types};
use scale_info_types::meta_type::MetaType;
use scale_info_walk::walk::RetainError;
use std::alloc::{AllocError, AllocFailed, Global};
use std::collections::BTreeMap;
use thiserror::Error;

/// What [`export`] returns. Two are equal where both fields are.
#[derive(Drop, PartialEq, Eq)]
pub struct Exported {
    /// The id that each given type got, before pruning, in the order in which they were given.
    pub ids: Vec<u32>,
    /// The new id of each of these ids that was kept.
    pub map: BTreeMap<u32, u32>,
}

/// Why types could not be exported.
#[derive(Debug, Drop, PartialEq, Eq, Error)]
pub enum ExportError {
    /// The type with this identity is reached, and has no description in the catalogue. It is
    /// displayed by its head alone.
    #[error("the type {} has no description", .0.head())]
    Undescribed(TypeId),
    /// More than 4294967295 types are reached.
    #[error("there are more than 4294967295 types")]
    Full,
    /// The pruned table has no encoding, since a list or a text of it has more than 4294967295
    /// items or bytes.
    #[error("the table has a list or a text that is too long")]
    TooLong,
    /// An allocation failed.
    #[error("out of memory")]
    Memory,
}

impl From<AllocError> for ExportError {
    ghost from_gives = { λ _ e. e ≡ export_error.Memory };

    fn from(_e: AllocError) -> ExportError {
        ExportError::Memory
    }
}

impl<T: Drop> From<AllocFailed<T>> for ExportError {
    ghost from_gives = { λ _ e. e ≡ export_error.Memory };

    fn from(_e: AllocFailed<T>) -> ExportError {
        ExportError::Memory
    }
}

impl From<RegisterError> for ExportError {
    ghost from_gives = { λ cause e. e ≡ of_register cause };

    fn from(e: RegisterError) -> ExportError {
        match e {
            RegisterError::Undescribed(id) => ExportError::Undescribed(id),
            RegisterError::Full => ExportError::Full,
            RegisterError::Memory => ExportError::Memory,
        }
    }
}

impl From<EncodeError> for ExportError {
    ghost from_gives = { λ cause e. e ≡ of_encode cause };

    fn from(e: EncodeError) -> ExportError {
        match e {
            EncodeError::TooLong => ExportError::TooLong,
            EncodeError::Memory => ExportError::Memory,
        }
    }
}

/// Appends the SCALE encoding of a table of types of the program: those that a filter chooses among
/// the given ones and all that they reach, with what the chosen ones reach in turn.
///
/// The given types are registered in order, in a table of their own, by which the filter is asked:
/// once for each id, from 0 up. What is written is what one would get by registering the chosen
/// types alone, in ascending order of id. To read it back, decode the bytes.
///
/// Errors: `Undescribed`, where a type that is reached has no description in the catalogue; `Full`,
/// where more than 4294967295 types are reached; `TooLong`, where the table has no encoding, since
/// a list or a text of it has more than 4294967295 items or bytes; `Memory`, where an allocation
/// failed. On an Err the output is as before.
///
/// ```text
/// let types = [meta_type::<bool>(alloc)?, meta_type::<Vec<u32>>(alloc)?];
/// export(alloc, &catalogue, &types, |id| id == 1, &mut out)?
/// // ids 0 and 1; the map {1: 0, 2: 1}; out grew by the table of Vec<u32> and u32
/// ```
pub fn export<F: FnMut(u32) -> bool>(
    alloc: Global,
    catalogue: &Catalogue,
    types: &[MetaType],
    filter: F,
    out: &mut Vec<u8>,
) -> Result<Exported, ExportError>
    requires { F.IsAlwaysCallable filter }
    ensures ok { IfOk result (λ exported. (table : tables.PortableRegistry)
        × IsExported (catalogue_system catalogue.now) (roots_of types.now) F.step filter
        exported.ids.items exported.map table
        × AppendsEncoding (EncodesRegistry table) out.old.items out.new.items) }
    ensures err { OnErr result (out.new.items ≡ out.old.items) }
    ensures cause { IfErr result
        (IsExportError (catalogue_system catalogue.now) (roots_of types.now) F.step filter) }
{
    export_borrowed(alloc, catalogue, types, filter, out)
}

/// The same, where the catalogue and the types are borrowed for one time.
fn export_borrowed<'c, F: FnMut(u32) -> bool>(
    alloc: Global,
    catalogue: &'c Catalogue,
    types: &'c [MetaType],
    filter: F,
    out: &mut Vec<u8>,
) -> Result<Exported, ExportError>
    requires { F.IsAlwaysCallable filter }
    ensures ok { IfOk result (λ exported. (table : tables.PortableRegistry)
        × IsExported (catalogue_system catalogue.now) (roots_of types.now) F.step filter
        exported.ids.items exported.map table
        × AppendsEncoding (EncodesRegistry table) out.old.items out.new.items) }
    ensures err { OnErr result (out.new.items ≡ out.old.items) }
    ensures cause { IfErr result
        (IsExportError (catalogue_system catalogue.now) (roots_of types.now) F.step filter) }
{
    registered_tables();
    let found = borrow_types(alloc, types, catalogue)?;
    let borrowed = BorrowedEntries {
        numbers: found.numbers,
        descriptions: found.descriptions,
    };
    let kept = match number_kept(alloc, &borrowed, filter) {
        Ok(kept) => kept,
        Err(RetainError::Memory) => return Err(ExportError::Memory),
        Err(RetainError::Dangling { .. }) => unreachable!(),
        Err(RetainError::TooManyTypes) => unreachable!(),
    };
    encode_kept(&borrowed, &kept.order, &kept.numbers, out)?;
    Ok(Exported {
        ids: found.ids,
        map: kept.map,
    })
}
