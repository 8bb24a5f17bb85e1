//! Views of tables.
ghost use Rattle.std.specs.Prelude.{◌≡◌, ◌↔◌, [], IfErr, IfNone, IfOk, IfSome, IsTrue, List};
ghost use Rattle.std.specs.Prelude.{None, ℕ, length, option_map, slice_get};
ghost use Rattle.scale_info_bytes.specs.Encodings.{HasNoPrefix, HasPrefix, IfMalformed};
ghost use Rattle.scale_info_references.specs.Conversions.{ids_in};
ghost use Rattle.scale_info_segments.specs.TypePaths.{texts};
ghost use Rattle.scale_info_table.specs.ClosedTables.{IsClosed};
ghost use Rattle.scale_info_table.specs.IndexedEntries.{indexed_from};
ghost use Rattle.scale_info_table.specs.TableEncoding.{EncodesRegistry};
ghost use Rattle.scale_info_table_view.specs.ViewLaws.{view_prop};
ghost use Rattle.scale_info_table_view.specs.Views.{BeginsWithEntry, HasPathAtNone};
ghost use Rattle.scale_info_table_view.specs.Views.{IsFirstWithPath};
ghost use Rattle.scale_info_table_view.specs.Views.{IsTableView};

use crate::closed::are_closed_entries;
use crate::entries::ViewedEntries;
use crate::offsets::find_entries;
use crate::path::has_path;
use scale_info_codec::{DecodeError, Scale};
use scale_info_passes::visitors::gather;
use scale_info_table::portable::PortableRegistry;
use scale_info_types::form::PortableForm;
use scale_info_types::ty::{PortableType, Type};
use std::alloc::{AllocError, Global};
use std::marker::Model;

/// A table that stays bytes: the bytes, and where each entry begins in them.
///
/// Contracts see a view as the table that its bytes encode, which is the one that
/// [`PortableRegistry::decode`] returns: so what is known of that table is known of the view. A
/// view holds eight bytes for each entry, and a description is in memory only where one was asked
/// for. Asked twice, it is decoded twice.
///
/// ```text
/// let view = TableView::new(alloc, table_bytes)?;
/// let account = view.resolve(alloc, 0)?;  // Some: one description, which the caller owns
/// ```
#[derive(Drop)]
pub struct TableView<'i> {
    bytes: &'i [u8],
    offsets: Vec<usize>,
    ghost table: { IsTableView bytes.now offsets.items } by { view_prop bytes.now offsets.items },
}

impl<'i> Model for TableView<'i> {
    ghost use Rattle.scale_info_table.specs.declared.portable.PortableRegistry as tables;

    ghost Value = { tables.PortableRegistry };

    ghost view = { λ view. view.table.0 };
}

impl<'i> TableView<'i> {
    /// The view of the table at the start of the bytes; what comes after the table is left out.
    ///
    /// It goes over the table once, and allocates eight bytes for each entry. References aren't
    /// followed, and `id` fields aren't compared with indices.
    ///
    /// Errors: `Malformed`, where no prefix of the bytes encodes a table; `Memory`, where an
    /// allocation failed.
    pub fn new(alloc: Global, bytes: &'i [u8]) -> Result<TableView<'i>, DecodeError>
        ensures ok { IfOk result
            (λ view. (rest : List ℕ) × HasPrefix (EncodesRegistry view) bytes.now rest) }
        ensures malformed { IfErr result (IfMalformed (HasNoPrefix EncodesRegistry bytes.now)) }
    {
        let (view, _) = TableView::decode(alloc, bytes)?;
        Ok(view)
    }

    /// The view of the table at the start of the input, and the rest of the input.
    ///
    /// Errors: as those of [`new`](TableView::new).
    pub fn decode(alloc: Global, input: &'i [u8]) -> Result<(TableView<'i>, &'i [u8]), DecodeError>
        ensures ok { IfOk result
            (λ found. HasPrefix (EncodesRegistry found.0) input.now found.1.now) }
        ensures malformed { IfErr result (IfMalformed (HasNoPrefix EncodesRegistry input.now)) }
    {
        let (offsets, rest) = find_entries(alloc, input)?;
        let bytes = &input[..input.len().saturating_sub(rest.len())];
        let view = TableView { bytes, offsets };
        Ok((view, rest))
    }

    /// The number of entries.
    pub fn len(&self) -> usize
        ensures { result ≡ length self.now.types }
    {
        self.offsets.len()
    }

    /// Whether there is no entry.
    pub fn is_empty(&self) -> bool
        ensures { IsTrue result ↔ (self.now.types ≡ []) }
    {
        self.offsets.is_empty()
    }

    /// The bytes of the table, which are its encoding.
    pub fn as_bytes(&self) -> &'i [u8]
        ensures { ∥ EncodesRegistry self.now result.now ∥₁ }
    {
        self.bytes
    }

    /// The entry at this index, counted from 0; None past the end. It is decoded at each call.
    ///
    /// Errors: `AllocError`, where an allocation for the entry failed.
    pub fn entry(&self, alloc: Global, index: usize) -> Result<Option<PortableType>, AllocError>
        ensures { IfOk result (λ found. found ≡ slice_get self.now.types index) }
    {
        let Some(bytes) = self.bytes_from(index) else {
            return Ok(None);
        };
        match PortableType::decode_from(alloc, bytes) {
            Ok((entry, _)) => Ok(Some(entry)),
            Err(DecodeError::Memory) => Err(AllocError),
            Err(DecodeError::Malformed) => unreachable!(),
        }
    }

    /// The descriptions in order, each with its index: the number by which references and
    /// [`resolve`](TableView::resolve) go. Each is decoded when it comes.
    ///
    /// An item is an `AllocError` where an allocation for its description failed.
    ///
    /// ```text
    /// for entry in view.entries(alloc) {
    ///     let (index, ty) = entry?;
    ///     ..
    /// }
    /// ```
    pub fn entries(&self, alloc: Global) -> ViewedEntries<'_, 'i>
        ensures { result ≡ indexed_from 0 self.now.types }
    {
        ViewedEntries {
            view: self,
            alloc,
            index: 0,
            end: self.offsets.len(),
        }
    }

    /// The description at index `id`, counted from 0; None past the end. It is decoded at each
    /// call.
    ///
    /// An id is an index, not the `id` field of an entry, which may be any number: see
    /// [`PortableRegistry::resolve`].
    ///
    /// Errors: `AllocError`, where an allocation for the description failed.
    pub fn resolve(&self, alloc: Global, id: u32) -> Result<Option<Type<PortableForm>>, AllocError>
        ensures { IfOk result (λ found. found
            ≡ option_map (λ entry. entry.ty) (slice_get self.now.types id)) }
    {
        Ok(self.entry(alloc, id as usize)?.map(|entry| entry.ty))
    }

    /// The ids to which the entry at index `id` refers, in order, as often as it does; None past
    /// the end. No description is made.
    ///
    /// Errors: `AllocError`, where an allocation for the list failed.
    pub fn references(&self, alloc: Global, id: u32) -> Result<Option<Vec<u32>>, AllocError>
        ensures { IfOk result (λ found. option_map (λ ids. ids.items) found
            ≡ option_map (λ entry. ids_in entry.ty) (slice_get self.now.types id)) }
    {
        let Some(bytes) = self.bytes_from(id as usize) else {
            return Ok(None);
        };
        match gather::<PortableType>(bytes, Vec::new(alloc))? {
            Some((ids, _)) => Ok(Some(ids)),
            None => unreachable!(),
        }
    }

    /// The index of the first entry whose path has these segments; None, if no entry has. No
    /// description is made, and nothing is allocated.
    ///
    /// ```text
    /// view.find_by_path(&["core", "AccountId"])  // the first entry that is a `core::AccountId`
    /// ```
    pub fn find_by_path(&self, path: &[&str]) -> Option<u32>
        ensures some { IfSome result
            (λ index. IsFirstWithPath self.now.types (texts path.now) index) }
        ensures none { IfNone result
            (HasPathAtNone (length self.now.types) self.now.types (texts path.now)) }
    {
        for index in 0..self.offsets.len() {
            let Some(bytes) = self.bytes_from(index) else {
                unreachable!()
            };
            if has_path(bytes, path) {
                return Some(index as u32);
            }
        }
        None
    }

    /// Whether the table is whole: the `id` of each entry is its index, and each reference of each
    /// entry is the index of an entry. Does not allocate.
    ///
    /// Ask this of a table from outside. Reading follows no reference, so input may have references
    /// that lead nowhere, for which [`resolve`](TableView::resolve) returns None.
    pub fn is_closed(&self) -> bool
        ensures { IsTrue result ↔ IsClosed self.now }
    {
        are_closed_entries(self.bytes, &self.offsets)
    }

    /// The table with all its descriptions in memory.
    ///
    /// Errors: `AllocError`, where an allocation for the table failed.
    pub fn try_to_owned(&self, alloc: Global) -> Result<PortableRegistry, AllocError>
        ensures { IfOk result (λ table. table ≡ self.now) }
    {
        match PortableRegistry::decode(alloc, self.bytes) {
            Ok((table, _)) => Ok(table),
            Err(DecodeError::Memory) => Err(AllocError),
            Err(DecodeError::Malformed) => unreachable!(),
        }
    }

    /// The bytes from the entry at this index on; None past the end.
    fn bytes_from(&self, index: usize) -> Option<&'i [u8]>
        ensures some { IfSome result (λ bytes. BeginsWithEntry self.now.types index bytes.now) }
        ensures none { IfNone result (slice_get self.now.types index ≡ None) }
    {
        let Some(offset) = self.offsets.get(index) else {
            return None;
        };
        Some(&self.bytes[*offset..])
    }
}
