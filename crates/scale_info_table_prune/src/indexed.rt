//! Tables that are read once, and pruned as often as one likes.
ghost use Rattle.std.specs.Prelude.{◌≡◌, ◌↔◌, ℕ, List, None, IfErr, IfNone, IfOk, IfSome, IsTrue};
ghost use Rattle.std.specs.Prelude.{OnErr, OnOk, length, slice_get};
ghost use Rattle.scale_info_grammar.specs.Ty.{EncodesTypes};
ghost use Rattle.scale_info_table_prune.specs.Prunes.{AppendsPruned, HasNewIds, IsNumbered};
ghost use Rattle.scale_info_table_prune.specs.Prunes.{IsNumberedFrom, IsOrderFrom};
ghost use Rattle.scale_info_table_prune.specs.Prunes.{IsRootsNumberingError};
ghost use Rattle.scale_info_table_prune.specs.Prunes.{IsTableError, IsTypesPruneError};
ghost use Rattle.scale_info_table_prune.specs.SameTypes.{HaveMatch, IsMatchError, IsRenumbered};
ghost use Rattle.scale_info_table_prune.specs.SameTypes.{IsTypesRenumberingError, StaysInside};
ghost use Rattle.scale_info_table_prune.specs.TableIndexes.{BeginsWithDescription, IsEncodedTable};
ghost use Rattle.scale_info_table_prune.specs.TableLaws.{table_prop};

use crate::byte_references::ByteReferences;
use crate::new_ids::{are_equal, new_ids_of};
use crate::prune::PruneError;
use crate::roots::{RootsError, first_outside, roots_of};
use crate::table_index::{append_kept, index_table};
use scale_info_passes::entries::EntryIndex;
use scale_info_types::laws::shape_and_references;
use scale_info_walk::numbers::map_of_numbers;
use scale_info_walk::walk::{Renumbering, RetainError, number_references_in};
use std::alloc::Global;
use std::collections::BTreeMap;
use std::marker::Model;

/// A table that stays bytes, and where its entries are in them.
///
/// Contracts see it as the entries that its bytes encode. Pruning bytes reads all of them first.
/// Here that is done once; then each pruning takes time for what it keeps, and for four bytes of
/// each entry, which the first one asks for.
///
/// ```text
/// let mut table = IndexedTable::of(alloc, &bytes)?;
/// table.append_pruned(alloc, &[0], &mut out)?;
/// table.append_pruned(alloc, &[7, 9], &mut other)?;
/// ```
#[derive(Drop)]
pub struct IndexedTable<'a> {
    /// The table's bytes.
    bytes: &'a [u8],
    /// How many entries there are.
    count: u32,
    /// The bytes after the count.
    body: &'a [u8],
    /// Where the entries are in them, and what they refer to.
    index: EntryIndex,
    /// The last numbering of them, whose buffers the next one reuses.
    room: Option<Renumbering>,
    ghost table: { IsEncodedTable bytes.now } by { table_prop bytes.now },
}

impl<'a> Model for IndexedTable<'a> {
    ghost use Rattle.std.specs.Prelude.{List};
    ghost use Rattle.scale_info_table_prune.specs.TableIndexes.{IsTableIndex};
    ghost use Rattle.scale_info_types.specs.declared.ty.PortableType.{PortableType};
    ghost use Rattle.scale_info_walk.specs.Walks.{IsRoom};

    ghost Value = { List PortableType };

    ghost view = { λ indexed. indexed.table.0 };

    ghost invariant = { λ indexed.
        IsTableIndex indexed.table.0 indexed.count indexed.bytes.now indexed.body.now
        indexed.index.offsets.items indexed.index.starts.items indexed.index.references.items
        × IsRoom indexed.count indexed.room };
}

impl<'a> IndexedTable<'a> {
    /// The index of the table that these bytes are.
    ///
    /// Errors: `Malformed`, where no prefix of the bytes is a table; `Trailing`, where bytes come
    /// after it; `Memory`, where an allocation failed.
    pub fn of(alloc: Global, bytes: &'a [u8]) -> Result<IndexedTable<'a>, PruneError>
        ensures ok { IfOk result (λ table. EncodesTypes table bytes.now) }
        ensures err { IfErr result (IsTableError bytes.now) }
    {
        let (count, body, index) = index_table(alloc, bytes)?;
        Ok(IndexedTable {
            bytes,
            count,
            body,
            index,
            room: None,
        })
    }

    /// The bytes of the table, which are its encoding.
    pub fn as_bytes(&self) -> &'a [u8]
        ensures { EncodesTypes self.now result.now }
    {
        self.bytes
    }

    /// The number of entries.
    pub fn len(&self) -> usize
        ensures { result ≡ length self.now }
    {
        self.count as usize
    }

    /// The bytes from the description of the entry with this id on; None, where it is no index.
    pub fn description_at(&self, id: u32) -> Option<&'a [u8]>
        ensures some { IfSome result (λ bytes. BeginsWithDescription self.now id bytes.now) }
        ensures none { IfNone result (slice_get self.now id ≡ None) }
    {
        let Some(offset) = self.index.offsets.get(id as usize) else {
            return None;
        };
        Some(&self.body[*offset..])
    }

    /// Prunes the table: appends the table of what the given ids reach, and returns the new id of
    /// each old one that is kept, as [`prune`] does of bytes. It is made reusing the buffers of the
    /// last such call, so each but the first takes time for what is kept, now and by that one,
    /// however many entries there are.
    ///
    /// Errors: `NoSuchType`, for the first given id that is no index; `Dangling`, for the first id
    /// that is reached and is no index; `Memory`, where an allocation failed. On an Err the output
    /// is as before.
    ///
    /// [`prune`]: crate::prune::prune
    pub fn prune(
        &mut self,
        alloc: Global,
        ids: &[u32],
        out: &mut Vec<u8>,
    ) -> Result<BTreeMap<u32, u32>, PruneError>
        ensures ok { IfOk result (λ new_ids. (order : List ℕ) × HasNewIds order new_ids
            × AppendsPruned self.old ids.now order out.old.items out.new.items) }
        ensures err { OnErr result (out.new.items ≡ out.old.items) }
        ensures cause { IfErr result (IsTypesPruneError self.old ids.now) }
        ensures table { self.new ≡ self.old }
    {
        let found = self.number(alloc, ids)?;
        let new_ids = map_of_numbers(alloc, &found.numbers)?;
        append_kept(alloc, self.body, &self.index, &found, out)?;
        self.room = Some(found);
        Ok(new_ids)
    }

    /// Appends what [`prune`](IndexedTable::prune) appends, and makes no map of ids.
    ///
    /// Errors: as those of [`prune`](IndexedTable::prune).
    pub fn append_pruned(
        &mut self,
        alloc: Global,
        ids: &[u32],
        out: &mut Vec<u8>,
    ) -> Result<(), PruneError>
        ensures ok { OnOk result ((order : List ℕ)
            × AppendsPruned self.old ids.now order out.old.items out.new.items) }
        ensures err { OnErr result (out.new.items ≡ out.old.items) }
        ensures cause { IfErr result (IsTypesPruneError self.old ids.now) }
        ensures table { self.new ≡ self.old }
    {
        let found = self.number(alloc, ids)?;
        append_kept(alloc, self.body, &self.index, &found, out)?;
        self.room = Some(found);
        Ok(())
    }

    /// The ids of what the given ids reach, in depth-first order of discovery: what
    /// [`prune`](IndexedTable::prune) keeps, in its order. Nothing is copied but these ids.
    ///
    /// Errors: as those of [`prune`](IndexedTable::prune).
    ///
    /// ```text
    /// table.order_from(alloc, &[7, 0])?  // [0, 3, 4, 7, 9], where 0 refers to 3 and 4, and 7 to 9
    /// ```
    pub fn order_from(&mut self, alloc: Global, ids: &[u32]) -> Result<Vec<u32>, PruneError>
        ensures ok { IfOk result (λ order. IsOrderFrom self.old ids.now order.items) }
        ensures cause { IfErr result (IsTypesPruneError self.old ids.now) }
        ensures table { self.new ≡ self.old }
    {
        let found = self.number(alloc, ids)?;
        let mut order = Vec::new(alloc);
        order.extend_from_slice(&found.order)?;
        self.room = Some(found);
        Ok(order)
    }

    /// Whether types of two tables are the same, as [`same_types`] says it of bytes. Each table is
    /// numbered reusing the buffers of its last numbering, so this takes time for what is reached,
    /// now and by that one.
    ///
    /// Errors, of this table before the other: `NoSuchType`, for the first id that is no index;
    /// `Dangling`, for the first id that is reached and is none; `Memory`, where an allocation
    /// failed.
    ///
    /// [`same_types`]: crate::same_types::same_types
    pub fn same_types(
        &mut self,
        alloc: Global,
        ids: &[u32],
        other: &mut IndexedTable<'_>,
        others: &[u32],
    ) -> Result<bool, PruneError>
        ensures ok { IfOk result (λ same. IsTrue same
            ↔ HaveMatch self.old ids.now other.old others.now) }
        ensures inside { OnOk result (StaysInside self.old ids.now) }
        ensures others_inside { OnOk result (StaysInside other.old others.now) }
        ensures cause { IfErr result (IsMatchError self.old ids.now other.old others.now) }
        ensures table { self.new ≡ self.old }
        ensures other { other.new ≡ other.old }
    {
        shape_and_references();
        let (bytes, new_ids) = self.renumbered(alloc, ids)?;
        let (other_bytes, other_ids) = other.renumbered(alloc, others)?;
        Ok(are_equal(&bytes, &other_bytes, &new_ids, &other_ids))
    }

    /// The table of what the ids reach, numbered from them in their order, and their new ids.
    ///
    /// Errors: as those of [`same_types`](IndexedTable::same_types), for one table.
    pub(crate) fn renumbered(
        &mut self,
        alloc: Global,
        ids: &[u32],
    ) -> Result<(Vec<u8>, Vec<u32>), PruneError>
        ensures ok { IfOk result (λ found. IsRenumbered self.old ids.now found.0.items
            found.1.items) }
        ensures cause { IfErr result (IsTypesRenumberingError self.old ids.now) }
        ensures table { self.new ≡ self.old }
    {
        if let Some(id) = first_outside(self.count, ids) {
            return Err(PruneError::NoSuchType(id));
        }
        let found = self.number_from(alloc, ids)?;
        let mut bytes = Vec::new(alloc);
        append_kept(alloc, self.body, &self.index, &found, &mut bytes)?;
        let new_ids = new_ids_of(alloc, &found.numbers, ids)?;
        self.room = Some(found);
        Ok((bytes, new_ids))
    }

    /// Numbers what the given ids reach, in ascending order, each once.
    ///
    /// Errors: as those of [`prune`](IndexedTable::prune).
    fn number(&mut self, alloc: Global, ids: &[u32]) -> Result<Renumbering, PruneError>
        ensures ok { IfOk result (λ found. IsNumbered self.old ids.now found.order.items
            found.numbers.items) }
        ensures cause { IfErr result (IsTypesPruneError self.old ids.now) }
        ensures table { self.new ≡ self.old }
    {
        let roots = match roots_of(alloc, self.count, ids) {
            Ok(roots) => roots,
            Err(RootsError::NoSuchType(id)) => return Err(PruneError::NoSuchType(id)),
            Err(RootsError::Memory) => return Err(PruneError::Memory),
        };
        self.number_from(alloc, &roots)
    }

    /// Numbers what the roots reach, in their order, reusing the buffers of the last numbering, if
    /// there is one.
    ///
    /// Errors: `Dangling`, for the first id that is reached and is no index; `Memory`, where an
    /// allocation failed.
    fn number_from(&mut self, alloc: Global, roots: &[u32]) -> Result<Renumbering, PruneError>
        ensures ok { IfOk result (λ found. IsNumberedFrom self.old roots.now found.order.items
            found.numbers.items) }
        ensures cause { IfErr result (IsRootsNumberingError self.old roots.now) }
        ensures table { self.new ≡ self.old }
    {
        let room = self.room.take();
        let source = ByteReferences {
            starts: &self.index.starts,
            references: &self.index.references,
        };
        match number_references_in(alloc, &source, roots, room) {
            Ok(found) => Ok(found),
            Err(RetainError::Dangling { id }) => Err(PruneError::Dangling(id)),
            Err(RetainError::Memory) => Err(PruneError::Memory),
            Err(RetainError::TooManyTypes) => unreachable!(),
        }
    }
}
