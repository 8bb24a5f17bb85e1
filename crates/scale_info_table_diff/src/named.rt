//! Tables of which the types are found by their paths.
ghost use Rattle.std.specs.Prelude.{◌≡◌, IfOk, IfErr, List, map};
ghost use Rattle.scale_info_table_diff.specs.NamedTables.{AreTypesByPath};
ghost use Rattle.scale_info_table_diff.specs.TypesByPath.{ids_of};
ghost use Rattle.scale_info_grammar.specs.Ty.{EncodesTypes};
ghost use Rattle.scale_info_table_prune.specs.Prunes.{IsTableError};
ghost use Rattle.scale_info_table_prune.specs.declared.prune.PruneError.TheVariants as prune_error;
ghost use Rattle.scale_info_types.specs.declared.ty.PortableType.{PortableType};

use crate::paths::paths_with_ids;
use scale_info_bytes::error::DecodeError;
use scale_info_collections::text::Text;
use scale_info_interner::interner::Interner;
use scale_info_table::portable::PortableRegistry;
use scale_info_table_prune::indexed::IndexedTable;
use scale_info_table_prune::prune::PruneError;
use std::alloc::Global;
use std::marker::Model;

/// A table that stays bytes, with its types by their paths.
///
/// Contracts see it as the entries that its bytes encode. It is read once, however often it is
/// compared. Where something is told of its types, it is decoded once more, and held so.
///
/// ```text
/// let table = NamedTable::of(alloc, &bytes)?;
/// table.ids_of(&Text::try_from_str(alloc, "a::T")?)   // [3, 7]
/// ```
#[derive(Drop)]
pub struct NamedTable<'a> {
    /// The table's bytes, and where its entries are in them.
    pub(crate) table: IndexedTable<'a>,
    /// The same table, decoded, from when something is told of its types on.
    pub(crate) decoded: Option<PortableRegistry>,
    /// The paths of its types, each once, in the order of the first types that have them.
    pub(crate) paths: Interner<Text>,
    /// For each path the ids of its types, ascending.
    pub(crate) ids: Vec<Vec<u32>>,
}

impl<'a> Model for NamedTable<'a> {
    ghost use Rattle.std.specs.Prelude.{◌≡◌, IfSome, List, map};
    ghost use Rattle.scale_info_table_diff.specs.NamedTables.{AreTypesByPath};
    ghost use Rattle.scale_info_types.specs.declared.ty.PortableType.{PortableType};

    ghost Value = { List PortableType };

    ghost view = { λ named. named.table };

    ghost invariant = { λ named. IfSome named.decoded (λ decoded. decoded.types ≡ named.table)
        × AreTypesByPath named.table named.paths (map (λ row. row.items) named.ids.items) };
}

impl<'a> NamedTable<'a> {
    /// The table that these bytes are.
    ///
    /// Errors: `Malformed`, where no prefix of them is a table; `Trailing`, where bytes come after
    /// it; `Memory`, where an allocation failed.
    pub fn of(alloc: Global, bytes: &'a [u8]) -> Result<NamedTable<'a>, PruneError>
        ensures ok { IfOk result (λ table. EncodesTypes table bytes.now) }
        ensures cause { IfErr result (IsTableError bytes.now) }
    {
        let (paths, ids) = paths_in(alloc, bytes)?;
        let table = IndexedTable::of(alloc, bytes)?;
        Ok(NamedTable {
            table,
            decoded: None,
            paths,
            ids,
        })
    }

    /// The table, decoded before or now.
    ///
    /// Errors: `Memory`, where an allocation failed.
    pub(crate) fn decode(&mut self, alloc: Global) -> Result<PortableRegistry, PruneError>
        ensures ok { IfOk result (λ table. table.types ≡ self.old) }
        ensures err { IfErr result (λ e. e ≡ prune_error.Memory) }
        ensures same { self.new ≡ self.old }
    {
        if let Some(table) = self.decoded.take() {
            return Ok(table);
        }
        table_of(alloc, self.table.as_bytes())
    }

    /// The bytes of the table, which are its encoding.
    pub fn as_bytes(&self) -> &'a [u8]
        ensures { EncodesTypes self.now result.now }
    {
        self.table.as_bytes()
    }

    /// The ids, ascending, of the types with this path; none, where no type has it.
    pub fn ids_of(&self, path: &Text) -> &[u32]
        ensures { result.now ≡ ids_of path.now self.now }
    {
        row_of(&self.paths, &self.ids, path)
    }
}

/// The ids, ascending, of the types with this path, by all paths and the ids of the types with each.
pub(crate) fn row_of<'r>(paths: &Interner<Text>, ids: &'r [Vec<u32>], path: &Text) -> &'r [u32]
    ensures { (types : List PortableType)
        → AreTypesByPath types paths.now (map (λ row. row.items) ids.now)
        → result.now ≡ ids_of path.now types }
{
    let Some(symbol) = paths.get(path) else {
        return &[];
    };
    match ids.get(symbol.into_untracked().id as usize) {
        Some(row) => row,
        None => &[],
    }
}

/// The paths of the types of the table that bytes are, and the ids of the types with each. The
/// table is decoded for it, and let go.
///
/// Errors: as those of [`NamedTable::of`].
fn paths_in(alloc: Global, bytes: &[u8]) -> Result<(Interner<Text>, Vec<Vec<u32>>), PruneError>
    ensures ok { IfOk result (λ found. (types : List PortableType) × EncodesTypes types bytes.now
        × AreTypesByPath types found.0 (map (λ row. row.items) found.1.items)) }
    ensures cause { IfErr result (IsTableError bytes.now) }
{
    let table = table_of(alloc, bytes)?;
    Ok(paths_with_ids(alloc, table.types())?)
}

/// The table that bytes are.
///
/// Errors: as those of [`NamedTable::of`].
pub(crate) fn table_of(alloc: Global, bytes: &[u8]) -> Result<PortableRegistry, PruneError>
    ensures ok { IfOk result (λ table. EncodesTypes table.types bytes.now) }
    ensures cause { IfErr result (IsTableError bytes.now) }
{
    let (table, rest) = match PortableRegistry::decode(alloc, bytes) {
        Ok(found) => found,
        Err(DecodeError::Malformed) => return Err(PruneError::Malformed),
        Err(DecodeError::Memory) => return Err(PruneError::Memory),
    };
    if !rest.is_empty() {
        return Err(PruneError::Trailing);
    }
    Ok(table)
}
