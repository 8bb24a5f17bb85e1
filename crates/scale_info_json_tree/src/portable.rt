//! Tables as JSON trees and as JSON text.
ghost use Rattle.std.specs.Prelude.{◌≡◌, ◌++◌, refl, IfOk, IfErr};
ghost use Rattle.serde_json.specs.View.{view};
ghost use Rattle.serde_json.specs.Written.{compact_text};
ghost use Rattle.scale_info_json_tree.specs.JsonErrors.{IfShape};
ghost use Rattle.scale_info_json_trees.specs.Meaning.{IsMeaningless};
ghost use Rattle.scale_info_json_tree.specs.JsonTables.{table_rows, table_tree, MeansTable};
ghost use Rattle.scale_info_json_tree.specs.ObjectLaws.{table_law};

use crate::error::JsonError;
use crate::members::{Object, ObjectWriter};
use crate::read_members::{require_object, required};
use crate::tree::Json;
use json::Writer;
use scale_info_table::portable::PortableRegistry;
use std::alloc::{AllocError, Global};

impl Object for PortableRegistry {
    ghost rows = { table_rows };

    ghost meant = { MeansTable };

    fn write_members<W: ObjectWriter>(&self, out: &mut W) -> Result<(), AllocError> {
        out.write_member("types", &self.types)
    }

    fn read_members(
        alloc: Global,
        tree: &serde_json::Value,
    ) -> Result<PortableRegistry, JsonError> {
        require_object(tree)?;
        let types = required(alloc, tree, "types")?;
        Ok(PortableRegistry { types })
    }

    ghost ordered = { λ v. refl };

    ghost law = { table_law };
}

/// The JSON tree of a table, as the Rust crate's `Serialize` makes it, with keys in byte order.
///
/// Empty lists and absent names are left out; a skipped parameter has `"type":null`. A table has
/// one written tree, and it means the table.
///
/// Errors: `AllocError`, if an allocation failed.
///
/// ```text
/// let tree = to_json(alloc, &table)?;
/// let text = tree.to_string(alloc)?; // {"types":[]} for the empty table
/// ```
pub fn to_json(alloc: Global, table: &PortableRegistry) -> Result<serde_json::Value, AllocError>
    ensures ok { IfOk result (λ tree. view tree ≡ table_tree table.now) }
    ensures means { IfOk result (λ tree. MeansTable (view tree) table.now) }
{
    let tree = Json::to_json(table, alloc)?;
    Ok(tree)
}

/// The table that a JSON tree means. A tree means at most one.
///
/// Missing lists are empty, and a missing or null name or parameter type is none. Every other key
/// is required. Keys that a value doesn't have are ignored, except in `def`, which has one key.
/// Ids and `len` are 0 to 4294967295, and `index` is 0 to 255. A number that the tree holds as a
/// float, as `1.0` or `-0`, is none of them.
///
/// Errors: `Shape`, where the tree means no table; `Memory`, if an allocation failed.
///
/// ```text
/// let tree = serde_json::Value::from_str(alloc, "{\"types\":[]}")?;
/// let table = from_json(alloc, &tree)?; // the empty table
/// ```
pub fn from_json(alloc: Global, tree: &serde_json::Value) -> Result<PortableRegistry, JsonError>
    ensures ok { IfOk result (λ table. MeansTable (view tree.now) table) }
    ensures shape { IfErr result (IfShape (IsMeaningless (MeansTable (view tree.now)))) }
{
    Json::from_json(alloc, tree)
}

/// Appends the compact text of the table's tree, byte for byte as `serde_json` prints that tree.
///
/// No tree is made: for a large table this takes a small part of the time and memory of
/// [`to_json`]. The buffer is returned with the text after what it held.
///
/// Errors: `AllocError`, if an allocation failed; the buffer is then dropped.
///
/// ```text
/// let text = append_json(&table, Vec::new(alloc))?;
/// ```
pub fn append_json(table: &PortableRegistry, out: Vec<u8>) -> Result<Vec<u8>, AllocError>
    ensures text { IfOk result (λ bytes.
        bytes.items ≡ out.items ++ compact_text (table_tree table.now)) }
    ensures means { IfOk result (λ bytes. MeansTable (table_tree table.now) table.now) }
{
    let mut writer = Writer::new(out);
    table.write_json(&mut writer)?;
    Ok(writer.into_inner())
}
