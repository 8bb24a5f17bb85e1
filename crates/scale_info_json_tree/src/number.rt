//! Numbers as trees.
ghost use Rattle.std.specs.Prelude.{◌^◌, IfOk, IfErr};
ghost use Rattle.serde_json.specs.Data.{number, unsigned};
ghost use Rattle.serde_json.specs.View.{view};
ghost use Rattle.scale_info_json_tree.specs.JsonErrors.{IfShape};
ghost use Rattle.scale_info_json_trees.specs.Meaning.{MeansNumber, IsMeaningless};
ghost use Rattle.scale_info_json_tree.specs.Laws.{number_law};

use crate::error::JsonError;
use crate::tree::Json;
use json::Writer;
use serde_json::Value;
use std::alloc::{AllocError, Global};

/// The integer below the limit that a tree means.
///
/// Errors: `Shape`, where it means none; a float means none.
fn number_below(tree: &Value, limit: u64) -> Result<u64, JsonError>
    ensures ok { IfOk result (MeansNumber limit (view tree.now)) }
    ensures shape { IfErr result (IfShape (IsMeaningless (MeansNumber limit (view tree.now)))) }
{
    match tree.as_u64() {
        Some(number) if number < limit => Ok(number),
        _ => Err(JsonError::Shape),
    }
}

impl Json for u32 {
    ghost written = { λ n. number (unsigned n) };

    ghost meant = { MeansNumber (2 ^ 32) };

    fn to_json(&self, _alloc: Global) -> Result<Value, AllocError> {
        Ok(Value::from(*self))
    }

    fn write_json(&self, out: &mut Writer) -> Result<(), AllocError> {
        out.u64(*self as u64)
    }

    fn from_json(_alloc: Global, tree: &Value) -> Result<u32, JsonError> {
        Ok(number_below(tree, 4294967296)? as u32)
    }

    ghost law = { number_law (2 ^ 32) };
}

impl Json for u8 {
    ghost written = { λ n. number (unsigned n) };

    ghost meant = { MeansNumber 256 };

    fn to_json(&self, alloc: Global) -> Result<Value, AllocError> {
        u32::from(*self).to_json(alloc)
    }

    fn write_json(&self, out: &mut Writer) -> Result<(), AllocError> {
        u32::from(*self).write_json(out)
    }

    fn from_json(_alloc: Global, tree: &Value) -> Result<u8, JsonError> {
        Ok(number_below(tree, 256)? as u8)
    }

    ghost law = { number_law 256 };
}
