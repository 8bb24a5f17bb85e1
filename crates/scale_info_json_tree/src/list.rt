//! Lists as trees.
ghost use Rattle.std.specs.Prelude.{◌≡◌, ◌++◌, ◌∷◌, [], IfOk, OnOk, map};
ghost use Rattle.serde_json.specs.View.{view};
ghost use Rattle.scale_info_json_trees.specs.Meaning.{MeansEach, MeansList};
ghost use Rattle.scale_info_json_trees.specs.Written.{list_tree};
ghost use Rattle.scale_info_json_tree.specs.Laws.{list_law};

use crate::error::JsonError;
use crate::tree::Json;
use json::Writer;
use scale_info_collections::items::Items;
use serde_json::Value;
use std::alloc::{AllocError, Global};

/// The trees of the values, in order.
fn trees_of<T: Json>(alloc: Global, values: &[T]) -> Result<Vec<Value>, AllocError>
    ensures ok { IfOk result (λ trees. map view trees.items ≡ map T.written values.now) }
    ensures means { IfOk result (λ _. MeansEach T.meant (map T.written values.now) values.now) }
{
    let mut trees = Vec::with_capacity(alloc, values.len())?;
    for value in values {
        push_tree(alloc, value, &mut trees)?;
    }
    Ok(trees)
}

/// Appends the tree of a value.
fn push_tree<T: Json>(alloc: Global, value: &T, trees: &mut Vec<Value>) -> Result<(), AllocError>
    ensures ok { OnOk result (map view trees.new.items
        ≡ map view trees.old.items ++ T.written value.now ∷ []) }
    ensures means { OnOk result (T.meant (T.written value.now) value.now) }
{
    trees.push(value.to_json(alloc)?)?;
    Ok(())
}

impl<T: Json> Json for Items<T> {
    ghost written = { list_tree T.written };

    ghost meant = { MeansList T.meant };

    fn to_json(&self, alloc: Global) -> Result<Value, AllocError> {
        Ok(Value::Array(trees_of(alloc, self.as_slice())?))
    }

    fn write_json(&self, out: &mut Writer) -> Result<(), AllocError> {
        out.begin_array()?;
        for value in self.as_slice() {
            value.write_json(out)?;
        }
        out.end_array()
    }

    fn from_json(alloc: Global, tree: &Value) -> Result<Items<T>, JsonError> {
        match tree.as_array() {
            Some(trees) => {
                let mut values = Items::with_capacity(alloc, trees.len())?;
                for tree in trees {
                    values.push(T::from_json(alloc, tree)?)?;
                }
                Ok(values)
            }
            None => Err(JsonError::Shape),
        }
    }

    ghost law = { list_law T.law };
}
