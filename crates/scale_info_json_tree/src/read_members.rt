//! The members of an object that is read.
ghost use Rattle.std.specs.Prelude.{◌≡◌, IfOk, IfErr, option_map};
ghost use Rattle.serde_json.specs.Find.{get};
ghost use Rattle.serde_json.specs.View.{view};
ghost use Rattle.scale_info_json_trees.specs.Meaning.{IsObject, HasValue, HasList, HasOption};
ghost use Rattle.scale_info_json_trees.specs.Meaning.{unless_null};
ghost use Rattle.scale_info_json_tree.specs.JsonErrors.{IfShape};
ghost use Rattle.scale_info_json_trees.specs.Meaning.{IsMeaningless};

use crate::error::JsonError;
use crate::tree::Json;
use scale_info_collections::items::Items;
use serde_json::Value;
use std::alloc::Global;

/// Finds that a tree is an object.
///
/// Errors: `Shape`, where it is none.
pub fn require_object(tree: &Value) -> Result<(), JsonError>
    ensures ok { IfOk result (λ _. IsObject (view tree.now)) }
    ensures shape { IfErr result (IfShape (IsObject (view tree.now) → ⊥)) }
{
    if tree.is_object() {
        Ok(())
    } else {
        Err(JsonError::Shape)
    }
}

/// The value of a required key.
///
/// Errors: `Shape`, where the key is missing or its tree means no value; `Memory`, where an
/// allocation failed.
pub fn required<T: Json>(alloc: Global, tree: &Value, key: &str) -> Result<T, JsonError>
    ensures ok { IfOk result (HasValue key.now T.meant (view tree.now)) }
    ensures shape { IfErr result (IfShape
        (IsMeaningless (HasValue key.now T.meant (view tree.now)))) }
{
    match tree.get(key) {
        Some(found) => T::from_json(alloc, found),
        None => Err(JsonError::Shape),
    }
}

/// The list of a key; empty where the key is missing.
///
/// Errors: `Shape`, where the key's tree means no list; `Memory`, if an allocation failed.
pub fn list_or_empty<T: Json>(alloc: Global, tree: &Value, key: &str) -> Result<Items<T>, JsonError>
    ensures ok { IfOk result (HasList key.now T.meant (view tree.now)) }
    ensures shape { IfErr result (IfShape
        (IsMeaningless (HasList key.now T.meant (view tree.now)))) }
{
    let Some(found) = tree.get(key) else {
        return Ok(Items::new(alloc));
    };
    Items::<T>::from_json(alloc, found)
}

/// The tree of a key; None where the key is missing or has null.
fn present<'t>(tree: &'t Value, key: &str) -> Option<&'t Value>
    ensures { option_map (λ found. view found.now) result
        ≡ unless_null (get key.now (view tree.now)) }
{
    match tree.get(key) {
        Some(found) if !found.is_null() => Some(found),
        _ => None,
    }
}

/// The value of a key; None where the key is missing or has null.
///
/// Errors: `Shape`, where the key's tree is not null and means no value; `Memory`, where an
/// allocation failed.
pub fn value_or_none<T: Json>(
    alloc: Global,
    tree: &Value,
    key: &str,
) -> Result<Option<T>, JsonError>
    ensures ok { IfOk result (HasOption key.now T.meant (view tree.now)) }
    ensures shape { IfErr result (IfShape
        (IsMeaningless (HasOption key.now T.meant (view tree.now)))) }
{
    match present(tree, key) {
        Some(found) => Ok(Some(T::from_json(alloc, found)?)),
        None => Ok(None),
    }
}
