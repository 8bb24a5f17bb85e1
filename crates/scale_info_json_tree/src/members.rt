//! Objects: a value says its members once, for the tree and for the text.
ghost use Rattle.std.specs.Prelude.{◌≡◌, List, ℕ, Some, None, true, refl, IfOk, IfErr, OnOk};
ghost use Rattle.std.specs.Prelude.{IfSome, option_map};
ghost use Rattle.json.specs.Token.{Token};
ghost use Rattle.serde_json.specs.Data.{Data, Members as DataMembers, null};
ghost use Rattle.serde_json.specs.View.{view, members_view};
ghost use Rattle.scale_info_json_tree.specs.JsonErrors.{IfShape};
ghost use Rattle.scale_info_json_trees.specs.Meaning.{IsMeaning, IsMeaningless, MeansList};
ghost use Rattle.scale_info_json_trees.specs.Written.{Row, list_tree, unless_empty, or_null};
ghost use Rattle.scale_info_json_trees.specs.Written.{object_tree};
ghost use Rattle.scale_info_json_trees.specs.Steps.{put_row, append_row, after_rows, in_order};

use crate::error::JsonError;
use crate::tree::Json;
use json::Writer;
use scale_info_collections::items::Items;
use serde_json::{Map, Value};
use std::alloc::{AllocError, Global};

/// Where the members of an object are written, one after another.
pub trait ObjectWriter {
    /// What a writer's state is.
    ghost State: { Type 0 };

    /// What was written so far.
    ghost state: { Self → State };

    /// What a state becomes by one row.
    ghost step: { Row → State → State };

    /// Writes a key and the value's tree.
    ///
    /// Errors: `AllocError`, if an allocation failed.
    fn write_member<T: Json>(&mut self, key: &str, value: &T) -> Result<(), AllocError>
        ensures ok { OnOk result (state self.new
            ≡ step (key.now, Some (T.written value.now)) (state self.old)) }
        ensures means { OnOk result (T.meant (T.written value.now) value.now) };

    /// Writes a key and null.
    ///
    /// Errors: `AllocError`, if an allocation failed.
    fn write_null(&mut self, key: &str) -> Result<(), AllocError>
        ensures { OnOk result (state self.new ≡ step (key.now, Some null) (state self.old)) };

    /// Writes a key and a list, and leaves both out where the list is empty.
    ///
    /// Errors: `AllocError`, if an allocation failed.
    fn write_unless_empty<T: Json>(&mut self, key: &str, list: &Items<T>) -> Result<(), AllocError>
        ensures ok { OnOk result (state self.new
            ≡ step (key.now, unless_empty T.written list.now) (state self.old)) }
        ensures means { OnOk result (MeansList T.meant (list_tree T.written list.now) list.now) }
    {
        if list.is_empty() {
            return Ok(());
        }
        self.write_member(key, list)
    }

    /// Writes a key and a value, and leaves both out where there is no value.
    ///
    /// Errors: `AllocError`, if an allocation failed.
    fn write_unless_none<T: Json>(&mut self, key: &str, value: &Option<T>) -> Result<(), AllocError>
        ensures ok { OnOk result (state self.new
            ≡ step (key.now, option_map T.written value.now) (state self.old)) }
        ensures means { OnOk result (IfSome value.now (λ v. T.meant (T.written v) v)) }
    {
        match value {
            None => Ok(()),
            Some(value) => self.write_member(key, value),
        }
    }

    /// Writes a key and a value, and null where there is no value.
    ///
    /// Errors: `AllocError`, if an allocation failed.
    fn write_or_null<T: Json>(&mut self, key: &str, value: &Option<T>) -> Result<(), AllocError>
        ensures ok { OnOk result (state self.new
            ≡ step (key.now, Some (or_null T.written value.now)) (state self.old)) }
        ensures means { OnOk result (IfSome value.now (λ v. T.meant (T.written v) v)) }
    {
        match value {
            None => self.write_null(key),
            Some(value) => self.write_member(key, value),
        }
    }

    /// A key that is left out changes nothing.
    ghost left_out: { (key : List ℕ) (s : State) → step (key, None) s ≡ s };
}

/// An object that becomes a tree.
#[derive(Drop)]
struct TreeBuilder {
    alloc: Global,
    members: Map<String, Value>,
}

impl ObjectWriter for TreeBuilder {
    ghost State = { DataMembers };

    ghost state = { λ o. members_view o.members.entries };

    ghost step = { put_row };

    fn write_member<T: Json>(&mut self, key: &str, value: &T) -> Result<(), AllocError> {
        let tree = value.to_json(self.alloc)?;
        serde_json::put(&mut self.members, self.alloc, key, tree)
    }

    fn write_null(&mut self, key: &str) -> Result<(), AllocError> {
        serde_json::put(&mut self.members, self.alloc, key, Value::Null)
    }

    ghost left_out = { λ key s. refl };
}

impl ObjectWriter for Writer {
    ghost State = { List ℕ × List Token };

    ghost state = { λ w. (w.before, w.tokens) };

    ghost step = { append_row };

    fn write_member<T: Json>(&mut self, key: &str, value: &T) -> Result<(), AllocError> {
        self.key(key)?;
        value.write_json(self)
    }

    fn write_null(&mut self, key: &str) -> Result<(), AllocError> {
        self.key(key)?;
        self.null()
    }

    ghost left_out = { λ key s. refl };
}

/// A value whose tree is an object.
pub trait Object: Drop {
    /// Its keys in byte order, and how each is written.
    ghost rows: { Self → List Row };

    /// The tree means the value.
    ghost meant: { Data → Self → Type 0 };

    /// Writes the members, in the order of the rows. What was written means the value.
    ///
    /// Errors: `AllocError`, if an allocation failed.
    fn write_members<W: ObjectWriter>(&self, out: &mut W) -> Result<(), AllocError>
        ensures ok { OnOk result (W.state out.new
            ≡ after_rows W.step (rows self.now) (W.state out.old)) }
        ensures means { OnOk result (meant (object_tree (rows self.now)) self.now) };

    /// The value that a tree means.
    ///
    /// Errors: `Shape`, where it means none; `Memory`, if an allocation failed.
    fn read_members(alloc: Global, tree: &Value) -> Result<Self, JsonError>
        ensures ok { IfOk result (λ value. meant (view tree.now) value) }
        ensures shape { IfErr result (IfShape (IsMeaningless (meant (view tree.now)))) };

    /// The keys are in byte order.
    ghost ordered: { (v : Self) → in_order (rows v) ≡ true };

    /// A tree means at most one value, and null means none.
    ghost law: { IsMeaning meant };
}

impl<T: Object> Json for T {
    ghost written = { λ v. object_tree (T.rows v) };

    ghost meant = { T.meant };

    fn to_json(&self, alloc: Global) -> Result<Value, AllocError> {
        let mut object = TreeBuilder {
            alloc,
            members: Map::new(alloc),
        };
        self.write_members(&mut object)?;
        Ok(Value::Object(object.members))
    }

    fn write_json(&self, out: &mut Writer) -> Result<(), AllocError> {
        out.begin_object()?;
        self.write_members(out)?;
        out.end_object()
    }

    fn from_json(alloc: Global, tree: &Value) -> Result<T, JsonError> {
        T::read_members(alloc, tree)
    }

    ghost law = { T.law };
}
