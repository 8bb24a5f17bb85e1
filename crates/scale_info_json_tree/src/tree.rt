//! What it is for a value to have a JSON tree.
ghost use Rattle.std.specs.Prelude.{◌≡◌, ◌++◌, IfOk, IfErr, OnOk};
ghost use Rattle.serde_json.specs.Data.{Data};
ghost use Rattle.serde_json.specs.View.{view};
ghost use Rattle.scale_info_json_tree.specs.JsonErrors.{IfShape};
ghost use Rattle.scale_info_json_trees.specs.Meaning.{IsMeaning, IsMeaningless};
ghost use Rattle.scale_info_json_trees.specs.Steps.{tokens_of};

use crate::error::JsonError;
use json::Writer;
use serde_json::Value;
use std::alloc::{AllocError, Global};

/// A value that is written as a JSON tree or as its text, and read from a tree.
pub trait Json: Drop {
    /// The tree that is written for the value.
    ghost written: { Self → Data };

    /// The tree means the value.
    ghost meant: { Data → Self → Type 0 };

    /// The tree of the value. What was written means the value.
    fn to_json(&self, alloc: Global) -> Result<Value, AllocError>
        ensures ok { IfOk result (λ tree. view tree ≡ written self.now) }
        ensures means { IfOk result (λ tree. meant (written self.now) self.now) };

    /// Writes the text of that tree, and makes no tree.
    fn write_json(&self, out: &mut Writer) -> Result<(), AllocError>
        ensures before { OnOk result (out.new.before ≡ out.old.before) }
        ensures ok { OnOk result (out.new.tokens ≡ out.old.tokens ++ tokens_of (written self.now)) }
        ensures means { OnOk result (meant (written self.now) self.now) };

    /// The value that a tree means.
    ///
    /// Errors: `Shape`, where it means none; `Memory`, if an allocation failed.
    fn from_json(alloc: Global, tree: &Value) -> Result<Self, JsonError>
        ensures ok { IfOk result (λ value. meant (view tree.now) value) }
        ensures shape { IfErr result (IfShape (IsMeaningless (meant (view tree.now)))) };

    /// A tree means at most one value, and null means none.
    ghost law: { IsMeaning meant };
}
