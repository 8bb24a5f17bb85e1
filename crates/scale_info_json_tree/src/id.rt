//! Ids as trees.
ghost use Rattle.scale_info_json_trees.specs.PartTrees.{id_tree, MeansId};
ghost use Rattle.scale_info_json_tree.specs.ObjectLaws.{id_law};

use crate::error::JsonError;
use crate::tree::Json;
use json::Writer;
use scale_info_identities::symbol::UntrackedSymbol;
use scale_info_identities::type_id::TypeId;
use serde_json::Value;
use std::alloc::{AllocError, Global};

impl Json for UntrackedSymbol<TypeId> {
    ghost written = { id_tree };

    ghost meant = { MeansId };

    fn to_json(&self, _alloc: Global) -> Result<Value, AllocError> {
        Ok(Value::from(self.id))
    }

    fn write_json(&self, out: &mut Writer) -> Result<(), AllocError> {
        out.u64(self.id as u64)
    }

    fn from_json(alloc: Global, tree: &Value) -> Result<UntrackedSymbol<TypeId>, JsonError> {
        Ok(UntrackedSymbol::from(u32::from_json(alloc, tree)?))
    }

    ghost law = { id_law };
}
