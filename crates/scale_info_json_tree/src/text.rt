//! Texts as trees.
ghost use Rattle.serde_json.specs.Data.{string};
ghost use Rattle.scale_info_json_trees.specs.Meaning.{MeansText};
ghost use Rattle.scale_info_json_tree.specs.Laws.{text_law};

use crate::error::JsonError;
use crate::tree::Json;
use json::Writer;
use scale_info_collections::text::Text;
use serde_json::Value;
use std::alloc::{AllocError, Global};

impl Json for Text {
    ghost written = { string };

    ghost meant = { MeansText };

    fn to_json(&self, alloc: Global) -> Result<Value, AllocError> {
        Value::try_from_str(alloc, self.as_str())
    }

    fn write_json(&self, out: &mut Writer) -> Result<(), AllocError> {
        out.string(self.as_str())
    }

    fn from_json(alloc: Global, tree: &Value) -> Result<Text, JsonError> {
        match tree.as_str() {
            Some(text) => Ok(Text::from(String::from_str(alloc, text)?)),
            None => Err(JsonError::Shape),
        }
    }

    ghost law = { text_law };
}
