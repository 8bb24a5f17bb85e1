//! Primitives of a text.
ghost use Rattle.scale_info_json_trees.specs.DefinitionTrees.{MeansPrimitive};

use crate::json_text::JsonText;
use crate::pass::pass_rest;
use crate::source::{Reading, TextSource};
use json::Token;
use scale_info_json_tree::primitive_named;
use scale_info_types::ty::TypeDefPrimitive;

impl JsonText for TypeDefPrimitive {
    ghost meant = { MeansPrimitive };

    fn from_token(token: Token<'_>, source: &mut TextSource<'_>, depth: usize) -> Reading<Self> {
        if let Token::String(name) = token {
            return Ok(primitive_named(name));
        }
        pass_rest(token, &mut source.reader, depth)?;
        Ok(None)
    }
}
