//! Values of a text that may be null.
ghost use Rattle.scale_info_json_trees.specs.Meaning.{MeansOrNull};

use crate::json_text::JsonText;
use crate::source::{Reading, TextSource};
use json::Token;

/// None is null.
impl<T: JsonText> JsonText for Option<T> {
    ghost meant = { MeansOrNull T.meant };

    fn from_token(token: Token<'_>, source: &mut TextSource<'_>, depth: usize) -> Reading<Self> {
        if let Token::Null = token {
            return Ok(Some(None));
        }
        match T::from_token(token, source, depth)? {
            Some(value) => Ok(Some(Some(value))),
            None => Ok(None),
        }
    }
}
