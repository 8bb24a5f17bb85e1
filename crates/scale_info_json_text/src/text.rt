//! Strings of a text.
ghost use Rattle.scale_info_json_trees.specs.Meaning.{MeansText};

use crate::json_text::JsonText;
use crate::pass::pass_rest;
use crate::source::{Reading, TextSource};
use json::Token;
use scale_info_collections::text::Text;

impl JsonText for Text {
    ghost meant = { MeansText };

    fn from_token(token: Token<'_>, source: &mut TextSource<'_>, depth: usize) -> Reading<Self> {
        if let Token::String(text) = token {
            return Ok(Some(Text::from(String::from_str(source.alloc, text)?)));
        }
        pass_rest(token, &mut source.reader, depth)?;
        Ok(None)
    }
}
