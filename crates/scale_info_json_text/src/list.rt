//! Lists of a text.
ghost use Rattle.std.specs.Prelude.{◌≡◌, IfOk, IfErr};
ghost use Rattle.scale_info_json_trees.specs.Meaning.{MeansEach, MeansList};
ghost use Rattle.scale_info_json_text.specs.Readings.{IfSyntax, IsMeant, ReadsItems, HasNoItems};
ghost use Rattle.scale_info_json_text.specs.Readings.{with_last};

use crate::json_text::{JsonText, read_value};
use crate::pass::pass_rest;
use crate::source::{Reading, TextSource};
use crate::stop::Stop;
use json::Token;
use scale_info_collections::items::Items;
use std::alloc::AllocError;

/// Reads the values that the items of an array mean, and its closing bracket; None where an item
/// means none.
///
/// Errors: `Syntax`, where something else comes next; `Memory`, if an allocation failed.
fn read_items<T: JsonText>(source: &mut TextSource<'_>, depth: usize) -> Reading<Items<T>>
    ensures ok { IfOk result (λ found. ReadsItems
        (λ trees. IsMeant (MeansEach T.meant trees) found) depth
        source.old.reader source.new.reader) }
    ensures syntax { IfErr result (IfSyntax (HasNoItems depth source.old.reader)) }
{
    let mut values = Some(Items::new(source.alloc));
    'items: while !source.reader.take_end_array() {
        let found = read_value(source, depth)?;
        values = with_item(values, found)?;
    }
    Ok(values)
}

/// The list with one more value at its end; None where the list or the value is none.
///
/// Errors: `AllocError`, if an allocation failed.
fn with_item<T: Drop>(
    values: Option<Items<T>>,
    found: Option<T>,
) -> Result<Option<Items<T>>, AllocError>
    ensures { IfOk result (λ list. list ≡ with_last values found) }
{
    match (values, found) {
        (Some(mut values), Some(value)) => {
            values.push(value)?;
            Ok(Some(values))
        }
        _ => Ok(None),
    }
}

impl<T: JsonText> JsonText for Items<T> {
    ghost meant = { MeansList T.meant };

    fn from_token(token: Token<'_>, source: &mut TextSource<'_>, depth: usize) -> Reading<Self> {
        if let Token::BeginArray = token {
            if depth == 0 {
                return Err(Stop::Syntax);
            }
            return read_items(source, depth - 1);
        }
        pass_rest(token, &mut source.reader, depth)?;
        Ok(None)
    }
}
