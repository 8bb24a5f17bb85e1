//! Integers of a text.
ghost use Rattle.std.specs.Prelude.{◌∷◌, ◌^◌, IfOk, IfErr};
ghost use Rattle.json.specs.Reads.{token_of};
ghost use Rattle.scale_info_json_trees.specs.Meaning.{MeansNumber};
ghost use Rattle.scale_info_json_trees.specs.PartTrees.{MeansId};
ghost use Rattle.scale_info_json_text.specs.Readings.{IfSyntax, IsMeant, Reads, HasNoTree};

use crate::json_text::JsonText;
use crate::number::unsigned;
use crate::pass::pass_rest;
use crate::source::{Reading, TextSource};
use json::{Reader, Token};
use scale_info_identities::symbol::UntrackedSymbol;
use scale_info_identities::type_id::TypeId;

/// Reads the integer below the limit that comes next, of which the first token is taken; None
/// where another value does.
///
/// Errors: `Syntax`, where no tree's text begins so.
fn number_below(limit: u64, token: Token<'_>, reader: &mut Reader<'_>, depth: usize) -> Reading<u64>
    ensures ok { IfOk result (λ found. Reads (λ tree. IsMeant (MeansNumber limit tree) found) depth
        (token_of token.entry ∷ reader.old) reader.new) }
    ensures syntax { IfErr result
        (IfSyntax (HasNoTree depth (token_of token.entry ∷ reader.old))) }
{
    if let Token::Number(text) = token {
        return match unsigned(text)? {
            Some(number) if number < limit => Ok(Some(number)),
            _ => Ok(None),
        };
    }
    pass_rest(token, reader, depth)?;
    Ok(None)
}

impl JsonText for u32 {
    ghost meant = { MeansNumber (2 ^ 32) };

    fn from_token(token: Token<'_>, source: &mut TextSource<'_>, depth: usize) -> Reading<Self> {
        match number_below(4294967296, token, &mut source.reader, depth)? {
            Some(number) => Ok(Some(number as u32)),
            None => Ok(None),
        }
    }
}

impl JsonText for u8 {
    ghost meant = { MeansNumber 256 };

    fn from_token(token: Token<'_>, source: &mut TextSource<'_>, depth: usize) -> Reading<Self> {
        match number_below(256, token, &mut source.reader, depth)? {
            Some(number) => Ok(Some(number as u8)),
            None => Ok(None),
        }
    }
}

impl JsonText for UntrackedSymbol<TypeId> {
    ghost meant = { MeansId };

    fn from_token(token: Token<'_>, source: &mut TextSource<'_>, depth: usize) -> Reading<Self> {
        match u32::from_token(token, source, depth)? {
            Some(id) => Ok(Some(UntrackedSymbol::from(id))),
            None => Ok(None),
        }
    }
}
