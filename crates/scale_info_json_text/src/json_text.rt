//! What it is for a value to be read from JSON text.
ghost use Rattle.std.specs.Prelude.{◌∷◌, IfOk, IfErr};
ghost use Rattle.json.specs.Reads.{token_of};
ghost use Rattle.serde_json.specs.Data.{Data};
ghost use Rattle.scale_info_json_text.specs.Readings.{IfSyntax, IsMeant, Reads, HasNoTree};

use crate::source::{Reading, TextSource};
use crate::stop::Stop;
use json::Token;

/// A value that is read from JSON text, and no tree is made.
pub trait JsonText: Drop {
    /// The tree means the value.
    ghost meant: { Data → Self → Type 0 };

    /// Reads the value that the tree of the text means, of which the first token is taken; None
    /// where the tree means none. Arrays and objects nest as deep as `depth` says.
    ///
    /// Errors: `Syntax`, where no tree's text begins so; `Memory`, if an allocation failed.
    fn from_token(token: Token<'_>, source: &mut TextSource<'_>, depth: usize) -> Reading<Self>
        ensures ok { IfOk result (λ found. Reads (λ tree. IsMeant (meant tree) found) depth
            (token_of token.entry ∷ source.old.reader) source.new.reader) }
        ensures syntax { IfErr result
            (IfSyntax (HasNoTree depth (token_of token.entry ∷ source.old.reader))) };
}

/// Reads the value that the tree of the text which comes next means; None where it means none.
///
/// Errors: `Syntax`, where no tree's text comes next; `Memory`, if an allocation failed.
pub fn read_value<T: JsonText>(source: &mut TextSource<'_>, depth: usize) -> Reading<T>
    ensures ok { IfOk result (λ found. Reads (λ tree. IsMeant (T.meant tree) found) depth
        source.old.reader source.new.reader) }
    ensures syntax { IfErr result (IfSyntax (HasNoTree depth source.old.reader)) }
{
    let token = source.reader.next().ok_or(Stop::Syntax)?;
    T::from_token(token, source, depth)
}
