//! Objects of a text.
ghost use Rattle.std.specs.Prelude.{◌∷◌, IfOk, IfErr};
ghost use Rattle.json.specs.Reads.{token_of};
ghost use Rattle.serde_json.specs.Data.{Data, Members, object};
ghost use Rattle.scale_info_json_trees.specs.Meaning.{IsObject};
ghost use Rattle.scale_info_json_text.specs.Readings.{IfSyntax, IsMeant, Reads, HasNoTree};

use crate::found::{Found, read_members};
use crate::pass::pass_rest;
use crate::source::{Reading, TextSource};
use crate::stop::Stop;
use json::Token;
use std::alloc::Global;

/// A value whose tree is an object, of whose members an `F` is read.
pub trait JsonObject<F>: Drop {
    /// The tree means the value.
    ghost meant: { Data → Self → Type 0 };

    /// What was read is what the members mean.
    ghost holds: { F → Members → Type 0 };

    /// The value that the members mean; None where they mean none.
    fn finish(found: F, alloc: Global) -> Option<Self>
        ensures { (ms : Members) → holds found ms → IsMeant (meant (object ms)) result };

    /// Only objects mean a value.
    ghost only_objects: { (tree : Data) (v : Self) → meant tree v → IsObject tree };
}

/// Reads the value that an object with these keys means, of which the first token is taken; None
/// where the tree means none. Other keys are passed over.
///
/// Errors: `Syntax`, where no tree's text begins so; `Memory`, if an allocation failed.
pub fn read_object<F: Found, T: JsonObject<F>>(
    keys: F::Keys,
    token: Token<'_>,
    source: &mut TextSource<'_>,
    depth: usize,
) -> Reading<T>
    requires distinct { F.distinct keys }
    requires holds { (found : F) (ms : Members) → F.holds keys found ms → T.holds found ms }
    ensures ok { IfOk result (λ found. Reads (λ tree. IsMeant (T.meant tree) found) depth
        (token_of token.entry ∷ source.old.reader) source.new.reader) }
    ensures syntax { IfErr result
        (IfSyntax (HasNoTree depth (token_of token.entry ∷ source.old.reader))) }
{
    if let Token::BeginObject = token {
        if depth == 0 {
            return Err(Stop::Syntax);
        }
        let found = read_members::<F>(keys, source, depth - 1)?;
        return Ok(T::finish(found, source.alloc));
    }
    pass_rest(token, &mut source.reader, depth)?;
    Ok(None)
}
