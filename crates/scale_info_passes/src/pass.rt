//! The trait of a pass, and that of a visitor.
ghost use Rattle.std.specs.Prelude.{◌≡◌, ◌∷◌, ◌++◌, [], List, ℕ, IfSome, IfNone};
ghost use Rattle.scale_info_types.specs.Portable.{Id};
ghost use Rattle.scale_info_bytes.specs.Encodings.{HasNoPrefix, HasPrefix, IsEncoding};
ghost use Rattle.scale_info_passes.specs.Pieces.{Piece, verbatim, reference, HasVisitedSome};

use scale_info_identities::symbol::UntrackedSymbol;
use scale_info_identities::type_id::TypeId;

/// What visits the pieces of an encoding, one after another.
///
/// A visitor never fails: one that allocates remembers that an allocation failed. Any type may
/// implement it. An implementor states what a visit of pieces does, and owes the contracts of both
/// functions and the proofs of the two laws.
pub trait Visitor {
    /// What the pieces do to the visitor.
    ghost visited: { List Piece → Self → Self → Type 0 };

    /// Visits a reference.
    fn reference(&mut self, id: UntrackedSymbol<TypeId>)
        ensures { visited (reference id ∷ []) self.old self.new };

    /// Visits bytes that hold no reference.
    fn verbatim(&mut self, bytes: &[u8])
        ensures { visited (verbatim bytes.now ∷ []) self.old self.new };

    /// No pieces do nothing.
    ghost visited_none: { (a : Self) → visited [] a a };

    /// Pieces do what they do one after another.
    ghost visited_append: { (ps qs : List Piece) (a b c : Self) →
        visited ps a b → visited qs b c → visited (ps ++ qs) a c };
}

/// A value over whose encoding a visitor can be led, with no value made.
///
/// Any type may implement it. An implementor states what encodes a value, the references of a value
/// and the value with other references, and owes the contract of `pass` and a proof of `law`.
pub trait Pass {
    /// The whole list of bytes encodes the value.
    ghost encodes: { Self → List ℕ → Type 0 };

    /// The references of the value, in the order of its encoding.
    ghost references_of: { Self → List Id };

    /// The value with its references replaced.
    ghost map_references: { (Id → Id) → Self → Self };

    /// Shows the visitor the pieces of the value at the start of the input, and returns the rest.
    ///
    /// None, if no prefix of the input encodes a value. The visitor may then have visited pieces.
    fn pass<'a, V: Visitor>(input: &'a [u8], visitor: &mut V) -> Option<&'a [u8]>
        ensures some { IfSome result (λ rest.
            HasVisitedSome encodes references_of map_references V.visited
            input.now rest.now visitor.old visitor.new) }
        ensures none { IfNone result (HasNoPrefix encodes input.now) };

    /// A value has one encoding at most, no encoding is a proper prefix of another, and an encoding
    /// is made of bytes.
    ghost law: { IsEncoding encodes };
}

/// Shows the visitor the bytes of the input up to the rest.
pub(crate) fn visit_verbatim<V: Visitor>(input: &[u8], rest: &[u8], visitor: &mut V)
    ensures { (bytes : List ℕ) → input.now ≡ bytes ++ rest.now
        → V.visited (verbatim bytes ∷ []) visitor.old visitor.new }
{
    visitor.verbatim(&input[..input.len().saturating_sub(rest.len())])
}

/// A value that is decoded to be gone over, and that holds no reference.
///
/// An implementor states what encodes a value, and owes the contract of `decode` and a proof of
/// `law`.
pub trait Verbatim: Drop {
    /// The whole list of bytes encodes the value.
    ghost encodes: { Self → List ℕ → Type 0 };

    /// The value at the start of the input, and the rest.
    ///
    /// None, if no prefix of the input encodes a value.
    fn decode(input: &[u8]) -> Option<(Self, &[u8])>
        ensures some { IfSome result (λ found. HasPrefix (encodes found.0) input.now found.1.now) }
        ensures none { IfNone result (HasNoPrefix encodes input.now) };

    /// A value has one encoding at most, no encoding is a proper prefix of another, and an encoding
    /// is made of bytes.
    ghost law: { IsEncoding encodes };
}

impl<T: Verbatim> Pass for T {
    ghost encodes = { T.encodes };

    ghost references_of = { λ _. [] };

    ghost map_references = { λ _ v. v };

    fn pass<'a, V: Visitor>(input: &'a [u8], visitor: &mut V) -> Option<&'a [u8]> {
        let (_, rest) = T::decode(input)?;
        visit_verbatim(input, rest, visitor);
        Some(rest)
    }

    ghost law = { T.law };
}
