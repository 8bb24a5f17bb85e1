//! What is done by passes: skipping a value, gathering its references, renumbering them.
ghost use Rattle.std.specs.Prelude.{◌≡◌, List, ℕ, IfSome, IfNone, IfOk};
ghost use Rattle.std.proofs.Common.{refl, ap, ◌∙◌};
ghost use Rattle.scale_info_bytes.specs.Encodings.{HasNoPrefix, IsPrefix};
ghost use Rattle.scale_info_passes.specs.Pieces.{HasSomePrefix};
ghost use Rattle.scale_info_passes.specs.Visits.{renumbered, RenumbersPieces, GathersPieces};
ghost use Rattle.scale_info_passes.specs.Visits.{AppendsRenumbered, AppendsReferences};
ghost use Rattle.scale_info_passes.specs.VisitLaws.{renumbers_none, renumbers_append};
ghost use Rattle.scale_info_passes.specs.VisitLaws.{gathers_none, gathers_append};

use crate::pass::{Pass, Visitor};
use scale_info_bytes::integer::encode_compact;
use scale_info_identities::symbol::UntrackedSymbol;
use scale_info_identities::type_id::TypeId;
use std::alloc::{AllocError, Global};

/// Does nothing with the pieces.
#[derive(Drop)]
struct Skipping;

impl Visitor for Skipping {
    ghost visited = { λ _ _ _. Unit {0} };

    fn reference(&mut self, _id: UntrackedSymbol<TypeId>) {}

    fn verbatim(&mut self, _bytes: &[u8]) {}

    ghost visited_none = { λ _. tt };

    ghost visited_append = { λ _ _ _ _ _ _ _. tt };
}

/// The rest of the input after the value at its start. It does not allocate.
///
/// None, if no prefix of the input encodes a value.
///
/// ```text
/// skip::<Items<u8>>(&[8, 1, 2, 3]) == Some(&[3])
/// skip::<Items<u8>>(&[8, 1]) == None
/// ```
pub fn skip<T: Pass>(input: &[u8]) -> Option<&[u8]>
    ensures some { IfSome result (λ rest. HasSomePrefix T.encodes input.now rest.now) }
    ensures none { IfNone result (HasNoPrefix T.encodes input.now) }
{
    T::pass(input, &mut Skipping)
}

/// Writes the pieces, each reference by its new number.
#[derive(Drop)]
struct Rewriting<'a> {
    numbers: &'a [u32],
    out: Vec<u8>,
    failed: bool,
}

impl<'a> Visitor for Rewriting<'a> {
    ghost visited = { λ ps a b. (b.numbers ≡ a.numbers)
        × RenumbersPieces (renumbered a.numbers.now) ps a.failed b.failed a.out.items b.out.items };

    fn reference(&mut self, id: UntrackedSymbol<TypeId>) {
        let number = match self.numbers.get(id.id as usize) {
            Some(number) => *number,
            None => id.id,
        };
        if encode_compact(&mut self.out, number).is_err() {
            self.failed = true;
        }
    }

    fn verbatim(&mut self, bytes: &[u8]) {
        if self.out.extend_from_slice(bytes).is_err() {
            self.failed = true;
        }
    }

    ghost visited_none = { λ a.
        (refl, renumbers_none (renumbered a.numbers.now) a.failed a.out.items) };

    ghost visited_append = { λ ps qs a b c first second. (
      second.0 ∙ first.0,
      renumbers_append a.numbers.now b.numbers.now ps qs a.failed b.failed c.failed
          a.out.items b.out.items c.out.items (ap (λ x. x.now) first.0) first.1 second.1,
    ) };
}

/// Appends the value at the start of the input, each reference by its new number, and returns the
/// rest of the input.
///
/// `numbers` has at index `id` the new number of the reference `id`; a reference that is no index
/// of it stays. Error: an allocation failed, and then part of the value may have been appended.
pub fn renumber<'a, T: Pass>(
    alloc: Global,
    input: &'a [u8],
    numbers: &[u32],
    out: &mut Vec<u8>,
) -> Result<&'a [u8], AllocError>
    requires { (rest : List ℕ) × HasSomePrefix T.encodes input.now rest }
    ensures ok { IfOk result (λ rest.
        AppendsRenumbered T.encodes T.map_references (renumbered numbers.now)
        input.now rest.now out.old.items out.new.items) }
    ensures keeps { IsPrefix out.old.items out.new.items }
{
    let mut renumbering = Rewriting {
        numbers,
        out: std::mem::replace(out, Vec::new(alloc)),
        failed: false,
    };
    let rest = T::pass(input, &mut renumbering).unwrap();
    *out = renumbering.out;
    if renumbering.failed {
        return Err(AllocError);
    }
    Ok(rest)
}

/// Lists the references.
#[derive(Drop)]
struct Gathering {
    ids: Vec<u32>,
    failed: bool,
}

impl Visitor for Gathering {
    ghost visited = { λ ps a b. GathersPieces ps a.failed b.failed a.ids.items b.ids.items };

    fn reference(&mut self, id: UntrackedSymbol<TypeId>) {
        let number = id.id();
        if self.ids.push(number).is_err() {
            self.failed = true;
        }
    }

    fn verbatim(&mut self, _bytes: &[u8]) {}

    ghost visited_none = { λ a. gathers_none a.failed a.ids.items };

    ghost visited_append = { λ ps qs a b c first second.
        gathers_append ps qs a.failed b.failed c.failed
        a.ids.items b.ids.items c.ids.items first second };
}

/// Appends the references of the value at the start of the input to the list, in the order of the
/// encoding, and returns the list and the rest of the input.
///
/// None, if no prefix of the input encodes a value. Error: an allocation failed. In both cases the
/// list is dropped.
pub fn gather<T: Pass>(input: &[u8], ids: Vec<u32>) -> Result<Option<(Vec<u32>, &[u8])>, AllocError>
    ensures some { IfOk result (λ found. IfSome found (λ f.
        AppendsReferences T.encodes T.references_of input.now f.1.now ids.items f.0.items)) }
    ensures none { IfOk result (λ found. IfNone found (HasNoPrefix T.encodes input.now)) }
{
    let mut gathering = Gathering { ids, failed: false };
    match T::pass(input, &mut gathering) {
        None => Ok(None),
        Some(rest) => {
            if gathering.failed {
                return Err(AllocError);
            }
            Ok(Some((gathering.ids, rest)))
        }
    }
}
