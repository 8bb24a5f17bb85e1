//! Whether every reference of a table leads to an entry, with no description made.
ghost use Rattle.std.specs.Prelude.{◌≡◌, ◌↔◌, ◌<◌, ◌≤◌, All, IsTrue, List, ℕ, length, refl};
ghost use Rattle.std.specs.List.{AllZip};
ghost use Rattle.scale_info_bytes.specs.Encodings.{HasPrefix};
ghost use Rattle.scale_info_grammar.specs.Ty.{EncodesPortableType};
ghost use Rattle.scale_info_passes.specs.Pieces.{references_in};
ghost use Rattle.scale_info_table.specs.ClosedTables.{AreBelow, HasIndicesAsIds};
ghost use Rattle.scale_info_table.specs.ClosedTables.{HasReferencesBelow};
ghost use Rattle.scale_info_types.specs.References.{references};
ghost use Rattle.scale_info_types.specs.declared.ty.PortableType.{PortableType};
ghost use Rattle.scale_info_table_view.specs.BoundLaws.{bounded_none, bounded_append};
ghost use Rattle.scale_info_table_view.specs.Views.{IsEntryAt};

use scale_info_bytes::integer::decode_compact;
use scale_info_identities::symbol::UntrackedSymbol;
use scale_info_identities::type_id::TypeId;
use scale_info_passes::pass::{Pass, Visitor};
use scale_info_types::form::PortableForm;
use scale_info_types::ty::Description;

/// Whether each reference so far is below a count.
#[derive(Drop)]
struct Bounding {
    count: usize,
    all_below: bool,
}

impl Visitor for Bounding {
    ghost visited = { λ ps a b. (b.count ≡ a.count)
        × (IsTrue b.all_below ↔ (IsTrue a.all_below × AreBelow a.count (references_in ps))) };

    fn reference(&mut self, id: UntrackedSymbol<TypeId>) {
        if id.id as usize >= self.count {
            self.all_below = false;
        }
    }

    fn verbatim(&mut self, _bytes: &[u8]) {}

    ghost visited_none = { λ a. (refl, bounded_none a.count a.all_below) };

    ghost visited_append = { λ ps qs a b c first second. bounded_append
        ps qs a.count b.count c.count a.all_below b.all_below c.all_below first second };
}

/// Whether the entry at the start of the bytes has this id, and each of its references is below the
/// count.
fn is_closed_entry(bytes: &[u8], index: usize, count: usize) -> bool
    ensures { (entry : PortableType) (rest : List ℕ)
        → HasPrefix (EncodesPortableType entry) bytes.now rest
        → (IsTrue result ↔ ((entry.id ≡ index) × AreBelow count (references entry.ty))) }
{
    let Some((id, description)) = decode_compact(bytes) else {
        return false;
    };
    if id as usize != index {
        return false;
    }
    let mut bounding = Bounding {
        count,
        all_below: true,
    };
    match Description::<PortableForm>::pass(description, &mut bounding) {
        Some(_) => bounding.all_below,
        None => false,
    }
}

/// Whether the `id` of each entry at these offsets is its index, and each of its references is the
/// index of an entry. It does not allocate.
pub(crate) fn are_closed_entries(bytes: &[u8], offsets: &[usize]) -> bool
    requires { All (λ offset. offset ≤ length bytes.now) offsets.now }
    ensures { (types : List PortableType) → AllZip (IsEntryAt bytes.now) types offsets.now
        → (IsTrue result ↔ (HasIndicesAsIds types × HasReferencesBelow (length types) types)) }
{
    for (index, offset) in offsets.iter().enumerate() {
        if !is_closed_entry(&bytes[*offset..], index, offsets.len()) {
            return false;
        }
    }
    true
}
