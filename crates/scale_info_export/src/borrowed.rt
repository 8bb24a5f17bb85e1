//! Tables whose descriptions stay in a catalogue: what is kept of them, and its bytes.
ghost use Rattle.std.specs.Prelude.{◌≡◌, ◌≤◌, ◌<◌, All, IfErr, IfOk, List, OnErr, OnOk};
ghost use Rattle.std.specs.Prelude.{ℕ, length};
ghost use Rattle.scale_info_bytes.specs.Encodings.{AppendsEncoding, HasNoEncoding, IfTooLong};
ghost use Rattle.scale_info_bytes.specs.Encodings.{IsPrefix};
ghost use Rattle.scale_info_bytes.specs.Parts.{EncodesItems};
ghost use Rattle.scale_info_export.specs.BorrowedEntries.{borrowed_entries, new_id, picked};
ghost use Rattle.scale_info_export.specs.BorrowedLaws.{nothing_past_borrowed};
ghost use Rattle.scale_info_export.specs.BorrowedEntries.{renumbered_entries, renumbered_entry};
ghost use Rattle.scale_info_grammar.specs.Ty.{EncodesPortableType, EncodesTypes};
ghost use Rattle.scale_info_references.specs.Conversions.{number_of};
ghost use Rattle.scale_info_table.specs.Pruned.{IsChosen, IsPruned, IsRetainError};
ghost use Rattle.scale_info_types.specs.Shapes as shapes;
ghost use Rattle.scale_info_types.specs.declared.ty.PortableType as entries;
ghost use Rattle.scale_info_walk.specs.Kept.{AreKept};
ghost use Rattle.scale_info_walk.specs.TypeSystems.{types_system};

use scale_info_bytes::error::{EncodeError, truncate_on_err};
use scale_info_bytes::integer::encode_compact;
use scale_info_description_codec::{GivesIds, encode_description};
use scale_info_references::references::references_of;
use scale_info_registry::registry::TypeNumbers;
use scale_info_table::chosen::chosen_ids;
use scale_info_types::form::MetaForm;
use scale_info_types::meta_type::MetaType;
use scale_info_types::ty::Type;
use scale_info_walk::numbers::map_of_numbers;
use scale_info_walk::references::References;
use scale_info_walk::refs::Refs;
use scale_info_walk::walk::{RetainError, number_references};
use std::alloc::{AllocError, Global};
use std::collections::BTreeMap;

/// The entries of a table whose descriptions stay in a catalogue.
#[derive(Drop)]
pub(crate) struct BorrowedEntries<'c> {
    /// The ids of the types.
    pub(crate) numbers: TypeNumbers,
    /// The descriptions, in ascending order of id.
    pub(crate) descriptions: Vec<&'c Type>,
}

impl<'c> References for BorrowedEntries<'c> {
    ghost Shape = { shapes.Shape };

    ghost system = { λ borrowed.
        types_system (borrowed_entries borrowed.numbers borrowed.descriptions.items) };

    ghost count = { λ borrowed. length borrowed.descriptions.items };

    ghost outside = { λ borrowed id past.
        nothing_past_borrowed borrowed.numbers borrowed.descriptions.items id past };

    fn len(&self) -> usize {
        self.descriptions.len()
    }

    fn prepend_refs(&self, alloc: Global, id: u32, refs: &mut Refs) -> Result<(), AllocError> {
        let types = references_of(alloc, self.descriptions[id as usize])?;
        let ids = self.numbers.ids_of(alloc, types)?;
        refs.prepend(&ids)
    }
}

/// What is kept of a table.
#[derive(Drop)]
pub(crate) struct KeptIds {
    /// The ids that are kept, in new order.
    pub(crate) order: Vec<u32>,
    /// For each id its new one, or 4294967295 where it is not kept.
    pub(crate) numbers: Vec<u32>,
    /// The new id of each one that is kept.
    pub(crate) map: BTreeMap<u32, u32>,
}

/// Numbers what the chosen entries reach. The filter is asked once for each id, from 0 up.
///
/// Errors: `Dangling`, where an id is reached that is no index; `TooManyTypes`, where there are
/// more than 4294967295 entries; `Memory`, where an allocation failed.
pub(crate) fn number_kept<F: FnMut(u32) -> bool>(
    alloc: Global,
    borrowed: &BorrowedEntries<'_>,
    filter: F,
) -> Result<KeptIds, RetainError>
    requires callable { F.IsAlwaysCallable filter }
    requires few { length borrowed.now.descriptions.items ≤ 4294967295 }
    ensures ok { IfOk result (λ found. (chosen : List ℕ) × (last : F)
        × IsChosen F.step filter (length borrowed.now.descriptions.items) chosen last
        × ((kept : List entries.PortableType)
        → AreKept (borrowed_entries borrowed.now.numbers borrowed.now.descriptions.items)
        found.order.items (number_of found.numbers.items) kept
        → IsPruned (borrowed_entries borrowed.now.numbers borrowed.now.descriptions.items) chosen
        kept
        found.map)) }
    ensures within { IfOk result (λ found.
        All (λ index. index < length borrowed.now.descriptions.items) found.order.items) }
    ensures short { IfOk result (λ found. length found.order.items ≤ 4294967295) }
    ensures cause { IfErr result (IsRetainError F.step filter
        (borrowed_entries borrowed.now.numbers borrowed.now.descriptions.items)) }
{
    let chosen = chosen_ids(alloc, borrowed.len() as u32, filter)?;
    let found = number_references(alloc, borrowed, &chosen)?;
    let map = map_of_numbers(alloc, &found.numbers)?;
    Ok(KeptIds {
        order: found.order,
        numbers: found.numbers,
        map,
    })
}

/// The ids that types get: the new ones of those that are kept.
#[derive(Drop)]
struct NewIds<'a> {
    numbers: &'a TypeNumbers,
    new: &'a [u32],
}

impl<'a> GivesIds<MetaForm> for NewIds<'a> {
    ghost id_of = { λ ids ty. new_id ids.numbers.now ids.new.now ty };

    fn id(&self, ty: &MetaType) -> u32 {
        match self.new.get(self.numbers.id(ty) as usize) {
            Some(id) => *id,
            None => 0,
        }
    }
}

/// Appends the encoding of an entry. Where that fails, its id may stand at the end.
fn encode_entry(ids: &NewIds<'_>, id: u32, ty: &Type, out: &mut Vec<u8>) -> Result<(), EncodeError>
    ensures ok { OnOk result (AppendsEncoding
        (EncodesPortableType (renumbered_entry ids.now.numbers.now ids.now.new.now id ty.now))
        out.old.items out.new.items) }
    ensures err { OnErr result (IsPrefix out.old.items out.new.items) }
    ensures too_long { IfErr result (IfTooLong (HasNoEncoding (EncodesPortableType
        (renumbered_entry ids.now.numbers.now ids.now.new.now id ty.now)))) }
{
    encode_compact(out, id)?;
    encode_description(ids, ty, out)
}

/// Appends the entries at these indices in turn, with ids from 0 up. Where that fails, some of them
/// may stand at the end.
fn encode_entries(
    borrowed: &BorrowedEntries<'_>,
    order: &[u32],
    ids: &NewIds<'_>,
    out: &mut Vec<u8>,
) -> Result<(), EncodeError>
    requires within { All (λ index. index < length borrowed.now.descriptions.items) order.now }
    requires few { length order.now ≤ 4294967295 }
    ensures ok { OnOk result (AppendsEncoding
        (EncodesItems EncodesPortableType
        (renumbered_entries ids.now.numbers.now ids.now.new.now
        (picked borrowed.now.descriptions.items order.now)))
        out.old.items out.new.items) }
    ensures err { OnErr result (IsPrefix out.old.items out.new.items) }
    ensures too_long { IfErr result (IfTooLong (HasNoEncoding
        (EncodesItems EncodesPortableType
        (renumbered_entries ids.now.numbers.now ids.now.new.now
        (picked borrowed.now.descriptions.items order.now))))) }
{
    for (id, index) in order.iter().enumerate() {
        encode_entry(ids, id as u32, borrowed.descriptions[*index as usize], out)?;
    }
    Ok(())
}

/// Appends the encoding of the table of the entries at these indices in turn, with ids from 0 up
/// and new numbers for their references.
///
/// Errors: `TooLong`, where the table has no encoding; `Memory`, where an allocation failed. On an
/// Err the output is as before.
pub(crate) fn encode_kept<'a>(
    borrowed: &'a BorrowedEntries<'_>,
    order: &[u32],
    numbers: &'a [u32],
    out: &mut Vec<u8>,
) -> Result<(), EncodeError>
    requires within { All (λ index. index < length borrowed.now.descriptions.items) order.now }
    requires few { length order.now ≤ 4294967295 }
    ensures ok { OnOk result (AppendsEncoding
        (EncodesTypes (renumbered_entries borrowed.now.numbers numbers.now
        (picked borrowed.now.descriptions.items order.now)))
        out.old.items out.new.items) }
    ensures err { OnErr result (out.new.items ≡ out.old.items) }
    ensures too_long { IfErr result (IfTooLong (HasNoEncoding
        (EncodesTypes (renumbered_entries borrowed.now.numbers numbers.now
        (picked borrowed.now.descriptions.items order.now))))) }
{
    let ids = NewIds {
        numbers: &borrowed.numbers,
        new: numbers,
    };
    let start = out.len();
    encode_compact(out, order.len() as u32)?;
    let written = encode_entries(borrowed, order, &ids, out);
    truncate_on_err(out, start, written)
}
