//! Interners: lists of distinct values, each known by its index.
ghost use Rattle.std.specs.Prelude.{◌≡◌, ◌≤◌, ◌<◌, ◌↔◌, ◌++◌, [], ◌∷◌, true, false, length, IfOk};
ghost use Rattle.std.specs.Prelude.{IfErr, IfSome, IsTrue, IsOk, IsSome, OnErr, IsErrOf, slice_get};
ghost use Rattle.std.specs.Prelude.{take, map, Some, ◌-◌, OnOk};
ghost use Rattle.std.specs.Option.{option_copied};
ghost use Rattle.std.specs.Cmp.Lexicographic.{pointwise, lists_equiv, lists_per};
ghost use Rattle.scale_info_interner.specs.Interned.{IsIndexOf, IsKnown, IsNew, AreDistinctBy};
ghost use Rattle.scale_info_interner.specs.ElementOrders.{IsElementOrder, IsGapFor};
ghost use Rattle.scale_info_interner.specs.declared.interner.InternError.TheVariants as error;

use crate::order::{OrderPlace, find, insert, locate, merge_small, remove, split_full};
use crate::rooms::{narrow, widen};
use scale_info_collections::failure::AllocationFailure;
use scale_info_collections::try_clone::TryClone;
pub use scale_info_identities::symbol::UntrackedSymbol;
use std::alloc::{AllocError, Global};
use std::marker::{Model, PhantomData};
use thiserror::Error;

/// The index of a value in an interner, while that interner is borrowed.
///
/// Copy, Eq and Ord hold for every `T` and compare the index. The borrow keeps the interner from
/// changing, not the symbol from being shown to another interner: see [`Interner::resolve`].
#[derive_where(Clone, Copy, PartialEq, Eq, PartialOrd, Ord)]
pub struct Symbol<'a, T> {
    id: u32,
    marker: PhantomData<&'a T>,
}

impl<'a, T> Symbol<'a, T> {
    /// The same index, with no borrow.
    pub fn into_untracked(self) -> UntrackedSymbol<T>
        ensures { result.id ≡ self.entry.id }
    {
        let id = self.id;
        UntrackedSymbol::from(id)
    }
}

impl<'a, T> TryClone for Symbol<'a, T> {
    fn try_clone(&self, _alloc: Global) -> Result<Symbol<'a, T>, AllocError> {
        Ok(Symbol {
            id: self.id,
            marker: PhantomData,
        })
    }
}

/// Why a value could not be interned.
#[derive(Debug, Drop, PartialEq, Eq, Error)]
pub enum InternError {
    /// The value is new, and there are 4294967295 elements already.
    #[error("there are 4294967295 elements already")]
    Full,
    /// An allocation failed.
    #[error("out of memory")]
    Memory,
}

impl<F: AllocationFailure> From<F> for InternError {
    ghost from_gives = { λ _ e. e ≡ error.Memory };

    fn from(_failure: F) -> InternError {
        InternError::Memory
    }
}

/// A list of distinct values, each known by its index.
///
/// Equal values share one index, as in the crate `scale-info`. Contracts see an interner as the
/// list of its elements. A look-up or an insertion takes a number of comparisons logarithmic in
/// the number of elements. Each element is kept once, and its index in the order of the elements;
/// of one in 32 or more there is a copy, which leads a search to its place.
#[derive(Drop)]
pub struct Interner<T: Ord> {
    elements: Vec<T>,
    chunks: Vec<Vec<u32>>,
    // Copies of elements, one between two chunks.
    bounds: Vec<T>,
    // Rooms that the list of chunks had before.
    rooms: Vec<Vec<Vec<u32>>>,
}

impl<T: Ord> Model for Interner<T> {
    ghost use Rattle.std.specs.Prelude.{List, length, map, ◌≤◌};

    ghost Value = { List T };

    ghost use Rattle.scale_info_interner.specs.ElementOrders.{IsElementOrder};

    ghost view = { λ s. s.elements.items };

    ghost invariant = { λ s.
        IsElementOrder T.cmp s.elements.items (map (λ v. v.items) s.chunks.items)
        × (length s.elements.items ≤ 4294967295) };
}

impl<T: Ord + Drop> Interner<T> {
    /// The interner with no element. Does not allocate.
    pub fn new(alloc: Global) -> Interner<T>
        ensures { result ≡ [] }
    {
        Interner {
            elements: Vec::new(alloc),
            chunks: Vec::new(alloc),
            bounds: Vec::new(alloc),
            rooms: Vec::new(alloc),
        }
    }

    /// The elements, in the order in which they came. No two are equal.
    pub fn elements(&self) -> &[T]
        ensures list { result.now ≡ self.now }
        ensures distinct { AreDistinctBy T.eq self.now }
        ensures bounded { length self.now ≤ 4294967295 }
    {
        &self.elements
    }

    /// The symbol of the element that equals this value; None if there is none. Does not allocate.
    ///
    /// The value is compared with about log2 n elements: first with copies that lie together, and
    /// then with six elements or more, each of which may have to come from memory where there are
    /// millions.
    pub fn get(&self, value: &T) -> Option<Symbol<'_, T>>
        ensures found { IfSome result (λ symbol. IsIndexOf T.eq self.now value.now symbol.id) }
        ensures known { IsSome result ↔ IsKnown T.eq self.now value.now }
    {
        match self.index_of(value) {
            Some(id) => Some(Symbol {
                id,
                marker: PhantomData,
            }),
            None => None,
        }
    }

    /// The element at the symbol's index; None if the index lies past the end.
    ///
    /// Only the index counts, whichever interner gave the symbol.
    pub fn resolve(&self, symbol: Symbol<'_, T>) -> Option<&T>
        ensures { option_copied result ≡ slice_get self.now symbol.entry.id }
    {
        self.elements.get(symbol.id as usize)
    }

    /// Keeps the first `len` elements and drops the others. Does not allocate.
    ///
    /// The elements that stay keep their indices. If there are no more than `len`, nothing changes.
    pub fn truncate(&mut self, len: usize)
        ensures { self.new ≡ take len self.old }
    {
        while self.elements.len() > len {
            drop_last(
                &mut self.elements,
                &mut self.chunks,
                &mut self.bounds,
                &mut self.rooms,
            );
        }
    }

    /// The index of the element that equals this value.
    fn index_of(&self, value: &T) -> Option<u32>
        ensures index { (i : _) → (result ≡ Some i) ↔ IsIndexOf T.eq self.now value.now i }
        ensures known { IsSome result ↔ IsKnown T.eq self.now value.now }
    {
        match locate(&self.elements, &self.chunks, &self.bounds, value) {
            Ok(index) => Some(index),
            Err(_) => None,
        }
    }
}

impl<T: Ord + TryClone> Interner<T> {
    /// The index of the element that equals this value; a new value is put at the end.
    ///
    /// The flag says whether the value is new. A new value gets the next index. A known one changes
    /// nothing, does not allocate and succeeds.
    ///
    /// Errors: `Full`, if the value is new and there are 4294967295 elements; `Memory`, if an
    /// allocation for a new element failed. On an Err the interner is as before, and the value is
    /// dropped. The crate `scale-info` has no such errors.
    pub fn intern_or_get(&mut self, value: T) -> Result<(bool, UntrackedSymbol<T>), InternError>
        // A known value can't fail, so it does not allocate.
        ensures known { (i : _) → IsIndexOf T.eq self.old value i
            → IsOk result × IfOk result (λ r. (r.0 ≡ false) × (r.1.id ≡ i))
            × (self.new ≡ self.old) }
        ensures new { IsNew T.eq self.old value
            → IfOk result (λ r. (r.0 ≡ true) × (r.1.id ≡ length self.old)
            × (self.new ≡ self.old ++ value ∷ [])) }
        ensures ok { IfOk result (λ r. IsIndexOf T.eq self.new value r.1.id) }
        ensures full { IsErrOf result InternError.Full
            ↔ (length self.old ≡ 4294967295) × IsNew T.eq self.old value }
        ensures err { OnErr result (self.new ≡ self.old) }
    {
        let place = match locate(&self.elements, &self.chunks, &self.bounds, &value) {
            Ok(index) => return Ok((false, UntrackedSymbol::from(index))),
            Err(place) => place,
        };
        if self.is_full() {
            return Err(InternError::Full);
        }
        let symbol = push_new(
            &mut self.elements,
            &mut self.chunks,
            &mut self.bounds,
            &mut self.rooms,
            place,
            value,
        )?;
        Ok((true, symbol))
    }

    /// The same for a borrowed value: it is searched once, and copied only where it is new.
    ///
    /// Errors: as those of [`Interner::intern_or_get`], where the copy is an allocation too.
    pub fn intern_copy(&mut self, value: &T) -> Result<(bool, UntrackedSymbol<T>), InternError>
        // A known value can't fail, so it does not allocate.
        ensures known { (i : _) → IsIndexOf T.eq self.old value.now i
            → IsOk result × IfOk result (λ r. (r.0 ≡ false) × (r.1.id ≡ i))
            × (self.new ≡ self.old) }
        ensures new { IsNew T.eq self.old value.now
            → IfOk result (λ r. (r.0 ≡ true) × (r.1.id ≡ length self.old)
            × (self.new ≡ self.old ++ value.now ∷ [])) }
        ensures ok { IfOk result (λ r. IsIndexOf T.eq self.new value.now r.1.id) }
        ensures full { IsErrOf result InternError.Full
            ↔ (length self.old ≡ 4294967295) × IsNew T.eq self.old value.now }
        ensures err { OnErr result (self.new ≡ self.old) }
    {
        let place = match locate(&self.elements, &self.chunks, &self.bounds, value) {
            Ok(index) => return Ok((false, UntrackedSymbol::from(index))),
            Err(place) => place,
        };
        if self.is_full() {
            return Err(InternError::Full);
        }
        let copy = value.try_clone(*self.elements.allocator())?;
        let copied = push_new(
            &mut self.elements,
            &mut self.chunks,
            &mut self.bounds,
            &mut self.rooms,
            place,
            copy,
        )?;
        Ok((true, copied))
    }

    /// Whether each index is taken, so that no new value can get one.
    fn is_full(&self) -> bool
        ensures full { IsTrue result ↔ (length self.now ≡ 4294967295) }
        ensures room { result ≡ false → length self.now < 4294967295 }
    {
        self.elements.len() >= 4294967295
    }
}

/// Puts a value at the end of the elements and its index at the place that is found for it, and
/// returns the index.
///
/// Errors: `Memory`, if an allocation failed; then all is as before.
fn push_new<T: Ord + TryClone>(
    elements: &mut Vec<T>,
    chunks: &mut Vec<Vec<u32>>,
    bounds: &mut Vec<T>,
    rooms: &mut Vec<Vec<Vec<u32>>>,
    place: OrderPlace,
    value: T,
) -> Result<UntrackedSymbol<T>, InternError>
    requires order { IsElementOrder T.cmp elements.old.items
        (map (λ v. v.items) chunks.old.items) }
    requires place { IsGapFor T.cmp elements.old.items (map (λ v. v.items) chunks.old.items)
        value place.chunk place.at }
    requires room { length elements.old.items < 4294967295 }
    ensures ok { IfOk result (λ symbol. (symbol.id ≡ length elements.old.items)
        × (elements.new.items ≡ elements.old.items ++ value ∷ [])) }
    ensures order { OnOk result (IsElementOrder T.cmp elements.new.items
        (map (λ v. v.items) chunks.new.items)) }
    ensures few { OnOk result (length elements.new.items ≤ 4294967295) }
    ensures err { OnErr result (elements.new.items ≡ elements.old.items) }
    ensures err_order { OnErr result
        (map (λ v. v.items) chunks.new.items ≡ map (λ v. v.items) chunks.old.items) }
    ensures memory { IfErr result (λ e. e ≡ error.Memory) }
{
    let index = elements.len() as u32;
    let alloc = *elements.allocator();
    elements.push(value)?;
    if insert(alloc, chunks, place, index).is_err() {
        elements.pop();
        return Err(InternError::Memory);
    }
    widen(alloc, chunks, rooms);
    split_full(alloc, elements, chunks, bounds, place.chunk);
    Ok(UntrackedSymbol::from(index))
}

/// Takes out the last element, if there is one, and its index. Does not allocate.
fn drop_last<T: Ord + Drop>(
    elements: &mut Vec<T>,
    chunks: &mut Vec<Vec<u32>>,
    bounds: &mut Vec<T>,
    rooms: &mut Vec<Vec<Vec<u32>>>,
)
    requires { IsElementOrder T.cmp elements.old.items (map (λ v. v.items) chunks.old.items) }
    ensures elements { elements.new.items
        ≡ take (length elements.old.items - 1) elements.old.items }
    ensures order { IsElementOrder T.cmp elements.new.items (map (λ v. v.items) chunks.new.items) }
{
    let Some(last) = elements.last() else {
        return;
    };
    let Ok(place) = find(elements, chunks, bounds, last) else {
        unreachable!()
    };
    remove(chunks, bounds, place);
    merge_small(chunks, bounds, place.chunk);
    narrow(chunks, rooms);
    elements.pop();
}

impl<T: Ord + Drop> PartialEq for Interner<T> {
    ghost eq = { pointwise T.eq };

    ghost laws = { lists_per T.PartialEq.laws };

    fn eq(&self, other: &Interner<T>) -> bool {
        self.elements == other.elements
    }
}

impl<T: Ord + Drop> Eq for Interner<T> {
    ghost laws = { lists_equiv T.Eq.laws };
}
