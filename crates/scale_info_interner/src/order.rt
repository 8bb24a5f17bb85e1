//! The indices of elements in the elements' order.
//!
//! An index takes four bytes, where a copy of an element may take any number of allocations. The
//! indices are kept in chunks, so that one more moves those of one chunk only.
ghost use Rattle.std.specs.List.{All, concat};
ghost use Rattle.std.specs.Prelude.{◌≡◌, ◌≢◌, ◌∷◌, ◌++◌, ◌+◌, ◌<◌, ◌≤◌, ◌↔◌, ℕ, List, [], Some};
ghost use Rattle.std.specs.Prelude.{IfOk, IfErr, IfSome, OnOk, OnErr, IsTrue, length, map};
ghost use Rattle.std.specs.Prelude.{slice_get};
ghost use Rattle.std.specs.Prelude.{vec_capacity, vec_len};
ghost use Rattle.std.specs.declared.cmp.Ordering.TheVariants.{Less, Equal, Greater};
ghost use Rattle.scale_info_interner.specs.ElementOrders.{against, first_against, before, after};
ghost use Rattle.scale_info_interner.specs.ElementOrders.{IsFoundAt, IsGapFor, IsElementOrder};
ghost use Rattle.scale_info_interner.specs.Interned.{IsIndexOf, IsNew};

use crate::bounds::{chunk_of, drop_bound, put_bound};
use scale_info_collections::try_clone::TryClone;
use std::alloc::{AllocError, Global};
use std::cmp::Ordering;

/// A chunk with fewer indices than this is never split.
const FULL: usize = 64;

/// A place in an order: the number of a chunk, and where in it.
#[derive(Clone, Copy)]
pub struct OrderPlace {
    /// The chunk.
    pub chunk: usize,
    /// The number of indices before the place, in its chunk.
    pub at: usize,
}

/// How the element at an index compares with a value; an index of no element stands above.
fn compare<T: Ord>(elements: &[T], index: u32, value: &T) -> Ordering
    ensures { result ≡ against T.cmp elements.now value.now index }
{
    match elements.get(index as usize) {
        Some(element) => element.cmp(value),
        None => Ordering::Greater,
    }
}

/// Whether the first element of a chunk is above a value.
fn starts_above<T: Ord>(elements: &[T], chunk: &[u32], value: &T) -> bool
    ensures { IsTrue result ↔ (first_against T.cmp elements.now value.now chunk.now ≡ Greater) }
{
    match chunk.first() {
        Some(index) => compare(elements, *index, value).is_gt(),
        None => true,
    }
}

/// The number of chunks up to the last that does not start above a value.
fn chunks_before<T: Ord>(elements: &[T], chunks: &[Vec<u32>], value: &T) -> usize
    ensures bound { result ≤ length chunks.now }
    ensures upto { (c : ℕ) (chunk : List ℕ) → result ≡ c + 1
        → slice_get (map (λ v. v.items) chunks.now) c ≡ Some chunk
        → first_against T.cmp elements.now value.now chunk ≢ Greater }
    ensures past { (chunk : List ℕ) → slice_get (map (λ v. v.items) chunks.now) result ≡ Some chunk
        → first_against T.cmp elements.now value.now chunk ≡ Greater }
{
    let mut low = 0;
    let mut high = chunks.len();
    while low < high {
        let middle = low + (high - low) / 2;
        if starts_above(elements, &chunks[middle], value) {
            high = middle;
        } else {
            low = middle + 1;
        }
    }
    low
}

/// Where in a chunk the index is whose element is equal to a value; else where one would go.
fn search<T: Ord>(elements: &[T], chunk: &[u32], value: &T) -> Result<usize, usize>
    ensures found { IfOk result (λ at. (index : ℕ) × (slice_get chunk.now at ≡ Some index)
        × (against T.cmp elements.now value.now index ≡ Equal)) }
    ensures bound { IfErr result (λ at. at ≤ length chunk.now) }
    ensures less { IfErr result (λ at. (i index : ℕ) → at ≡ i + 1
        → slice_get chunk.now i ≡ Some index
        → against T.cmp elements.now value.now index ≡ Less) }
    ensures greater { IfErr result (λ at. (index : ℕ) → slice_get chunk.now at ≡ Some index
        → against T.cmp elements.now value.now index ≡ Greater) }
{
    let mut low = 0;
    let mut high = chunk.len();
    while low < high {
        let middle = low + (high - low) / 2;
        match compare(elements, chunk[middle], value) {
            Ordering::Less => low = middle + 1,
            Ordering::Equal => return Ok(middle),
            Ordering::Greater => high = middle,
        }
    }
    Err(low)
}

/// The place of the index whose element is equal to a value; else where one would go.
fn find_by_halves<T: Ord>(
    elements: &[T],
    chunks: &[Vec<u32>],
    value: &T,
) -> Result<OrderPlace, OrderPlace>
    requires { IsElementOrder T.cmp elements.now (map (λ v. v.items) chunks.now) }
    ensures found { IfOk result (λ place. IsFoundAt T.cmp elements.now
        (map (λ v. v.items) chunks.now) value.now place.chunk place.at) }
    ensures absent { IfErr result (λ place. IsGapFor T.cmp elements.now
        (map (λ v. v.items) chunks.now) value.now place.chunk place.at) }
{
    let Some(chunk) = chunks_before(elements, chunks, value).checked_sub(1) else {
        return Err(OrderPlace { chunk: 0, at: 0 });
    };
    match search(elements, &chunks[chunk], value) {
        Ok(at) => Ok(OrderPlace { chunk, at }),
        Err(at) => Err(OrderPlace { chunk, at }),
    }
}

/// Whether a chunk is the last, or the next starts above a value.
fn ends_below<T: Ord>(elements: &[T], chunks: &[Vec<u32>], chunk: usize, value: &T) -> bool
    requires { chunk < length chunks.now }
    ensures { (next : List ℕ) → IsTrue result
        → slice_get (map (λ v. v.items) chunks.now) (chunk + 1) ≡ Some next
        → first_against T.cmp elements.now value.now next ≡ Greater }
{
    match chunks.get(chunk + 1) {
        Some(next) => starts_above(elements, next, value),
        None => true,
    }
}

/// The place in a chunk of the index whose element is equal to a value; else where one would go,
/// and None if that may be in another chunk.
fn find_in<T: Ord>(
    elements: &[T],
    chunks: &[Vec<u32>],
    chunk: usize,
    value: &T,
) -> Option<Result<OrderPlace, OrderPlace>>
    requires { IsElementOrder T.cmp elements.now (map (λ v. v.items) chunks.now) }
    ensures found { IfSome result (λ found. IfOk found (λ place. IsFoundAt T.cmp elements.now
        (map (λ v. v.items) chunks.now) value.now place.chunk place.at)) }
    ensures absent { IfSome result (λ found. IfErr found (λ place. IsGapFor T.cmp elements.now
        (map (λ v. v.items) chunks.now) value.now place.chunk place.at)) }
{
    let indices = chunks.get(chunk)?;
    let at = match search(elements, indices, value) {
        Ok(at) => return Some(Ok(OrderPlace { chunk, at })),
        Err(at) => at,
    };
    let is_above_others = chunk == 0 || at > 0;
    if is_above_others && (at < indices.len() || ends_below(elements, chunks, chunk, value)) {
        return Some(Err(OrderPlace { chunk, at }));
    }
    None
}

/// The place of the index whose element is equal to a value; else where one would go.
pub fn find<T: Ord>(
    elements: &[T],
    chunks: &[Vec<u32>],
    bounds: &[T],
    value: &T,
) -> Result<OrderPlace, OrderPlace>
    requires { IsElementOrder T.cmp elements.now (map (λ v. v.items) chunks.now) }
    ensures found { IfOk result (λ place. IsFoundAt T.cmp elements.now
        (map (λ v. v.items) chunks.now) value.now place.chunk place.at) }
    ensures absent { IfErr result (λ place. IsGapFor T.cmp elements.now
        (map (λ v. v.items) chunks.now) value.now place.chunk place.at) }
{
    match find_in(elements, chunks, chunk_of(bounds, value), value) {
        Some(found) => found,
        None => find_by_halves(elements, chunks, value),
    }
}

/// The index whose element is equal to a value; else the place where one would go.
pub fn locate<T: Ord>(
    elements: &[T],
    chunks: &[Vec<u32>],
    bounds: &[T],
    value: &T,
) -> Result<u32, OrderPlace>
    requires { IsElementOrder T.cmp elements.now (map (λ v. v.items) chunks.now) }
    ensures found { IfOk result (λ index. IsIndexOf T.eq elements.now value.now index) }
    ensures one { (i : _) → IsIndexOf T.eq elements.now value.now i
        → IfOk result (λ index. index ≡ i) }
    ensures absent { IfErr result (λ place. IsGapFor T.cmp elements.now
        (map (λ v. v.items) chunks.now) value.now place.chunk place.at) }
    ensures new { OnErr result (IsNew T.eq elements.now value.now) }
{
    match find(elements, chunks, bounds, value) {
        Ok(place) => Ok(chunks[place.chunk][place.at]),
        Err(place) => Err(place),
    }
}

/// Puts an index at a place. On an Err all is as before.
pub fn insert(
    alloc: Global,
    chunks: &mut Vec<Vec<u32>>,
    place: OrderPlace,
    index: u32,
) -> Result<(), AllocError>
    requires { (chunk : List ℕ)
        → slice_get (map (λ v. v.items) chunks.old.items) place.chunk ≡ Some chunk
        → place.at ≤ length chunk }
    ensures ok { OnOk result (concat (map (λ v. v.items) chunks.new.items)
        ≡ before (map (λ v. v.items) chunks.old.items) place.chunk place.at
        ++ index ∷ after (map (λ v. v.items) chunks.old.items) place.chunk place.at) }
    ensures filled { OnOk result (All (λ c. c ≢ []) (map (λ v. v.items) chunks.old.items)
        → All (λ c. c ≢ []) (map (λ v. v.items) chunks.new.items)) }
    ensures err { OnErr result
        (map (λ v. v.items) chunks.new.items ≡ map (λ v. v.items) chunks.old.items) }
{
    match chunks.get_mut(place.chunk) {
        Some(chunk) => chunk.insert(place.at, index)?,
        None => chunks.push(alone(alloc, index)?)?,
    }
    Ok(())
}

/// A chunk of one index.
fn alone(alloc: Global, index: u32) -> Result<Vec<u32>, AllocError>
    ensures { IfOk result (λ chunk. chunk.items ≡ index ∷ []) }
{
    let mut chunk = Vec::new(alloc);
    chunk.push(index)?;
    Ok(chunk)
}

/// How many of its indices a chunk keeps when it is split; None while it may grow.
///
/// A chunk is split where one more index would need more room. A split moves the headers and the
/// bounds of the chunks behind it, and pays for that by the insertions before it. So where there
/// are many chunks, a chunk grows until its length times 8 is the number of chunks over its length:
/// an insertion of numbers then moves some 20 KB in the largest interner, which is about what its
/// search costs.
fn half_of_full(chunk: &Vec<u32>, chunks: usize) -> Option<usize>
    ensures { IfSome result (λ half. (0 < half) × (half < length chunk.now.items)) }
{
    let len = chunk.len();
    if len < FULL || len < chunk.capacity() || len / 8 < chunks / len {
        return None;
    }
    Some(len / 2)
}

/// The element of the first index of a chunk.
fn first_of<'a, T>(elements: &'a [T], chunk: &[u32]) -> Option<&'a T> {
    elements.get(*chunk.first()? as usize)
}

/// Splits a chunk in two, if it is full. Where an allocation fails, it stays as it is.
pub fn split_full<T: TryClone>(
    alloc: Global,
    elements: &[T],
    chunks: &mut Vec<Vec<u32>>,
    bounds: &mut Vec<T>,
    chunk: usize,
)
    ensures joined { concat (map (λ v. v.items) chunks.new.items)
        ≡ concat (map (λ v. v.items) chunks.old.items) }
    ensures filled { All (λ c. c ≢ []) (map (λ v. v.items) chunks.old.items)
        → All (λ c. c ≢ []) (map (λ v. v.items) chunks.new.items) }
{
    let Some(first) = chunks.get(chunk) else {
        return;
    };
    let Some(half) = half_of_full(first, chunks.len()) else {
        return;
    };
    let (_, rest) = first.split_at(half);
    let Some(least) = first_of(elements, rest) else {
        return;
    };
    let Ok(second) = Vec::from_slice(alloc, rest) else {
        return;
    };
    if put_bound(alloc, bounds, chunk, least).is_err() {
        return;
    }
    if chunks.insert(chunk + 1, second).is_ok() {
        chunks[chunk].truncate(half);
    } else {
        drop_bound(bounds, chunk);
    }
}

/// Takes the index at a place out, and drops a chunk that is then empty.
pub fn remove<T: Drop>(chunks: &mut Vec<Vec<u32>>, bounds: &mut Vec<T>, place: OrderPlace)
    requires { (chunk : List ℕ) × (slice_get (map (λ v. v.items) chunks.old.items) place.chunk
        ≡ Some chunk) × (place.at < length chunk) }
    ensures joined { (index : ℕ) (rest : List ℕ)
        → after (map (λ v. v.items) chunks.old.items) place.chunk place.at ≡ index ∷ rest
        → concat (map (λ v. v.items) chunks.new.items)
        ≡ before (map (λ v. v.items) chunks.old.items) place.chunk place.at ++ rest }
    ensures filled { All (λ c. c ≢ []) (map (λ v. v.items) chunks.old.items)
        → All (λ c. c ≢ []) (map (λ v. v.items) chunks.new.items) }
{
    let chunk = &mut chunks[place.chunk];
    chunk.remove(place.at);
    if chunk.is_empty() {
        chunks.remove(place.chunk);
        drop_bound(bounds, place.chunk.saturating_sub(1));
    }
}

/// Joins a chunk with the ones beside it, as far as they are small. Does not allocate.
///
/// So the room of the chunks follows the number of indices that stay. A chunk that was joined takes
/// as many more indices as it has, at least, before it is split.
pub fn merge_small<T: Drop>(chunks: &mut Vec<Vec<u32>>, bounds: &mut Vec<T>, chunk: usize)
    ensures joined { concat (map (λ v. v.items) chunks.new.items)
        ≡ concat (map (λ v. v.items) chunks.old.items) }
    ensures filled { All (λ c. c ≢ []) (map (λ v. v.items) chunks.old.items)
        → All (λ c. c ≢ []) (map (λ v. v.items) chunks.new.items) }
{
    merge_next(chunks, bounds, chunk);
    if let Some(before) = chunk.checked_sub(1) {
        merge_next(chunks, bounds, before);
    }
}

/// Moves the indices of the next chunk behind those of a chunk, and drops it, if both are small.
fn merge_next<T: Drop>(chunks: &mut Vec<Vec<u32>>, bounds: &mut Vec<T>, chunk: usize)
    ensures joined { concat (map (λ v. v.items) chunks.new.items)
        ≡ concat (map (λ v. v.items) chunks.old.items) }
    ensures filled { All (λ c. c ≢ []) (map (λ v. v.items) chunks.old.items)
        → All (λ c. c ≢ []) (map (λ v. v.items) chunks.new.items) }
{
    if !is_small_with_next(chunks, chunk) {
        return;
    }
    let next = chunks.remove(chunk + 1);
    drop_bound(bounds, chunk);
    if chunks[chunk].extend_from_slice(&next).is_err() {
        unreachable!()
    }
}

/// Whether a chunk and the next are small: both fill a half of the room of the first one at most.
fn is_small_with_next(chunks: &[Vec<u32>], chunk: usize) -> bool
    ensures { IsTrue result → (first : _) × (next : _)
        × (slice_get chunks.now chunk ≡ Some first) × (slice_get chunks.now (chunk + 1) ≡ Some next)
        × (vec_len first + vec_len next ≤ vec_capacity first) }
{
    let Some(first) = chunks.get(chunk) else {
        return false;
    };
    let Some(next) = chunks.get(chunk + 1) else {
        return false;
    };
    match (first.capacity() / 2).checked_sub(first.len()) {
        Some(room) => next.len() <= room,
        None => false,
    }
}
