//! A list of values, which contracts see as the list of its elements.
ghost use Rattle.std.specs.Prelude.{◌≡◌, ◌++◌, ◌∷◌, ◌↔◌, ◌<◌, ◌^◌, [], length, IsTrue};
ghost use Rattle.std.specs.Prelude.{if◌then◌else◌, is_ok, IfOk, IfErr, OnOk};
ghost use Rattle.std.specs.Prelude.{vec_len, vec_capacity};
ghost use Rattle.std.specs.Slice.Iter.{iter_rest, iter_steps};
ghost use Rattle.std.specs.Iterator.Runs.{EveryRun, ItemsMapTo};
ghost use Rattle.std.specs.Cmp.Lexicographic.{pointwise, slice_cmp, slice_partial_cmp, lists_equiv};
ghost use Rattle.std.specs.Cmp.Lexicographic.{lists_agrees, lists_total, lists_ties, lists_per};
ghost use Rattle.std.specs.Cmp.Lexicographic.{lists_po};
ghost use Rattle.std.specs.Hash as fed;
ghost use Rattle.std.specs.Hash.{items_Alike};

use std::alloc::{AllocError, AllocFailed, Global};
use std::cmp::Ordering;
use std::hash::{Hash, Hasher};
use std::iter::FromIterator;
use std::marker::Model;
use std::ops::DerefSlice;
use std::{fmt, slice};

/// A list. Two lists with equal elements are one value to a contract, which two `Vec`s are not.
///
/// It is made from a `Vec` and gives it back without allocating, and it has the methods of a slice:
/// `items.first()`, `items[0]` and `for item in &items` work as they do for a `Vec`.
///
/// ```text
/// let items = Items::from(vec![in alloc; 1, 2]?);
/// items.first()  // Some(&1)
/// ```
#[derive(Drop)]
pub struct Items<T> {
    all: Vec<T>,
}

impl<T> Model for Items<T> {
    ghost use Rattle.std.specs.Prelude.{List};

    ghost Value = { List T };

    ghost view = { λ a. a.all.items };
}

impl<T> Items<T> {
    /// The empty list.
    pub fn new(alloc: Global) -> Self
        ensures { result ≡ [] }
    {
        Items {
            all: Vec::new(alloc),
        }
    }

    /// The empty list, with capacity for this many elements.
    ///
    /// Errors: `AllocError`, if an allocation failed.
    pub fn with_capacity(alloc: Global, capacity: usize) -> Result<Self, AllocError>
        ensures { IfOk result (λ items. items ≡ []) }
    {
        Ok(Items {
            all: Vec::with_capacity(alloc, capacity)?,
        })
    }

    /// The vector of the elements. Does not allocate.
    pub fn into_vec(self) -> Vec<T>
        ensures { result.items ≡ self }
    {
        let Items { all } = self;
        all
    }

    /// The elements as a slice.
    pub fn as_slice(&self) -> &[T]
        ensures { result.now ≡ self.now }
    {
        &self.all
    }

    /// The number of elements.
    pub fn len(&self) -> usize
        ensures { result ≡ length self.now }
    {
        self.all.len()
    }

    /// Whether there is no element.
    pub fn is_empty(&self) -> bool
        ensures { IsTrue result ↔ (self.now ≡ []) }
    {
        self.all.is_empty()
    }

    /// The elements in order.
    pub fn iter(&self) -> slice::Iter<'_, T>
        ensures rest { iter_rest result ≡ self.now }
        ensures runs { EveryRun (iter_steps {A = T})
            (λ p. ItemsMapTo p (λ y. y.now) (iter_rest p.from)) }
    {
        self.all.iter()
    }

    /// Puts one more element at the end. On an Err the list is as before, and the element is
    /// returned.
    pub fn push(&mut self, value: T) -> Result<(), AllocFailed<T>>
        ensures list { self.new ≡ (if is_ok result then self.old ++ value ∷ [] else self.old) }
        ensures value_returned { IfErr result (λ failed. failed.value ≡ value) }
    {
        self.push_towards(usize::MAX, value)
    }

    /// Puts one more element at the end of a list that is to have `count` elements. On an Err the
    /// list is as before, and the element is returned.
    ///
    /// The capacity grows as by `push`, from 0 to 4 and then to twice as much, but not past
    /// `count`. So the list allocates by what it holds, whatever the count announces, and a list
    /// of `count` elements has no spare capacity. Past the count it grows as by `push`.
    pub fn push_towards(&mut self, count: usize, value: T) -> Result<(), AllocFailed<T>>
        ensures list { self.new ≡ (if is_ok result then self.old ++ value ∷ [] else self.old) }
        ensures value_returned { IfErr result (λ failed. failed.value ≡ value) }
    {
        if self.all.len() == self.all.capacity() && reserve_towards(&mut self.all, count).is_err() {
            return Err(AllocFailed { value });
        }
        self.all.push_reserved(value);
        Ok(())
    }
}

/// Makes room for at least one more element, in a list that is to have `count` elements.
#[cold]
#[inline(never)]
fn reserve_towards<T>(all: &mut Vec<T>, count: usize) -> Result<(), AllocError>
    ensures items { all.new.items ≡ all.old.items }
    ensures room { OnOk result (vec_len all.new < vec_capacity all.new) }
{
    let len = all.len();
    let growth = len.max(4);
    let wanted = if len < count {
        growth.min(count - len)
    } else {
        growth
    };
    all.reserve_exact(wanted)
}

/// The methods of a slice: `first`, `get`, an index and the like.
impl<T> DerefSlice for Items<T> {
    type Elem = T;

    ghost deref_gives = { λ all xs. xs ≡ all };

    fn deref(&self) -> &[T] {
        self.as_slice()
    }
}

impl<T> From<Vec<T>> for Items<T> {
    ghost from_gives = { λ all items. items ≡ all.items };

    fn from(all: Vec<T>) -> Items<T> {
        Items { all }
    }
}

impl<T> From<Items<T>> for Vec<T> {
    ghost from_gives = { λ items all. all.items ≡ items };

    fn from(items: Items<T>) -> Vec<T> {
        items.into_vec()
    }
}

impl<T: Drop> FromIterator<T> for Items<T> {
    type Alloc = Global;

    ghost from_iter_gives = { λ given items. items ≡ given };

    fn from_iter<U: IntoIterator<Item = T>>(
        alloc: Global,
        iter: U,
    ) -> Result<Items<T>, AllocError> {
        Ok(Items {
            all: Vec::from_iter(alloc, iter)?,
        })
    }
}

impl<T: PartialEq> PartialEq for Items<T> {
    ghost eq = { pointwise T.eq };

    ghost laws = { lists_per T.laws };

    fn eq(&self, other: &Items<T>) -> bool {
        self.all.as_slice() == other.all.as_slice()
    }
}

impl<T: Eq> Eq for Items<T> {
    ghost laws = { lists_equiv T.Eq.laws };
}

impl<T: PartialOrd> PartialOrd for Items<T> {
    ghost partial_cmp = { slice_partial_cmp T.partial_cmp };

    ghost laws = { lists_po T.PartialOrd.laws };

    fn partial_cmp(&self, other: &Items<T>) -> Option<Ordering> {
        self.all.as_slice().partial_cmp(other.all.as_slice())
    }
}

impl<T: Ord> Ord for Items<T> {
    ghost cmp = { slice_cmp T.cmp };

    ghost total = { lists_total T.total };

    ghost matches_partial_cmp = { lists_agrees T.matches_partial_cmp };

    ghost matches_eq = { lists_ties T.cmp T.matches_eq };

    fn cmp(&self, other: &Items<T>) -> Ordering {
        self.all.as_slice().cmp(other.all.as_slice())
    }
}

impl<T: fmt::Debug> fmt::Debug for Items<T> {
    fn fmt<W: fmt::Write>(&self, f: &mut fmt::Formatter<W>) -> fmt::Result {
        f.debug_list().entries(self.all.iter()).finish()
    }
}

impl<'a, T> IntoIterator for &'a Items<T> {
    type Item = &'a T;

    type IntoIter = slice::Iter<'a, T>;

    ghost into_iter_gives = { λ items iter.
        (iter_rest iter ≡ items.now) × (length (iter_rest iter) < 2 ^ 64)
        × EveryRun (iter_steps {A = T}) (λ p. ItemsMapTo p (λ y. y.now) (iter_rest p.from)) };

    fn into_iter(self) -> slice::Iter<'a, T> {
        self.iter()
    }
}

impl<T: Hash> Hash for Items<T> {
    ghost hash_input = { fed.slice T.hash_input };

    ghost respects_eq = { (items_Alike (record { fed = T.respects_eq })).fed };

    fn hash<H: Hasher>(&self, state: &mut H) {
        self.all.as_slice().hash(state)
    }
}
