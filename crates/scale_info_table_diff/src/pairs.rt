//! Pairs of types, one of each of two tables, by their numbers.
ghost use Rattle.std.specs.Prelude.{◌≡◌, Some, IfOk, IfSome, slice_get};
ghost use Rattle.scale_info_table_diff.specs.Differing.{Grows};

use std::alloc::{AllocError, Global};
use std::collections::BTreeMap;

/// What an id without a pair has in the place of a number.
const NONE: usize = usize::MAX;

/// Pairs of ids, in the order in which they were found.
#[derive(Drop)]
pub(crate) struct Pairs {
    /// The pairs: an id of the old table, and one of the new table. Their numbers are the indices.
    pub items: Vec<(u32, u32)>,
    /// For each id of the old table the number of its first pair.
    first: Vec<usize>,
    /// The numbers of the others, by both ids in one.
    others: BTreeMap<u64, usize>,
}

impl Pairs {
    /// No pairs, for so many ids of the old table.
    ///
    /// Errors: `AllocError`, if an allocation failed.
    pub fn new(alloc: Global, count: usize) -> Result<Pairs, AllocError> {
        let mut first = Vec::new(alloc);
        first.resize(count, NONE)?;
        Ok(Pairs {
            items: Vec::new(alloc),
            first,
            others: BTreeMap::new(alloc),
        })
    }

    /// This number, if it is that of the pair of these ids.
    fn checked(&self, number: usize, id: u32, other: u32) -> Option<usize>
        ensures { IfSome result
            (λ number. slice_get self.now.items.items number ≡ Some (id, other)) }
    {
        let pair = self.items.get(number)?;
        if pair.0 != id || pair.1 != other {
            return None;
        }
        Some(number)
    }

    /// The number of the pair of these ids; None, where it is none of the pairs.
    pub fn find(&self, id: u32, other: u32) -> Option<usize>
        ensures { IfSome result
            (λ number. slice_get self.now.items.items number ≡ Some (id, other)) }
    {
        let first = *self.first.get(id as usize)?;
        if let Some(number) = self.checked(first, id, other) {
            return Some(number);
        }
        let number = *self.others.get(&key_of(id, other))?;
        self.checked(number, id, other)
    }

    /// The number of the pair of these ids, which is added where it is none of them; None, where
    /// the first id is no index of the old table.
    ///
    /// Errors: `AllocError`, if an allocation failed.
    pub fn number_of(&mut self, id: u32, other: u32) -> Result<Option<usize>, AllocError>
        ensures grows { Grows self.old.items.items self.new.items.items }
        ensures number { IfOk result (λ found. IfSome found
            (λ number. slice_get self.new.items.items number ≡ Some (id, other))) }
    {
        if let Some(number) = self.find(id, other) {
            return Ok(Some(number));
        }
        let Some(first) = self.first.get_mut(id as usize) else {
            return Ok(None);
        };
        let number = self.items.len();
        if *first == NONE {
            *first = number;
        } else if self.others.insert(key_of(id, other), number).is_err() {
            return Err(AllocError);
        }
        self.items.push((id, other))?;
        Ok(Some(number))
    }
}

/// Both ids in one integer.
fn key_of(id: u32, other: u32) -> u64 {
    (id as u64) << 32 | other as u64
}
