//! Numberings of a table: what is reached from some entries, in depth-first order of discovery.
//!
//! There are two walks of one contract: [`number`] keeps a list of work, and [`number_recursive`]
//! calls itself.
ghost use Rattle.std.specs.Prelude.{◌≡◌, ◌+◌, ◌<◌, ◌≤◌, ◌∷◌, [], ℕ, List, IfOk, IfErr, OnOk};
ghost use Rattle.std.specs.Prelude.{length};
ghost use Rattle.scale_info_numberings.specs.Systems.{looks};
ghost use Rattle.scale_info_numberings.specs.Numberings.{IsNumbering};
ghost use Rattle.scale_info_numberings.specs.Extensions.{IsExtension};
ghost use Rattle.scale_info_walk.specs.TypeSystems.{types_system};
ghost use Rattle.scale_info_walk.specs.Walks.{AreNumbers, IsRoom, IsWalkError, IsWalk, IsWalked};
ghost use Rattle.scale_info_walk.specs.Walks.{IsLook};
ghost use Rattle.scale_info_walk.specs.declared.walk.RetainError.TheVariants as retain;

use crate::references::{References, TypeReferences};
use crate::refs::Refs;
use scale_info_collections::failure::AllocationFailure;
use scale_info_types::ty::PortableType;
use std::alloc::Global;
use thiserror::Error;

/// The number of an index that has none: no order is so long.
pub(crate) const NONE: u32 = 4294967295;

/// Why a table could not be numbered or pruned.
#[derive(Debug, Drop, PartialEq, Eq, Error)]
pub enum RetainError {
    /// An id is reached that is no index of the table.
    #[error("dangling id {id}")]
    Dangling {
        /// The first such id that is met from the roots, depth first.
        id: u32,
    },
    /// The table has more than 4294967295 entries.
    #[error("the table has more than 4294967295 types")]
    TooManyTypes,
    /// An allocation failed.
    #[error("out of memory")]
    Memory,
}

impl<F: AllocationFailure> From<F> for RetainError {
    ghost from_gives = { λ _ e. e ≡ retain.Memory };

    fn from(_failure: F) -> RetainError {
        RetainError::Memory
    }
}

/// What a walk returns.
#[derive(Drop, PartialEq, Eq)]
pub struct Numbering {
    /// The old indices, in new order.
    pub order: Vec<u32>,
    /// How often the walk looked at a reference.
    pub steps: u128,
}

/// A numbering with the new number of each old index.
#[derive(Drop)]
pub struct Renumbering {
    /// The old indices, in new order.
    pub order: Vec<u32>,
    /// For each old index its place in `order`, or 4294967295 where it has none.
    pub numbers: Vec<u32>,
    /// As the steps of a [`Numbering`].
    pub steps: u128,
}

/// Numbers what the roots reach, depth first: a root and then all that its references reach, in
/// order, before the next root. A list of work keeps the references that are still to be looked at,
/// so the depth of the table does not matter.
///
/// ```text
/// number(alloc, types, &[1])  // of C, A { b: B, c: C }, B { d: D }, D { a: A }: 1, 2, 3, 0
/// ```
///
/// Errors: `Dangling`, where an id is reached that is no index; `TooManyTypes`, where there are
/// more than 4294967295 entries; `Memory`, where an allocation failed.
pub fn number(
    alloc: Global,
    types: &[PortableType],
    roots: &[u32],
) -> Result<Numbering, RetainError>
    ensures numbering { IfOk result (λ n.
        IsNumbering (types_system types.now) roots.now n.order.items) }
    ensures only { IfOk result (λ n. (L : List ℕ) →
        IsNumbering (types_system types.now) roots.now L → L ≡ n.order.items) }
    ensures steps { IfOk result (λ n. n.steps ≡ looks (types_system types.now) n.order.items) }
    ensures cause { IfErr result
        (IsWalkError (types_system types.now) (length types.now) [] roots.now) }
{
    let found = number_entries(alloc, types, roots)?;
    Ok(Numbering {
        order: found.order,
        steps: found.steps,
    })
}

/// The same numbering by a recursion, which goes as deep as the table does.
///
/// It is there to be read and compared: a chain of many types takes as many nested calls.
///
/// Errors: as those of [`number`].
pub fn number_recursive(
    alloc: Global,
    types: &[PortableType],
    roots: &[u32],
) -> Result<Numbering, RetainError>
    ensures numbering { IfOk result (λ n.
        IsNumbering (types_system types.now) roots.now n.order.items) }
    ensures only { IfOk result (λ n. (L : List ℕ) →
        IsNumbering (types_system types.now) roots.now L → L ≡ n.order.items) }
    ensures steps { IfOk result (λ n. n.steps ≡ looks (types_system types.now) n.order.items) }
    ensures cause { IfErr result
        (IsWalkError (types_system types.now) (length types.now) [] roots.now) }
{
    let source = TypeReferences { types };
    let mut found = no_numbers(alloc, &source)?;
    for root in roots {
        visit_recursively(alloc, &source, *root, &mut found)?;
    }
    Ok(Numbering {
        order: found.order,
        steps: found.steps,
    })
}

/// Numbers what the roots reach, as [`number`] does, and returns the new number of each index too.
///
/// Errors: as those of [`number`].
pub fn number_entries(
    alloc: Global,
    types: &[PortableType],
    roots: &[u32],
) -> Result<Renumbering, RetainError>
    ensures numbering { IfOk result (λ n.
        IsNumbering (types_system types.now) roots.now n.order.items) }
    ensures numbers { IfOk result (λ n. AreNumbers n.order.items n.numbers.items) }
    ensures count { IfOk result (λ n. length n.numbers.items ≡ length types.now) }
    ensures few { IfOk result (λ n. length types.now ≤ 4294967295) }
    ensures steps { IfOk result (λ n. n.steps ≡ looks (types_system types.now) n.order.items) }
    ensures cause { IfErr result
        (IsWalkError (types_system types.now) (length types.now) [] roots.now) }
{
    number_references(alloc, &TypeReferences { types }, roots)
}

/// Numbers what the roots reach, as [`number`] does, over anything that has references, and returns
/// the new number of each index too.
///
/// Errors: as those of [`number`].
pub fn number_references<R: References>(
    alloc: Global,
    source: &R,
    roots: &[u32],
) -> Result<Renumbering, RetainError>
    ensures numbering { IfOk result (λ n.
        IsNumbering (R.system source.now) roots.now n.order.items) }
    ensures numbers { IfOk result (λ n. AreNumbers n.order.items n.numbers.items) }
    ensures count { IfOk result (λ n. length n.numbers.items ≡ R.count source.now) }
    ensures few { IfOk result (λ n. R.count source.now ≤ 4294967295) }
    ensures steps { IfOk result (λ n. n.steps ≡ looks (R.system source.now) n.order.items) }
    ensures cause { IfErr result
        (IsWalkError (R.system source.now) (R.count source.now) [] roots.now) }
{
    let found = no_numbers(alloc, source)?;
    number_roots(alloc, source, roots, found)
}

/// Numbers what the roots reach, as [`number_references`] does, reusing the buffers of an earlier
/// numbering of as many entries, if there is one: then it takes time for what is reached, now and
/// earlier, however many entries there are.
///
/// Errors: as those of [`number`].
pub fn number_references_in<R: References>(
    alloc: Global,
    source: &R,
    roots: &[u32],
    room: Option<Renumbering>,
) -> Result<Renumbering, RetainError>
    requires { IsRoom (R.count source.now) room }
    ensures ok { IfOk result (IsWalked (R.system source.now) (R.count source.now) roots.now) }
    ensures cause { IfErr result
        (IsWalkError (R.system source.now) (R.count source.now) [] roots.now) }
{
    let none = match room {
        Some(room) => cleared(room),
        None => no_numbers(alloc, source)?,
    };
    number_roots(alloc, source, roots, none)
}

/// The numbering of no roots, reusing the buffers of an earlier numbering.
fn cleared(room: Renumbering) -> Renumbering
    requires { AreNumbers room.order.items room.numbers.items }
    ensures order { result.order.items ≡ [] }
    ensures dense { AreNumbers [] result.numbers.items }
    ensures long { length result.numbers.items ≡ length room.numbers.items }
    ensures steps { result.steps ≡ 0 }
{
    let Renumbering {
        mut order,
        mut numbers,
        ..
    } = room;
    for id in &order {
        let Some(number) = numbers.get_mut(*id as usize) else {
            continue;
        };
        *number = NONE;
    }
    order.clear();
    Renumbering {
        order,
        numbers,
        steps: 0,
    }
}

/// Numbers what the roots reach, where nothing is numbered yet.
fn number_roots<R: References>(
    alloc: Global,
    source: &R,
    roots: &[u32],
    none: Renumbering,
) -> Result<Renumbering, RetainError>
    requires walk { IsWalk (R.system source.now) (R.count source.now)
        none.order.items none.numbers.items none.steps }
    requires order { none.order.items ≡ [] }
    requires steps { none.steps ≡ 0 }
    ensures ok { IfOk result (IsWalked (R.system source.now) (R.count source.now) roots.now) }
    ensures cause { IfErr result
        (IsWalkError (R.system source.now) (R.count source.now) [] roots.now) }
{
    let mut found = none;
    for root in roots {
        visit(alloc, source, *root, &mut found)?;
    }
    Ok(found)
}

/// The numbering of no roots.
fn no_numbers<R: References>(alloc: Global, source: &R) -> Result<Renumbering, RetainError>
    ensures walk { IfOk result (λ n.
        IsWalk (R.system source.now) (R.count source.now)
        n.order.items n.numbers.items n.steps) }
    ensures order { IfOk result (λ n. n.order.items ≡ []) }
    ensures steps { IfOk result (λ n. n.steps ≡ 0) }
    ensures cause { IfErr result (IsWalkError (R.system source.now) (R.count source.now) [] []) }
{
    let count = source.len();
    if count > 4294967295 {
        return Err(RetainError::TooManyTypes);
    }
    let mut numbers = Vec::new(alloc);
    numbers.resize(count, NONE)?;
    Ok(Renumbering {
        order: Vec::new(alloc),
        numbers,
        steps: 0,
    })
}

/// Extends the order by an id, with a list of work.
fn visit<R: References>(
    alloc: Global,
    source: &R,
    id: u32,
    walk: &mut Renumbering,
) -> Result<(), RetainError>
    requires { IsWalk (R.system source.now) (R.count source.now)
        walk.old.order.items walk.old.numbers.items walk.old.steps }
    ensures walk { OnOk result (IsWalk (R.system source.now) (R.count source.now)
        walk.new.order.items walk.new.numbers.items walk.new.steps) }
    ensures extends { OnOk result
        (IsExtension (R.system source.now) walk.old.order.items (id ∷ []) walk.new.order.items) }
    ensures counted { OnOk result (walk.new.steps + looks (R.system source.now) walk.old.order.items
        ≡ walk.old.steps + looks (R.system source.now) walk.new.order.items) }
    ensures cause { IfErr result
        (IsWalkError (R.system source.now) (R.count source.now) walk.old.order.items (id ∷ [])) }
{
    let mut refs = Refs::new(alloc);
    look(alloc, source, id, walk, &mut refs)?;
    while let Some(next) = refs.next(&mut walk.steps) {
        look(alloc, source, next, walk, &mut refs)?;
    }
    Ok(())
}

/// Extends the order by an id, with a recursion.
fn visit_recursively<R: References>(
    alloc: Global,
    source: &R,
    id: u32,
    walk: &mut Renumbering,
) -> Result<(), RetainError>
    requires { IsWalk (R.system source.now) (R.count source.now)
        walk.old.order.items walk.old.numbers.items walk.old.steps }
    ensures walk { OnOk result (IsWalk (R.system source.now) (R.count source.now)
        walk.new.order.items walk.new.numbers.items walk.new.steps) }
    ensures extends { OnOk result
        (IsExtension (R.system source.now) walk.old.order.items (id ∷ []) walk.new.order.items) }
    ensures counted { OnOk result (walk.new.steps + looks (R.system source.now) walk.old.order.items
        ≡ walk.old.steps + looks (R.system source.now) walk.new.order.items) }
    ensures cause { IfErr result
        (IsWalkError (R.system source.now) (R.count source.now) walk.old.order.items (id ∷ [])) }
{
    let mut refs = Refs::new(alloc);
    look(alloc, source, id, walk, &mut refs)?;
    while let Some(next) = refs.next(&mut walk.steps) {
        visit_recursively(alloc, source, next, walk)?;
    }
    Ok(())
}

/// Numbers an id, if it has no number yet, and puts its references before those that are left.
fn look<R: References>(
    alloc: Global,
    source: &R,
    id: u32,
    walk: &mut Renumbering,
    refs: &mut Refs,
) -> Result<(), RetainError>
    requires { IsWalk (R.system source.now) (R.count source.now)
        walk.old.order.items walk.old.numbers.items walk.old.steps }
    ensures walk { OnOk result (IsWalk (R.system source.now) (R.count source.now)
        walk.new.order.items walk.new.numbers.items walk.new.steps) }
    ensures look { OnOk result (IsLook (R.system source.now) id
        walk.old.order.items refs.old walk.new.order.items refs.new) }
    ensures steps { walk.new.steps ≡ walk.old.steps }
    ensures cause { IfErr result
        (IsWalkError (R.system source.now) (R.count source.now) walk.old.order.items (id ∷ [])) }
{
    let Some(number) = walk.numbers.get_mut(id as usize) else {
        return Err(RetainError::Dangling { id });
    };
    if *number != NONE {
        return Ok(());
    }
    *number = walk.order.len() as u32;
    walk.order.push(id)?;
    source.prepend_refs(alloc, id, refs)?;
    Ok(())
}
