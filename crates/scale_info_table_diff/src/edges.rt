//! Edges between pairs of types: which pair refers to which.
ghost use Rattle.std.specs.Prelude.{List, OnOk, ℕ};
ghost use Rattle.scale_info_table_diff.specs.Differing.{AreDiffering, IsEdge, StayDiffering};
ghost use Rattle.scale_info_types.specs.declared.ty.PortableType.{PortableType};

use std::alloc::{AllocError, Global};

/// What ends a chain of edges.
const NONE: usize = usize::MAX;

/// The edges that lead to each pair, as chains.
#[derive(Drop)]
struct Chains {
    /// For each pair the index of the last edge that leads to it.
    last: Vec<usize>,
    /// For each edge the index of the one before it that leads to the same pair.
    before: Vec<usize>,
}

/// The chains of edges between so many pairs.
///
/// Errors: `AllocError`, if an allocation failed.
fn chains_of(alloc: Global, edges: &[(usize, usize)], count: usize) -> Result<Chains, AllocError> {
    let mut last = Vec::new(alloc);
    last.resize(count, NONE)?;
    let mut before = Vec::with_capacity(alloc, edges.len())?;
    for (index, edge) in edges.iter().enumerate() {
        match last.get_mut(edge.1) {
            Some(end) => {
                before.push(*end)?;
                *end = index;
            }
            None => before.push(NONE)?,
        }
    }
    Ok(Chains { last, before })
}

/// Marks each pair from which edges lead to a pair with a mark.
///
/// Errors: `AllocError`, if an allocation failed; then some may have been marked.
pub(crate) fn spread(
    alloc: Global,
    edges: &[(usize, usize)],
    marks: &mut Vec<bool>,
) -> Result<(), AllocError>
    ensures { OnOk result (StayDiffering edges.now marks.old.items marks.new.items) }
{
    let chains = chains_of(alloc, edges, marks.len())?;
    let mut left = marked(alloc, marks)?;
    for _ in 0..marks.len() {
        let Some(number) = left.pop() else {
            return Ok(());
        };
        mark_before(edges, &chains, number, marks, &mut left)?;
    }
    Ok(())
}

/// The numbers that have a mark.
///
/// Errors: `AllocError`, if an allocation failed.
fn marked(alloc: Global, marks: &[bool]) -> Result<Vec<usize>, AllocError> {
    let mut numbers = Vec::new(alloc);
    for (number, mark) in marks.iter().enumerate() {
        if *mark {
            numbers.push(number)?;
        }
    }
    Ok(numbers)
}

/// Marks each pair from which an edge leads to the pair with this number, if that has a mark, and
/// pushes the numbers of those that had none.
///
/// Errors: `AllocError`, if an allocation failed; then some may have been marked.
fn mark_before(
    edges: &[(usize, usize)],
    chains: &Chains,
    number: usize,
    marks: &mut Vec<bool>,
    left: &mut Vec<usize>,
) -> Result<(), AllocError>
    ensures { OnOk result (StayDiffering edges.now marks.old.items marks.new.items) }
{
    let Some(last) = chains.last.get(number) else {
        return Ok(());
    };
    let mut index = *last;
    for _ in 0..edges.len() {
        let Some(edge) = edges.get(index) else {
            return Ok(());
        };
        if mark(marks, edge.0, edge.1) {
            left.push(edge.0)?;
        }
        let Some(before) = chains.before.get(index) else {
            return Ok(());
        };
        index = *before;
    }
    Ok(())
}

/// Marks the first number, if the second has a mark; whether it had none before.
fn mark(marks: &mut Vec<bool>, from: usize, to: usize) -> bool
    ensures { (types others : List PortableType) (pairs : List (ℕ × ℕ))
        → IsEdge types others pairs (from, to)
        → AreDiffering types others pairs marks.old.items
        → AreDiffering types others pairs marks.new.items }
{
    let Some(true) = marks.get(to) else {
        return false;
    };
    let Some(mark) = marks.get_mut(from) else {
        return false;
    };
    if *mark {
        return false;
    }
    *mark = true;
    true
}
