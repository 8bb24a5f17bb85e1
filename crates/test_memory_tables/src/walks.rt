//! Walks over tables: what ids reach, and the references of a description.
use crate::prunings::given;
use scale_info::RetainError;
use scale_info::walk::{Numbering, Refs, number, number_recursive};
use std::alloc::{AllocError, Global};
use std::test::Fail;
use test_common::held::Held;
use test_memory_common::answers::{done, failed, shown};
use test_memory_common::inputs::table_of;
use test_memory_common::outcomes::Outcome;
use test_memory_common::{answered, marked};

/// The outcome of a walk.
pub fn walked(alloc: Global, returned: Result<Numbering, RetainError>) -> Result<Outcome, Fail> {
    let answer = match returned {
        Ok(found) => {
            let (order, steps) = (found.order, found.steps);
            done(format!(in alloc; "{order:?} in {steps} steps"))
        }
        Err(error) => failed(alloc, &error),
    };
    Outcome::of(answer)
}

/// Numbers what the given ids reach.
fn number_table(rt: &HostRuntime, row: &str) -> Result<Outcome, Fail> {
    let (name, ids) = given(rt.alloc(), row)?;
    let table = Held(table_of(rt.alloc(), name)?);
    let returned = marked!(rt; number(rt.alloc(), table.0.types(), &ids));
    walked(rt.alloc(), returned)
}

/// Numbers what the given ids reach, by a recursion.
fn number_table_recursively(rt: &HostRuntime, row: &str) -> Result<Outcome, Fail> {
    let (name, ids) = given(rt.alloc(), row)?;
    let table = Held(table_of(rt.alloc(), name)?);
    let returned = marked!(rt; number_recursive(rt.alloc(), table.0.types(), &ids));
    walked(rt.alloc(), returned)
}

/// The references of the first description.
fn all_of(alloc: Global, mut refs: Refs) -> Result<Vec<u32>, AllocError> {
    let mut ids = Vec::new(alloc);
    for _ in 0..64 {
        let mut steps = 0;
        match refs.next(&mut steps) {
            Some(id) => ids.push(id)?,
            None => break,
        }
    }
    Ok(ids)
}

/// The references of the first description, as a text.
fn listed(alloc: Global, refs: Refs) -> Result<String, AllocError> {
    let ids = all_of(alloc, refs)?;
    format!(in alloc; "{ids:?}")
}

/// Lists the references of the entry at index 0.
fn refs_of(rt: &HostRuntime, row: &str) -> Result<Outcome, Fail> {
    let table = Held(table_of(rt.alloc(), row)?);
    let Some(ty) = table.0.resolve(0) else {
        return Err(Fail::new("the table is empty"));
    };
    answered!(
        rt;
        Refs::of(rt.alloc(), ty);
        refs => done(listed(rt.alloc(), refs))
    )
}

/// Puts the references of the entry at index 0 before one that is left.
fn prepend(rt: &HostRuntime, row: &str) -> Result<Outcome, Fail> {
    let table = Held(table_of(rt.alloc(), row)?);
    let Some(ty) = table.0.resolve(0) else {
        return Err(Fail::new("the table is empty"));
    };
    let mut refs = Refs::new(rt.alloc());
    refs.prepend(&[9])?;
    let returned = marked!(rt; refs.prepend_of(rt.alloc(), ty));
    let before = String::from_str(rt.alloc(), "[9]");
    let after = listed(rt.alloc(), refs);
    Outcome::lending(before, after, shown(rt.alloc(), returned))
}

/// Takes the first reference of the entry at index 0.
fn next_refs(rt: &HostRuntime, row: &str) -> Result<Outcome, Fail> {
    let table = Held(table_of(rt.alloc(), row)?);
    let Some(ty) = table.0.resolve(0) else {
        return Err(Fail::new("the table is empty"));
    };
    let mut refs = Refs::of(rt.alloc(), ty)?;
    let mut steps = 0;
    let first = marked!(rt; refs.next(&mut steps));
    Outcome::of(done(format!(in rt.alloc(); "{first:?} {steps}")))
}

/// Makes the call of this name, which walks over a table.
pub fn call(rt: &HostRuntime, name: &str, input: &str) -> Result<Outcome, Fail> {
    match name {
        "number" => number_table(rt, input),
        "number_recursive" => number_table_recursively(rt, input),
        "Refs::of" => refs_of(rt, input),
        "Refs::prepend_of" => prepend(rt, input),
        "Refs::next" => next_refs(rt, input),
        _ => Err(Fail::new("no call has this name")),
    }
}
