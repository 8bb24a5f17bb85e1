//! The references that a walk has still to look at.
ghost use Rattle.std.specs.Prelude.{◌≡◌, ◌+◌, ◌<◌, ◌^◌, ◌++◌, [], List, ℕ, IfOk, OnOk, OnErr};
ghost use Rattle.std.specs.Prelude.{length, map, reverse};
ghost use Rattle.scale_info_references.specs.Gathered.{targets};
ghost use Rattle.scale_info_types.specs.Portable.{Id};
ghost use Rattle.scale_info_references.specs.Conversions.{ids_in};
ghost use Rattle.scale_info_walk.specs.Walks.{IsNextOf};

use scale_info_identities::symbol::UntrackedSymbol;
use scale_info_identities::type_id::TypeId;
use scale_info_references::references::references_of;
use scale_info_types::form::PortableForm;
use scale_info_types::ty::Type;
use std::alloc::{AllocError, Global};
use std::marker::Model;

/// References that are still to be looked at, in order. Contracts see it as the list of their ids.
///
/// It is the only way to look at a reference in a walk, so that each look is counted.
///
/// ```text
/// let mut refs = Refs::of(alloc, &pair)?;  // of the tuple of 3 and 7
/// refs.next(&mut steps)  // Some(3), and steps is 1
/// refs.next(&mut steps)  // Some(7), and steps is 2
/// refs.next(&mut steps)  // None, and steps is still 2
/// ```
#[derive(Drop)]
pub struct Refs {
    // the last first
    left: Vec<u32>,
}

impl Model for Refs {
    ghost use Rattle.std.specs.Prelude.{ℕ, List, reverse};

    ghost Value = { List ℕ };

    ghost view = { λ refs. reverse refs.left.items };
}

impl Refs {
    /// No references.
    pub fn new(alloc: Global) -> Refs
        ensures { result ≡ [] }
    {
        Refs {
            left: Vec::new(alloc),
        }
    }

    /// All references of a description, in order: the types of its parameters that aren't skipped,
    /// then those of its definition.
    ///
    /// Errors: `AllocError`, if an allocation failed.
    pub fn of(alloc: Global, ty: &Type<PortableForm>) -> Result<Refs, AllocError>
        ensures ids { IfOk result (λ refs. refs ≡ ids_in ty.now) }
        ensures few { IfOk result (λ refs. length refs < 2 ^ 63) }
    {
        let mut refs = Refs::new(alloc);
        refs.prepend_of(alloc, ty)?;
        Ok(refs)
    }

    /// Puts the references of a description before those that are left.
    ///
    /// Errors: `AllocError`, if an allocation failed; then the references are as before.
    pub fn prepend_of(&mut self, alloc: Global, ty: &Type<PortableForm>) -> Result<(), AllocError>
        ensures ok { OnOk result (self.new ≡ ids_in ty.now ++ self.old) }
        ensures err { OnErr result (self.new ≡ self.old) }
        ensures few { OnOk result (length self.new < 2 ^ 63) }
    {
        let found = references_of(alloc, ty)?;
        let start = self.left.len();
        let pushed = push_symbols(&mut self.left, found);
        if pushed.is_err() {
            self.left.truncate(start);
        }
        pushed
    }

    /// Puts these references before those that are left.
    ///
    /// Errors: `AllocError`, if an allocation failed; then the references are as before.
    pub fn prepend(&mut self, ids: &[u32]) -> Result<(), AllocError>
        ensures ok { OnOk result (self.new ≡ ids.now ++ self.old) }
        ensures err { OnErr result (self.new ≡ self.old) }
        ensures few { OnOk result (length self.new < 2 ^ 63) }
    {
        let start = self.left.len();
        let pushed = push_reversed(&mut self.left, ids);
        if pushed.is_err() {
            self.left.truncate(start);
        }
        pushed
    }

    /// The next reference, which is taken out and counted in `steps`; None, where none is left, and
    /// then nothing is counted.
    pub fn next(&mut self, steps: &mut u128) -> Option<u32>
        requires { steps.old + 1 < 2 ^ 128 }
        ensures { IsNextOf self.old result self.new steps.old steps.new }
    {
        let id = self.left.pop()?;
        *steps += 1;
        Some(id)
    }
}

/// Pushes the ids from the last to the first. On an error some of them may have been pushed.
fn push_reversed(left: &mut Vec<u32>, ids: &[u32]) -> Result<(), AllocError>
    ensures ok { OnOk result (reverse left.new.items ≡ ids.now ++ reverse left.old.items) }
    ensures keeps { (more : List ℕ) × (left.new.items ≡ left.old.items ++ more) }
{
    let mut rest = ids;
    while let Some((last, front)) = rest.split_last() {
        if left.push(*last).is_err() {
            return Err(AllocError);
        }
        rest = front;
    }
    Ok(())
}

/// Pushes the ids of the symbols from the last to the first. On an error some of them may have been
/// pushed.
fn push_symbols(
    left: &mut Vec<u32>,
    mut found: Vec<&UntrackedSymbol<TypeId>>,
) -> Result<(), AllocError>
    ensures ok { OnOk result (reverse left.new.items
        ≡ map (λ (symbol : Id). symbol.id) (targets found.entry.items) ++ reverse left.old.items) }
    ensures keeps { (more : List ℕ) × (left.new.items ≡ left.old.items ++ more) }
{
    while let Some(last) = found.pop() {
        if left.push(last.id).is_err() {
            return Err(AllocError);
        }
    }
    Ok(())
}
