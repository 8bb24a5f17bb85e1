//! Values shown up to a limit.
ghost use Rattle.std.specs.Prelude.{◌≡◌, ◌+◌, ◌≤◌, ◌∷◌, [], List, ℕ, Ok, Err, OnOk, IfOk, IfErr};
ghost use Rattle.std.proofs.Common.{refl, ◌∙◌, add-zero};
ghost use Rattle.scale_info_value.specs.Outcomes.{decoded};
ghost use Rattle.scale_info_value.specs.Readings.{reading};
ghost use Rattle.scale_info_value.specs.declared.value.Value as value_type;
ghost use Rattle.scale_info_value_visit.specs.declared.within.Refusal.TheVariants as refusal;
ghost use Rattle.scale_info_value_visit.specs.Events.{Event, events};
ghost use Rattle.scale_info_value_visit.specs.Reads.{events_read};
ghost use Rattle.scale_info_value_visit.specs.SizeLaws.{left_after, stops_later};
ghost use Rattle.scale_info_value_visit.specs.Sizes.{size, values, values_in, IsWithinErrorOf};
ghost use Rattle.scale_info_value_visit.specs.Sizes.{StopsAt};
ghost use Rattle.scale_info_value_visit.specs.Visits.{HasVisited};

use crate::visit::visit_value;
use crate::visitor::{ValueVisitor, VisitError};
use scale_info_types::form::PortableForm;
use scale_info_types::ty::Field;
use scale_info_types::ty::variant::Variant;
use scale_info_value::definition::Definitions;
use scale_info_value::value::Failure;
use std::fmt;
use thiserror::Error;

/// Why a visitor was not shown a whole value of so many values.
#[derive(Debug, Drop, PartialEq, Eq, Error)]
#[error_bound(E: fmt::Display)]
pub enum WithinError<E> {
    /// The bytes are no value of the type.
    #[error("{0}")]
    Failed(Failure),
    /// There are more values than the limit.
    #[error("the value has more parts than the limit")]
    TooLarge,
    /// The visitor stopped.
    #[error("{0}")]
    Stopped(E),
}

/// Why a visitor with a limit stops.
#[derive(Drop)]
enum Refusal<E> {
    /// There are more values than the limit.
    TooLarge,
    /// The visitor that the events are passed to stopped.
    Stopped(E),
}

/// What a method of the inner visitor returned, as what the outer one returns.
fn passed<E>(answer: Result<(), E>) -> Result<(), Refusal<E>>
    ensures ok { OnOk result (answer ≡ Ok tt) }
    ensures err { IfErr result (λ e. (why : E) × (answer ≡ Err why) × (e ≡ refusal.Stopped why)) }
{
    match answer {
        Ok(()) => Ok(()),
        Err(e) => Err(Refusal::Stopped(e)),
    }
}

/// Passes events on to a visitor, up to so many values.
#[derive(Drop)]
struct Limited<'v, V> {
    inner: &'v mut V,
    left: u64,
}

impl<'v, V: ValueVisitor> Limited<'v, V> {
    /// Takes so many values from those that are left: an event of so many may be passed on.
    fn take(&mut self, count: u64) -> Result<(), Refusal<V::Error>>
        ensures same { self.new.inner.ghost_name ≡ self.old.inner.ghost_name }
        ensures untouched { self.new.inner.now ≡ self.old.inner.now }
        ensures ok { OnOk result (self.new.left + count ≡ self.old.left) }
        ensures err { IfErr result (λ e. (event : Event) → values event ≡ count
            → StopsAt V.visited V.stopped (event ∷ [])
            self.old.left self.old.inner.now e self.new.inner.now) }
    {
        if self.left < count {
            return Err(Refusal::TooLarge);
        }
        self.left -= count;
        Ok(())
    }
}

impl<'v, V: ValueVisitor> ValueVisitor for Limited<'v, V> {
    type Error = Refusal<V::Error>;

    ghost visited = { λ es a b. (b.inner.ghost_name ≡ a.inner.ghost_name)
        × V.visited es a.inner.now b.inner.now × (b.left + values_in es ≡ a.left) };

    ghost stopped = { λ es a e b. (b.inner.ghost_name ≡ a.inner.ghost_name)
        × StopsAt V.visited V.stopped es a.left a.inner.now e b.inner.now };

    fn truth(&mut self, value: bool) -> Result<(), Refusal<V::Error>> {
        self.take(1)?;
        passed(self.inner.truth(value))
    }

    fn unsigned(&mut self, value: u128) -> Result<(), Refusal<V::Error>> {
        self.take(1)?;
        passed(self.inner.unsigned(value))
    }

    fn signed(&mut self, value: i128) -> Result<(), Refusal<V::Error>> {
        self.take(1)?;
        passed(self.inner.signed(value))
    }

    fn text(&mut self, value: &str) -> Result<(), Refusal<V::Error>> {
        self.take(1)?;
        passed(self.inner.text(value))
    }

    fn begin_list(&mut self, count: usize) -> Result<(), Refusal<V::Error>> {
        self.take(1)?;
        passed(self.inner.begin_list(count))
    }

    fn end_list(&mut self) -> Result<(), Refusal<V::Error>> {
        passed(self.inner.end_list())
    }

    fn begin_record(&mut self, fields: &[Field<PortableForm>]) -> Result<(), Refusal<V::Error>> {
        self.take(1)?;
        passed(self.inner.begin_record(fields))
    }

    fn end_record(&mut self, fields: &[Field<PortableForm>]) -> Result<(), Refusal<V::Error>> {
        passed(self.inner.end_record(fields))
    }

    fn begin_variant(
        &mut self,
        choice: &[Variant<PortableForm>],
        variant: &Variant<PortableForm>,
    ) -> Result<(), Refusal<V::Error>> {
        self.take(1)?;
        passed(self.inner.begin_variant(choice, variant))
    }

    fn end_variant(
        &mut self,
        choice: &[Variant<PortableForm>],
        variant: &Variant<PortableForm>,
    ) -> Result<(), Refusal<V::Error>> {
        passed(self.inner.end_variant(choice, variant))
    }

    fn field(&mut self, next: &Field<PortableForm>, named: bool) -> Result<(), Refusal<V::Error>> {
        passed(self.inner.field(next, named))
    }

    fn bytes(&mut self, all: &[u8]) -> Result<(), Refusal<V::Error>> {
        self.take(all.len() as u64 + 1)?;
        passed(self.inner.bytes(all))
    }

    ghost visited_none = { λ a. (refl, V.visited_none a.inner.now, add-zero a.left) };

    ghost visited_append = { λ es fs a b c first second. (
      second.0 ∙ first.0,
      V.visited_append es fs a.inner.now b.inner.now c.inner.now first.1 second.1,
      left_after es fs a.left b.left c.left first.2 second.2,
    ) };

    ghost stopped_later = { λ es fs a b e c first second. (
      second.0 ∙ first.0,
      stops_later V.visited_append V.stopped_later es fs a.left b.left
          a.inner.now b.inner.now e c.inner.now first.1 first.2 second.1,
    ) };
}

/// Shows the visitor one value of the type with this id, as `visit_value` does, if it is of at most
/// so many values. Each value counts one, with all inside it: a list of three bytes counts four.
///
/// It ends at the first event past the limit. So an array of 4294967295 empty tuples, which is a
/// table of two entries and takes no bytes, ends after as many of them as the limit allows.
///
/// Errors: `Failed`, where the bytes are no value of the type, after all events of what is read;
/// `TooLarge`, before the first event that is of a value past the limit; `Stopped`, where the
/// visitor stopped. So the visitor is never shown more values than the limit.
pub fn visit_value_within<'i, T: Definitions, V: ValueVisitor>(
    table: &T,
    id: u32,
    limit: u64,
    input: &'i [u8],
    visitor: &mut V,
) -> Result<&'i [u8], WithinError<V::Error>>
    ensures ok { IfOk result (λ rest. HasVisited V.visited
        (events (T.table table.now) id)
        (reading (T.table table.now) id 1 input.now)
        rest.now visitor.old visitor.new) }
    ensures fits { IfOk result (λ _. (value : value_type.Value) (rest : List ℕ)
        → reading (T.table table.now) id 1 input.now ≡ decoded value rest → size value ≤ limit) }
    ensures shown { IfOk result
        (λ _. values_in (events_read (T.table table.now) id input.now) ≤ limit) }
    ensures err { IfErr result (IsWithinErrorOf V.visited V.stopped
        (events_read (T.table table.now) id input.now)
        (reading (T.table table.now) id 1 input.now)
        limit visitor.old visitor.new) }
{
    let mut limited = Limited {
        inner: visitor,
        left: limit,
    };
    match visit_value(table, id, input, &mut limited) {
        Ok(rest) => Ok(rest),
        Err(VisitError::Failed(why)) => Err(WithinError::Failed(why)),
        Err(VisitError::Stopped(Refusal::TooLarge)) => Err(WithinError::TooLarge),
        Err(VisitError::Stopped(Refusal::Stopped(e))) => Err(WithinError::Stopped(e)),
    }
}
