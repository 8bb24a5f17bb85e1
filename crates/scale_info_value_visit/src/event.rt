//! Values shown as events, each passed to one function.
ghost use Rattle.std.specs.Prelude.{◌≡◌, ◌∷◌, [], OnOk, IfOk, IfErr};
ghost use Rattle.std.proofs.Common.{refl, ◌∙◌};
ghost use Rattle.scale_info_value.specs.Readings.{reading};
ghost use Rattle.scale_info_value_visit.specs.EachEvent.{event_of, TakesEach, RefusesLast};
ghost use Rattle.scale_info_value_visit.specs.EventLaws.{takes_append, refuses_later};
ghost use Rattle.scale_info_value_visit.specs.Events.{Event, events};
ghost use Rattle.scale_info_value_visit.specs.Reads.{events_read};
ghost use Rattle.scale_info_value_visit.specs.Visits.{HasVisited, IsVisitErrorOf};

use crate::visit::visit_value;
use crate::visitor::{ValueVisitor, VisitError};
use scale_info_types::form::PortableForm;
use scale_info_types::ty::Field;
use scale_info_types::ty::variant::Variant;
use scale_info_value::definition::Definitions;

/// One step of going over a value, as `ValueVisitor` is shown it by one of its functions.
///
/// Texts, bytes, fields and variants are borrowed for the time of the call.
#[derive(Clone, Copy)]
pub enum ValueEvent<'e> {
    /// A truth value.
    Truth(bool),
    /// An integer of an unsigned type, or a compact integer.
    Unsigned(u128),
    /// An integer of a signed type.
    Signed(i128),
    /// A text.
    Text(&'e str),
    /// A list of bytes, whole.
    Bytes(&'e [u8]),
    /// A list of so many items begins.
    BeginList(usize),
    /// The list ends.
    EndList,
    /// A record of these fields begins.
    BeginRecord(&'e [Field<PortableForm>]),
    /// The record of these fields ends.
    EndRecord(&'e [Field<PortableForm>]),
    /// A value of an enum begins.
    BeginVariant {
        /// The variants of the enum, as the table has them.
        choice: &'e [Variant<PortableForm>],
        /// The variant of the value.
        variant: &'e Variant<PortableForm>,
    },
    /// The value of an enum ends.
    EndVariant {
        /// The variants of the enum, as the table has them.
        choice: &'e [Variant<PortableForm>],
        /// The variant of the value.
        variant: &'e Variant<PortableForm>,
    },
    /// A field, whose value comes next.
    Field {
        /// The field, as the table has it.
        field: &'e Field<PortableForm>,
        /// Whether each field of its record or variant has a name.
        named: bool,
    },
}

/// What takes the events of a value one at a time, by one function.
///
/// An implementor states what one event does to it, `taken`, and what it is to refuse one,
/// `refused`, and owes no laws. One that states nothing and never stops:
///
/// ```text
/// #[derive(Drop)]
/// struct Total(u128);
///
/// impl EventVisitor for Total {
///     type Error = Infallible;
///
///     ghost taken = { λ event old new. Unit {0} };
///
///     ghost refused = { λ event old e new. ⊥ };
///
///     fn event(&mut self, event: ValueEvent<'_>) -> Result<(), Infallible> {
///         if let ValueEvent::Unsigned(amount) = event {
///             self.0 = self.0.saturating_add(amount);
///         }
///         Ok(())
///     }
/// }
/// ```
pub trait EventVisitor {
    /// Why the visitor stops.
    type Error: Drop;

    /// What an event does to the visitor.
    ghost taken: { Event → Self → Self → Type 0 };

    /// What it is to refuse an event: the visitor stopped with this error and is left as this.
    ghost refused: { Event → Self → Self.Error → Self → Type 0 };

    /// Takes an event.
    fn event(&mut self, event: ValueEvent<'_>) -> Result<(), Self::Error>
        ensures ok { OnOk result (taken (event_of event.entry) self.old self.new) }
        ensures err { IfErr result (λ e. refused (event_of event.entry) self.old e self.new) };
}

/// Passes each event on to one function.
#[derive(Drop)]
struct EachEvent<'v, V> {
    inner: &'v mut V,
}

impl<'v, V: EventVisitor> EachEvent<'v, V> {
    /// Passes an event on.
    #[inline(always)]
    fn pass(&mut self, event: ValueEvent<'_>) -> Result<(), V::Error>
        ensures same { self.new.inner.ghost_name ≡ self.old.inner.ghost_name }
        ensures ok { OnOk result (TakesEach V.taken (event_of event.entry ∷ [])
            self.old.inner.now self.new.inner.now) }
        ensures err { IfErr result (λ e. RefusesLast V.taken V.refused (event_of event.entry ∷ [])
            self.old.inner.now e self.new.inner.now) }
    {
        self.inner.event(event)
    }
}

impl<'v, V: EventVisitor> ValueVisitor for EachEvent<'v, V> {
    type Error = V::Error;

    ghost visited = { λ es a b. (b.inner.ghost_name ≡ a.inner.ghost_name)
        × TakesEach V.taken es a.inner.now b.inner.now };

    ghost stopped = { λ es a e b. (b.inner.ghost_name ≡ a.inner.ghost_name)
        × RefusesLast V.taken V.refused es a.inner.now e b.inner.now };

    #[inline(always)]
    fn truth(&mut self, value: bool) -> Result<(), V::Error> {
        self.pass(ValueEvent::Truth(value))
    }

    #[inline(always)]
    fn unsigned(&mut self, value: u128) -> Result<(), V::Error> {
        self.pass(ValueEvent::Unsigned(value))
    }

    #[inline(always)]
    fn signed(&mut self, value: i128) -> Result<(), V::Error> {
        self.pass(ValueEvent::Signed(value))
    }

    #[inline(always)]
    fn text(&mut self, value: &str) -> Result<(), V::Error> {
        self.pass(ValueEvent::Text(value))
    }

    #[inline(always)]
    fn begin_list(&mut self, count: usize) -> Result<(), V::Error> {
        self.pass(ValueEvent::BeginList(count))
    }

    #[inline(always)]
    fn end_list(&mut self) -> Result<(), V::Error> {
        self.pass(ValueEvent::EndList)
    }

    #[inline(always)]
    fn begin_record(&mut self, fields: &[Field<PortableForm>]) -> Result<(), V::Error> {
        self.pass(ValueEvent::BeginRecord(fields))
    }

    #[inline(always)]
    fn end_record(&mut self, fields: &[Field<PortableForm>]) -> Result<(), V::Error> {
        self.pass(ValueEvent::EndRecord(fields))
    }

    #[inline(always)]
    fn begin_variant(
        &mut self,
        choice: &[Variant<PortableForm>],
        variant: &Variant<PortableForm>,
    ) -> Result<(), V::Error> {
        self.pass(ValueEvent::BeginVariant { choice, variant })
    }

    #[inline(always)]
    fn end_variant(
        &mut self,
        choice: &[Variant<PortableForm>],
        variant: &Variant<PortableForm>,
    ) -> Result<(), V::Error> {
        self.pass(ValueEvent::EndVariant { choice, variant })
    }

    #[inline(always)]
    fn field(&mut self, next: &Field<PortableForm>, named: bool) -> Result<(), V::Error> {
        self.pass(ValueEvent::Field { field: next, named })
    }

    #[inline(always)]
    fn bytes(&mut self, all: &[u8]) -> Result<(), V::Error> {
        self.pass(ValueEvent::Bytes(all))
    }

    ghost visited_none = { λ a. (refl, refl) };

    ghost visited_append = { λ es fs a b c first second. (
      second.0 ∙ first.0,
      takes_append V.taken es fs a.inner.now b.inner.now c.inner.now first.1 second.1,
    ) };

    ghost stopped_later = { λ es fs a b e c first second. (
      second.0 ∙ first.0,
      refuses_later V.taken V.refused es fs a.inner.now b.inner.now e c.inner.now first.1 second.1,
    ) };
}

/// Passes the events of one value of the type with this id, which is at the start of the input, to
/// the visitor's one function, and returns the rest. It does not allocate.
///
/// It shows what `visit_value` shows, and has the same errors. At `Failed` the visitor has taken
/// all events of what is read; at `Stopped` it has refused one of them, and taken those before it.
pub fn visit_events<'i, T: Definitions, V: EventVisitor>(
    table: &T,
    id: u32,
    input: &'i [u8],
    visitor: &mut V,
) -> Result<&'i [u8], VisitError<V::Error>>
    ensures ok { IfOk result (λ rest. HasVisited (TakesEach V.taken)
        (events (T.table table.now) id)
        (reading (T.table table.now) id 1 input.now)
        rest.now visitor.old visitor.new) }
    ensures err { IfErr result (IsVisitErrorOf (TakesEach V.taken) (RefusesLast V.taken V.refused)
        (events_read (T.table table.now) id input.now)
        (reading (T.table table.now) id 1 input.now)
        visitor.old visitor.new) }
{
    let mut each = EachEvent { inner: visitor };
    visit_value(table, id, input, &mut each)
}
