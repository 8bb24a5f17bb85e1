//! What a value is shown to.
ghost use Rattle.std.specs.Prelude.{◌≡◌, ◌∷◌, ◌++◌, [], List, Ok, Err, OnOk, IfErr};
ghost use Rattle.scale_info_value_visit.specs.declared.visitor.VisitError.TheVariants as error;
ghost use Rattle.scale_info_value_visit.specs.Events.{Event, truth, unsigned, signed, text};
ghost use Rattle.scale_info_value_visit.specs.Events.{bytes, integers_events, begin_list, end_list};
ghost use Rattle.scale_info_value_visit.specs.Events.{begin_fields, end_fields, begin_of, end_of};
ghost use Rattle.scale_info_value_visit.specs.Events.{field_of};
ghost use Rattle.scale_info_value_visit.specs.Visits.{StopsWithin};

use scale_info_types::form::PortableForm;
use scale_info_types::ty::Field;
use scale_info_types::ty::variant::Variant;
use scale_info_value::value::Failure;
use std::fmt;
use thiserror::Error;

/// Why a visitor was not shown a whole value.
#[derive(Debug, Drop, PartialEq, Eq, Error)]
#[error_bound(E: fmt::Display)]
pub enum VisitError<E> {
    /// The bytes are no value of the type.
    #[error("{0}")]
    Failed(Failure),
    /// The visitor stopped.
    #[error("{0}")]
    Stopped(E),
}

impl<E> From<Failure> for VisitError<E> {
    ghost from_gives = { λ why e. e ≡ error.Failed why };

    fn from(why: Failure) -> VisitError<E> {
        VisitError::Failed(why)
    }
}

/// What a method of the visitor returned, as what the visit returns.
pub(crate) fn shown<E>(answer: Result<(), E>) -> Result<(), VisitError<E>>
    ensures ok { OnOk result (answer ≡ Ok tt) }
    ensures err { IfErr result (λ e. (why : E) × (answer ≡ Err why) × (e ≡ error.Stopped why)) }
{
    match answer {
        Ok(()) => Ok(()),
        Err(e) => Err(VisitError::Stopped(e)),
    }
}

/// What is shown the events of a value, one after another.
///
/// Any type may implement it. An implementor states what events do to it, `visited`, and what it is
/// to stop, `stopped`; it owes the contracts of the functions and the proofs of the laws. Texts, and
/// the fields and variants of the table, are borrowed for the time of a call.
///
/// What holds of the visitor after an error follows from the two. At `Failed` it took all events of
/// what was read. At `Stopped` it took the first of them, but for the last that it was shown. So a
/// visitor that appends to an output says in both that the old output is a prefix of the new one,
/// and then every visit keeps what was there. One that never stops says `⊥` in `stopped`, and then
/// every error is of the bytes.
pub trait ValueVisitor {
    /// Why the visitor stops.
    type Error: Drop;

    /// What the events do to the visitor.
    ghost visited: { List Event → Self → Self → Type 0 };

    /// What it is to stop: shown these events, of which it refused the last, the visitor stopped
    /// with this error and is left as this.
    ghost stopped: { List Event → Self → Self.Error → Self → Type 0 };

    /// Takes a truth value.
    fn truth(&mut self, value: bool) -> Result<(), Self::Error>
        ensures ok { OnOk result (visited (truth value ∷ []) self.old self.new) }
        ensures err { IfErr result (λ e. stopped (truth value ∷ []) self.old e self.new) };

    /// Takes an integer of an unsigned type, compact or not.
    fn unsigned(&mut self, value: u128) -> Result<(), Self::Error>
        ensures ok { OnOk result (visited (unsigned value ∷ []) self.old self.new) }
        ensures err { IfErr result (λ e. stopped (unsigned value ∷ []) self.old e self.new) };

    /// Takes an integer of a signed type.
    fn signed(&mut self, value: i128) -> Result<(), Self::Error>
        ensures ok { OnOk result (visited (signed value ∷ []) self.old self.new) }
        ensures err { IfErr result (λ e. stopped (signed value ∷ []) self.old e self.new) };

    /// Takes a text, which is part of the input.
    fn text(&mut self, value: &str) -> Result<(), Self::Error>
        ensures ok { OnOk result (visited (text value.now ∷ []) self.old self.new) }
        ensures err { IfErr result (λ e. stopped (text value.now ∷ []) self.old e self.new) };

    /// Begins a list of so many items: a sequence, an array, a tuple, a map, or a pair in a map.
    fn begin_list(&mut self, count: usize) -> Result<(), Self::Error>
        ensures ok { OnOk result (visited (begin_list count ∷ []) self.old self.new) }
        ensures err { IfErr result (λ e. stopped (begin_list count ∷ []) self.old e self.new) };

    /// Ends a list.
    fn end_list(&mut self) -> Result<(), Self::Error>
        ensures ok { OnOk result (visited (end_list ∷ []) self.old self.new) }
        ensures err { IfErr result (λ e. stopped (end_list ∷ []) self.old e self.new) };

    /// Begins a composite with these fields, which are part of the table.
    fn begin_record(&mut self, fields: &[Field<PortableForm>]) -> Result<(), Self::Error>
        ensures ok { OnOk result
            (visited (begin_fields fields.now ∷ []) self.old self.new) }
        ensures err { IfErr result
            (λ e. stopped (begin_fields fields.now ∷ []) self.old e self.new) };

    /// Ends the composite with these fields.
    fn end_record(&mut self, fields: &[Field<PortableForm>]) -> Result<(), Self::Error>
        ensures ok { OnOk result (visited (end_fields fields.now ∷ []) self.old self.new) }
        ensures err { IfErr result
            (λ e. stopped (end_fields fields.now ∷ []) self.old e self.new) };

    /// Begins a variant of an enum with these variants, which are part of the table.
    fn begin_variant(
        &mut self,
        choice: &[Variant<PortableForm>],
        variant: &Variant<PortableForm>,
    ) -> Result<(), Self::Error>
        ensures ok { OnOk result
            (visited (begin_of choice.now variant.now ∷ []) self.old self.new) }
        ensures err { IfErr result
            (λ e. stopped (begin_of choice.now variant.now ∷ []) self.old e self.new) };

    /// Ends a variant of an enum with these variants.
    fn end_variant(
        &mut self,
        choice: &[Variant<PortableForm>],
        variant: &Variant<PortableForm>,
    ) -> Result<(), Self::Error>
        ensures ok { OnOk result (visited (end_of choice.now variant.now ∷ []) self.old self.new) }
        ensures err { IfErr result
            (λ e. stopped (end_of choice.now variant.now ∷ []) self.old e self.new) };

    /// Takes a field of the table, whose value comes next. `named` says whether each field of its
    /// record or variant has a name.
    fn field(&mut self, next: &Field<PortableForm>, named: bool) -> Result<(), Self::Error>
        ensures ok { OnOk result (visited (field_of named next.now ∷ []) self.old self.new) }
        ensures err { IfErr result
            (λ e. stopped (field_of named next.now ∷ []) self.old e self.new) };

    /// Takes a list of bytes, a sequence or an array of `u8`, whole. It is part of the input.
    ///
    /// A visitor that wants them as any other list calls `bytes_one_by_one`.
    fn bytes(&mut self, all: &[u8]) -> Result<(), Self::Error>
        ensures ok { OnOk result (visited (bytes all.now ∷ []) self.old self.new) }
        ensures err { IfErr result (λ e. stopped (bytes all.now ∷ []) self.old e self.new) };

    /// Shows itself a list of bytes as a list of integers.
    fn bytes_one_by_one(&mut self, all: &[u8]) -> Result<(), Self::Error>
        ensures ok { OnOk result (visited (integers_events all.now) self.old self.new) }
        ensures err { IfErr result
            (λ e. StopsWithin stopped (integers_events all.now) self.old e self.new) }
    {
        self.begin_list(all.len())?;
        for byte in all {
            self.unsigned(*byte as u128)?;
        }
        self.end_list()?;
        Ok(())
    }

    /// No events do nothing.
    ghost visited_none: { (a : Self) → visited [] a a };

    /// Events do what they do one after another.
    ghost visited_append: { (es fs : List Event) (a b c : Self) →
        visited es a b → visited fs b c → visited (es ++ fs) a c };

    /// Where it stopped after some events, it was shown these before.
    ghost stopped_later: { (es fs : List Event) (a b : Self) (e : Self.Error) (c : Self) →
        visited es a b → stopped fs b e c → stopped (es ++ fs) a e c };
}
