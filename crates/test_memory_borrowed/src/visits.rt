//! Values that are shown to a visitor, whole or up to a limit.
use scale_info::form::PortableForm;
use scale_info::visit::{
    EventVisitor, ValueEvent, ValueVisitor, VisitError, WithinError, visit_events,
    visit_value_within,
};
use scale_info::{Field, Variant};
use std::alloc::{AllocError, Global};
use std::fmt::Debug;
use std::test::Fail;
use test_common::held::Held;
use test_common::rows::{parts_of, row_bytes};
use test_memory_common::answers::{Answer, done, failed};
use test_memory_common::inputs::table_of;
use test_memory_common::marked;
use test_memory_common::outcomes::Outcome;

/// Writes a word for each event.
#[derive(Drop)]
struct Words {
    alloc: Global,
    text: String,
}

impl Words {
    /// No words yet.
    fn new(alloc: Global) -> Words {
        let text = String::new(alloc);
        Words { alloc, text }
    }

    /// The words so far.
    fn text(&self) -> &str {
        self.text.as_str()
    }
}

/// The name of a field, or a mark that it has none.
fn name_of(field: &Field<PortableForm>) -> &str {
    match &field.name {
        Some(name) => name.as_str(),
        None => "_",
    }
}

/// The word of an event.
fn word(alloc: Global, event: ValueEvent<'_>) -> Result<String, AllocError> {
    match event {
        ValueEvent::Truth(value) => format!(in alloc; "{value}"),
        ValueEvent::Unsigned(value) => format!(in alloc; "{value}"),
        ValueEvent::Signed(value) => format!(in alloc; "{value}"),
        ValueEvent::Text(value) => format!(in alloc; "{value:?}"),
        ValueEvent::Bytes(all) => format!(in alloc; "{all:?}"),
        ValueEvent::BeginList(count) => format!(in alloc; "list({count}"),
        ValueEvent::BeginRecord(fields) => format!(in alloc; "record({}", fields.len()),
        ValueEvent::BeginVariant { variant, .. } => {
            format!(in alloc; "{}({}", variant.name.as_str(), variant.index)
        }
        ValueEvent::Field { field, .. } => format!(in alloc; "{}:", name_of(field)),
        _ => String::from_str(alloc, ")"),
    }
}

impl EventVisitor for Words {
    type Error = AllocError;

    ghost taken = { λ event old new. Unit {0} };

    ghost refused = { λ event old e new. Unit {0} };

    fn event(&mut self, event: ValueEvent<'_>) -> Result<(), AllocError> {
        let word = word(self.alloc, event)?;
        self.text.push_str(word.as_str())?;
        self.text.push_str(" ")
    }
}

/// The outcome of a visit: a word for each event, and what is left.
fn visited(
    alloc: Global,
    returned: Result<&[u8], VisitError<AllocError>>,
    text: &str,
) -> Result<Answer, AllocError> {
    match returned {
        Ok(rest) => done(format!(in alloc; "{text}then {rest:?}")),
        Err(VisitError::Failed(why)) => failed(alloc, &why),
        Err(VisitError::Stopped(error)) => failed(alloc, &error),
    }
}

/// Shows a visitor the value of a row.
fn events(rt: &HostRuntime, row: &str) -> Result<Outcome, Fail> {
    let alloc = rt.alloc();
    let (id, table, input) = parts_of(row)?;
    let (id, input): (u32, Vec<u8>) = (id.parse()?, row_bytes(alloc, input)?);
    let table = Held(table_of(alloc, table)?);
    let mut words = Words::new(alloc);
    let returned = marked!(rt; visit_events(&table.0, id, &input, &mut words));
    Outcome::of(visited(alloc, returned, words.text()))
}

/// Why the visitor stops.
#[derive(Debug, Drop)]
enum Stop {
    /// It has taken as many events as it takes.
    Enough,
    /// An allocation failed.
    Memory,
}

/// Writes a word for each event, up to so many.
#[derive(Drop)]
struct FirstWords {
    words: Words,
    left: u64,
}

impl FirstWords {
    /// Writes the word of an event.
    fn take(&mut self, event: ValueEvent<'_>) -> Result<(), Stop> {
        if self.left == 0 {
            return Err(Stop::Enough);
        }
        self.left -= 1;
        match self.words.event(event) {
            Ok(()) => Ok(()),
            Err(_) => Err(Stop::Memory),
        }
    }
}

impl ValueVisitor for FirstWords {
    type Error = Stop;

    ghost visited = { λ _ _ _. Unit {0} };

    ghost stopped = { λ _ _ _ _. Unit {0} };

    fn truth(&mut self, value: bool) -> Result<(), Stop> {
        self.take(ValueEvent::Truth(value))
    }

    fn unsigned(&mut self, value: u128) -> Result<(), Stop> {
        self.take(ValueEvent::Unsigned(value))
    }

    fn signed(&mut self, value: i128) -> Result<(), Stop> {
        self.take(ValueEvent::Signed(value))
    }

    fn text(&mut self, value: &str) -> Result<(), Stop> {
        self.take(ValueEvent::Text(value))
    }

    fn bytes(&mut self, all: &[u8]) -> Result<(), Stop> {
        self.take(ValueEvent::Bytes(all))
    }

    fn begin_list(&mut self, count: usize) -> Result<(), Stop> {
        self.take(ValueEvent::BeginList(count))
    }

    fn end_list(&mut self) -> Result<(), Stop> {
        self.take(ValueEvent::EndList)
    }

    fn begin_record(&mut self, fields: &[Field<PortableForm>]) -> Result<(), Stop> {
        self.take(ValueEvent::BeginRecord(fields))
    }

    fn end_record(&mut self, fields: &[Field<PortableForm>]) -> Result<(), Stop> {
        self.take(ValueEvent::EndRecord(fields))
    }

    fn begin_variant(
        &mut self,
        choice: &[Variant<PortableForm>],
        variant: &Variant<PortableForm>,
    ) -> Result<(), Stop> {
        self.take(ValueEvent::BeginVariant { choice, variant })
    }

    fn end_variant(
        &mut self,
        choice: &[Variant<PortableForm>],
        variant: &Variant<PortableForm>,
    ) -> Result<(), Stop> {
        self.take(ValueEvent::EndVariant { choice, variant })
    }

    fn field(&mut self, next: &Field<PortableForm>, named: bool) -> Result<(), Stop> {
        self.take(ValueEvent::Field { field: next, named })
    }

    ghost visited_none = { λ _. tt };

    ghost visited_append = { λ _ _ _ _ _ _ _. tt };

    ghost stopped_later = { λ _ _ _ _ _ _ _ _. tt };
}

/// The events that were shown, and then why no more were.
fn ended<E: Debug>(alloc: Global, text: &str, why: &E) -> Result<Answer, AllocError> {
    Ok(Answer::Failed(format!(in alloc; "{text}then {why:?}")?))
}

/// The outcome of a visit up to a limit: a word for each event, and what is left, or why it ended.
fn visited_within(
    alloc: Global,
    returned: Result<&[u8], WithinError<Stop>>,
    text: &str,
) -> Result<Answer, AllocError> {
    match returned {
        Ok(rest) => done(format!(in alloc; "{text}then {rest:?}")),
        Err(WithinError::Stopped(Stop::Memory)) => failed(alloc, &Stop::Memory),
        Err(error) => ended(alloc, text, &error),
    }
}

/// The id, the limit, and how many events the visitor takes, as in `0 within 4 for 2`; without the
/// last word it takes all.
fn bounds_of(ids: &str) -> Result<(u32, u64, u64), Fail> {
    let Some((id, rest)) = ids.split_once(" within ") else {
        return Err(Fail::new("a row has no limit"));
    };
    match rest.split_once(" for ") {
        Some((limit, events)) => Ok((id.parse()?, limit.parse()?, events.parse()?)),
        None => Ok((id.parse()?, rest.parse()?, u64::MAX)),
    }
}

/// Shows a visitor the value of a row up to a limit.
fn within(rt: &HostRuntime, row: &str) -> Result<Outcome, Fail> {
    let alloc = rt.alloc();
    let (ids, table, input) = parts_of(row)?;
    let (id, limit, left) = bounds_of(ids)?;
    let (table, input) = (Held(table_of(alloc, table)?), row_bytes(alloc, input)?);
    let words = Words::new(alloc);
    let mut first = FirstWords { words, left };
    let returned = marked!(rt; visit_value_within(&table.0, id, limit, &input, &mut first));
    Outcome::of(visited_within(alloc, returned, first.words.text()))
}

/// Makes the call of this name, which shows a value.
pub fn call(rt: &HostRuntime, name: &str, input: &str) -> Result<Outcome, Fail> {
    match name {
        "events" => events(rt, input),
        "within" => within(rt, input),
        _ => Err(Fail::new("no call has this name")),
    }
}
