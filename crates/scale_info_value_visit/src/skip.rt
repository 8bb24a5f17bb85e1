//! The rest of the input after a value.
ghost use Rattle.std.specs.Prelude.{◌≡◌, IfOk, IfErr};
ghost use Rattle.scale_info_value.specs.Outcomes.{failed};
ghost use Rattle.scale_info_value.specs.Readings.{reading};
ghost use Rattle.scale_info_value_visit.specs.Visits.{HasRest};

use crate::event::{EventVisitor, ValueEvent, visit_events};
use crate::visitor::VisitError;
use scale_info_value::definition::Definitions;
use scale_info_value::value::Failure;
use std::convert::Infallible;

/// Does nothing with the events.
#[derive(Drop)]
struct Skipping;

impl EventVisitor for Skipping {
    type Error = Infallible;

    ghost taken = { λ _ _ _. Unit {0} };

    ghost refused = { λ _ _ _ _. ⊥ };

    #[inline(always)]
    fn event(&mut self, _event: ValueEvent<'_>) -> Result<(), Infallible> {
        Ok(())
    }
}

/// The rest of the input after one value of the type with this id, which is at its start. It does
/// not allocate, and makes no value.
///
/// It goes over what `decode_value` decodes, by the same tables, and has the same errors but
/// `Memory`.
///
/// With a table that has `Vec<u32>` at index 0:
///
/// ```text
/// skip_value(&table, 0, &[8, 1, 0, 0, 0, 2, 0, 0, 0, 255]) == Ok(&[255])
/// skip_value(&table, 0, &[8, 1, 0, 0, 0]) == Err(Failure::Malformed)
/// ```
pub fn skip_value<'i, T: Definitions>(
    table: &T,
    id: u32,
    input: &'i [u8],
) -> Result<&'i [u8], Failure>
    ensures ok { IfOk result
        (λ rest. HasRest (reading (T.table table.now) id 1 input.now) rest.now) }
    ensures err { IfErr result (λ why. reading (T.table table.now) id 1 input.now ≡ failed why) }
{
    match visit_events(table, id, input, &mut Skipping) {
        Ok(rest) => Ok(rest),
        Err(VisitError::Failed(why)) => Err(why),
        Err(VisitError::Stopped(never)) => match never {},
    }
}
