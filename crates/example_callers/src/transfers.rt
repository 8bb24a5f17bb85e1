//! Sums up what the transfers of a value move, with no value made.
ghost use Rattle.std.specs.Prelude.{◌≡◌, IfOk, IfErr};
ghost use Rattle.scale_info.specs.Events.{events};
ghost use Rattle.scale_info.specs.Readings.{reading};
ghost use Rattle.example_callers.specs.Transfers.{Adds, AddsTooMuch, HasMoved, IsMovedError};
ghost use Rattle.example_callers.specs.Transfers.{is_amount};

use scale_info::form::PortableForm;
use scale_info::laws::read_is_decoded;
use scale_info::visit::{EventVisitor, ValueEvent, VisitError, visit_events};
use scale_info::{Field, PortableRegistry};
use thiserror::Error;

/// The sum is greater than 2^128 - 1.
#[derive(Debug, Drop, Error)]
#[error("the sum is too large")]
pub struct TooMuch;

/// What transfers have moved so far.
#[derive(Drop)]
struct Transfers {
    /// The sum.
    total: u128,
    /// Whether the variant that began last is a transfer.
    in_transfer: bool,
    /// Whether the event before was the field of an amount.
    at_amount: bool,
}

/// Whether a field is an amount.
fn is_amount(field: &Field<PortableForm>) -> bool
    ensures { result ≡ is_amount field.now.name }
{
    match &field.name {
        Some(name) => name.as_str() == "amount",
        None => false,
    }
}

impl EventVisitor for Transfers {
    type Error = TooMuch;

    ghost taken = { Adds };

    ghost refused = { AddsTooMuch };

    fn event(&mut self, event: ValueEvent<'_>) -> Result<(), TooMuch> {
        let moves = self.in_transfer && self.at_amount;
        self.at_amount = false;
        match event {
            ValueEvent::BeginVariant { variant, .. } => {
                self.in_transfer = variant.name.as_str() == "Transfer";
            }
            ValueEvent::Field { field, .. } => self.at_amount = is_amount(field),
            ValueEvent::Unsigned(amount) if moves => {
                self.total = self.total.checked_add(amount).ok_or(TooMuch)?;
            }
            _ => {}
        }
        Ok(())
    }
}

/// What the transfers of a value move together: the integers of the fields `amount` of the variants
/// `Transfer`.
pub fn moved(table: &PortableRegistry, id: u32, input: &[u8]) -> Result<u128, VisitError<TooMuch>>
    ensures ok { IfOk result (HasMoved (events table.now id) (reading table.now id 1 input.now)) }
    ensures err { IfErr result
        (IsMovedError (events table.now id) (reading table.now id 1 input.now)) }
{
    let mut transfers = Transfers {
        total: 0,
        in_transfer: false,
        at_amount: false,
    };
    read_is_decoded();
    match visit_events(table, id, input, &mut transfers) {
        Ok(_) => Ok(transfers.total),
        Err(error) => Err(error),
    }
}
