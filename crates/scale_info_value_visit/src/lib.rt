//! Values shown to a visitor as they are decoded from SCALE bytes, with none made.
//!
//! [`visit::visit_value`] goes over a value of a type that the program knows only from a table, and
//! shows it to a [`visitor::ValueVisitor`]. [`event::visit_events`] shows it to a visitor of one
//! function. [`skip::skip_value`] finds the rest alone.
#![tactic(auto)]

pub mod event;
pub mod laws;
mod list;
pub mod skip;
pub mod visit;
pub mod visitor;
pub mod within;
