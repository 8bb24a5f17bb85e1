//! What changed between two tables, by the paths of their types.
//!
//! A [`named::NamedTable`] is a table that was read once, with its types by their paths.
//! [`tables::changes`] lists the paths of types that are gone, new, or no longer the same between
//! two of them; docs count, unless the tables are taken [`tables::without_docs`].
//! [`first::first_difference`] finds where types of two tables differ first, and
//! [`declarations::first_declared_change`] says it in words;
//! [`declarations::declared_change_of`] says it of the types with a path.
#![tactic(auto)]

pub mod change;
pub mod declarations;
mod edges;
mod entries;
pub mod first;
mod lines;
mod marks;
pub mod named;
mod old_paths;
mod pairs;
mod paths;
pub mod tables;
