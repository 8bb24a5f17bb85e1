//! What surrounds the commands of the program `type_reader`: arguments that name a command, errors,
//! and what is written of them. It knows of no table.
#![tactic(auto)]

pub mod command;
pub mod error;
pub mod line;
pub mod message;
pub mod report;
pub mod reporter;
pub mod writing;
