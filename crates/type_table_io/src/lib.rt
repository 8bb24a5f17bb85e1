//! What surrounds the commands of the program `type_table`: arguments that name a command, a reader
//! read to its end, bytes written whole, and the line of an error. It knows of no table.
#![tactic(auto)]

pub mod command;
pub mod error;
pub mod id;
pub mod message;
pub mod reading;
pub mod report;
pub mod text;
pub mod writing;
