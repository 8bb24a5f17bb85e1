//! The program `type_table` over any reader and any writers.
#![tactic(auto)]

mod json_line;
mod output;
mod program;
mod table;

pub use program::{outcome, run};
pub use type_table_io::error::RunError;
pub use type_table_io::message::Message;
pub use type_table_io::report::report_message;
