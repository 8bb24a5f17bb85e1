//! The program `type_reader` over any readers and any writers.
#![tactic(auto)]

mod compare;
mod convert;
mod diff;
mod graph;
mod listing;
mod output;
mod program;
mod pruning;
mod reading;
mod reason;
mod selection;
mod source;
mod strip;
mod table;

pub use output::{Output, OutputBytes, output_of};
pub use program::{run, run_with};
pub use table::{TableInput, input_of};
pub use type_reader_io::error::ReaderError;
pub use type_reader_io::message::Message;
pub use type_reader_io::reporter::{Kept, Reporter};
