//! A table's bytes as JSON text, part by part.
//!
//! [`append_json_of`] writes the JSON text of each part of the table as it reads that part's bytes.
//! No string, list or entry is made: only an integer, as an id, is decoded before it is written.
#![tactic(auto)]

mod id;
mod integer;
mod list;
mod members;
mod option;
mod portable;
mod skip;
mod text;
mod transcode;
mod ty;

pub use portable::append_json_of;
