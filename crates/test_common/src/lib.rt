//! What the crates of tests share: rows of bytes, encodings, parts of descriptions, descriptions as
//! texts, readers and writers.
#![tactic(auto)]

pub mod catalogues;
pub mod chains;
pub mod compare;
pub mod encodings;
pub mod held;
pub mod lists;
pub mod parts;
pub mod results;
pub mod rows;
pub mod shown;
pub mod streams;
