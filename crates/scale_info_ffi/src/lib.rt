//! The calls of `scale_info_calls` for C: a static library.
//!
//! Each function is given slices as a pointer and a length, and returns a status, which is 0 where it
//! was done. What it gives is written to the start of the caller's room, and how much that is to
//! `count`. At any other status the room is as before, and `count` is the number that goes with it:
//!
//! | Status | What it says | `count` |
//! |---|---|---|
//! | 0 | done | how many items of the room the output takes |
//! | 1 | no prefix of the input is a table | 0 |
//! | 2 | bytes come after the table | 0 |
//! | 3 | there is no such type | its id |
//! | 4 | an id is reached that is no index of the table | this id |
//! | 5 | an allocation failed | 0 |
//! | 6 | the room is too short | how many items are wanted |
//! | 7 | the input is metadata of a version that is not read | the version |
//! | 8 | the path is not UTF-8 | 0 |
//! | 9 | the text is no JSON | 0 |
//! | 10 | values of a type are neither read nor written | 0 |
//! | 11 | the value is more than 128 deep | 0 |
//! | 12 | no prefix of the bytes is a value of the type | 0 |
//! | 13 | bytes come after the value | 0 |
//! | 14 | the JSON is no value of the type | 0 |
//!
//! `bindings/c` has the header, and guards for arguments that no slice is made of.
#![tactic(auto)]

pub mod tables;
pub mod types;
pub mod values;
