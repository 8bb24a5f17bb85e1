//! Calls over descriptions that are borrowed, over values that are shown, and over what changed
//! between tables, each made once between marks.
#![tactic(auto)]

pub mod borrowed;
pub mod changes;
pub mod visits;
