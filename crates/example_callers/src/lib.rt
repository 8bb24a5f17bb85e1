//! What programs write that use `scale_info`, proved from the contracts of its calls alone:
//! `docs/CALLING.md` shows it.
#![tactic(auto)]

pub mod call;
pub mod copied;
pub mod exported;
pub mod facts;
pub mod lists;
pub mod point;
pub mod pruned;
pub mod pruning;
pub mod register;
pub mod signing;
pub mod temperature;
pub mod transfers;
pub mod viewed;
pub mod written;
