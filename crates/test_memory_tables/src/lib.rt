//! Calls over tables, walks, JSON, builders and registries, each made once between marks.
#![tactic(auto)]

pub mod builders;
pub mod conversions;
pub mod discoveries;
pub mod exports;
pub mod json;
pub mod prunings;
pub mod registries;
pub mod tables;
pub mod walks;
