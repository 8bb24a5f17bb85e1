//! Calls over types of a program: identities, descriptions, catalogues and registrations; and the
//! texts of errors. Each call is made once between marks.
#![tactic(auto)]

pub mod catalogues;
pub mod errors;
pub mod identities;
pub mod nested;
pub mod registrations;
