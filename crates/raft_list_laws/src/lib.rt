//! How the list of a group follows from what its leaders had and what nodes accepted, event by event: laws on plain values.
#![tactic(auto)]

pub mod accounts;
pub mod rows;
