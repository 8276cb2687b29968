//! The laws by which reports of a group's events, made of what code knows, are true.
#![tactic(auto)]

pub mod laws;
pub mod rows;
