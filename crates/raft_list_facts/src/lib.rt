//! What is told of an event so that a group's one list can be kept: what messages accept, and what a
//! leader has.
#![tactic(auto)]

mod acceptance;
mod leading;
pub mod rows;

pub use acceptance::{Acceptance, accepted_in};
pub use leading::{Base, Leading, base_of};
