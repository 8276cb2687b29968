//! A node: state machines, and what a node's calls refuse.
#![tactic(auto)]

mod adding;
mod fault;
mod machine;
mod telling;

pub use adding::AddingMachine;
pub use fault::{Fault, MembershipFault, membership_fault};
pub use machine::StateMachine;
pub use telling::{Told, UnknownTokens, Untold, run_entries};
