//! What a node's calls refuse, by number and name.
#![tactic(auto)]

mod fault;

pub use fault::{Cause, Fault, cause_of, fault_of_refusal};
