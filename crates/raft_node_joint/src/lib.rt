//! What a node answers and leaves is what a cluster asks of its nodes: laws, each the contract of a
//! function without a body.
#![tactic(auto)]

pub mod coming;
pub mod leading;
pub mod machines;
pub mod reopening;
