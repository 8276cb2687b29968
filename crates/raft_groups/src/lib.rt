//! The groups of a node: a member of each, over one storage.
#![tactic(auto)]

mod fault;
mod groups;
mod opening;

pub use fault::GroupsFault;
pub use groups::Groups;
