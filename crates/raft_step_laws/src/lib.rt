//! The laws of single steps of a group at a node.
#![tactic(auto)]

pub mod commits;
pub mod elections;
pub mod limits;
pub mod numbers;
pub mod peers;
pub mod replies;
pub mod taking;
pub mod tokens;
