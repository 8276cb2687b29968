//! Nodes of a cluster, each over a log of its own.
#![tactic(auto)]

mod faults;
mod law;
mod log_node;
mod outcomes;
mod over_log;
mod readers;

pub use law::log_nodes_keep_the_law;
pub use log_node::LogNode;
pub use over_log::{files_back, open_over_log};
