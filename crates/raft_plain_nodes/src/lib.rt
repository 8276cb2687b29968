//! Nodes of a cluster, each over a log in memory whose crash keeps what is stored.
#![tactic(auto)]

mod fused_log;
mod law;
mod plain_log;

pub use fused_log::{FusedFault, FusedLog};
pub use law::{PlainNode, plain_nodes_keep_the_law, run_on_plain_logs};
