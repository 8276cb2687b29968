//! What a node of a cluster asks of its log, and a log on files in memory as such.
#![tactic(auto)]

mod file_log;
mod node_log;
mod stopping;

pub use node_log::{NodeLog, Unopened};
pub use stopping::quiet_stop;
