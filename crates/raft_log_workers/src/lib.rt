//! Recovery of log files by several workers, each on a thread of its own.
#![tactic(auto)]

mod batches;
mod recovery;
mod settle;
mod share;
mod workers;

pub use batches::{ReplayedBatch, ReplayedBatches};
pub use workers::{recover, recover_queue};
