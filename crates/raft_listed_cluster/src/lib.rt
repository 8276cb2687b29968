//! A cluster that keeps the list of each group as it runs: all that was chosen there.
#![tactic(auto)]

mod hearing;
mod listed;
mod numbers;
mod reading;
mod round;

pub use listed::ListedCluster;
pub use raft_cluster::{
    ClusterEvent, ClusterNode, ClusterRefusal, CrashChoice, EventOutcome, FileImage, Recorded,
    RoundRefusal,
};
