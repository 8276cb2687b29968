//! A cluster of nodes: their events one after another, the frames between them, and all that happened.
#![tactic(auto)]

mod answer;
mod cluster;
mod crashes;
mod delivery;
mod facts;
mod front;
mod fused;
mod happening;
mod round;
mod sending;
mod slot;
mod told;

pub use cluster::Cluster;
pub use raft_cluster_conditions::ClusterRefusal;
pub use raft_cluster_events::{
    ClusterEvent, ClusterNode, CrashChoice, CrashRefusal, EventOutcome, FileImage, GroupOutcome,
    NodeError, NodeFrame, NodeOutcome, NodeRefusal, Recorded, SentNumber, Sequence, Stop,
    StopCause,
};
pub use raft_sent_frames::SentFrame;
pub use round::RoundRefusal;
