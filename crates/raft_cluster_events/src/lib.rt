//! What may happen to a cluster of nodes, what comes of it, and what a cluster needs of a node.
#![tactic(auto)]

mod event;
mod node;
mod outcome;

pub use event::{ClusterEvent, CrashChoice, FileImage, GroupCommand};
pub use node::{ClusterNode, NodeOutcome};
pub use outcome::{
    CrashRefusal, EventOutcome, GroupOutcome, NodeError, NodeRefusal, Recorded, Stop, StopCause,
    Unsaid,
};
pub use raft_list_facts::{Acceptance, Base, Leading};
pub use raft_sent_frames::{NodeFrame, SentNumber, Sequence};
