//! The clock of a group at a node: raft_timers joined to what the node tells.
#![tactic(auto)]

mod clock;
mod heard;
mod quorum;
mod view;

pub use clock::GroupClock;
pub use heard::Heard;
