//! How far each peer has come, and what a quorum has reached.
#![tactic(auto)]

pub mod borrow;
pub mod entries;
pub mod front;
pub mod inflight;
pub mod invalid_progress;
pub mod iter;
pub mod progress;
pub mod progress_entry;
pub mod replaying;
pub mod vec_progress;

pub use borrow::Borrow;
pub use inflight::Inflight;
pub use invalid_progress::InvalidProgress;
pub use iter::Iter;
pub use progress::Progress;
pub use progress_entry::ProgressEntry;
pub use raft_quorums::Joint;
pub use replaying::{ReplayError, ReplayItem, replay};
pub use vec_progress::VecProgress;
