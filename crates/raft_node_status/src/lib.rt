//! What a node knows of a group, and how large its log is, told at once: for an operator who looks into it.
#![tactic(auto)]

mod queues;
mod status;
mod text;

pub use queues::{LogStatus, QueueStatus, log_status, queue_status};
pub use status::{GroupStatus, PeerStatus, group_status, other_ids};
pub use text::{queues_text, status_text};
