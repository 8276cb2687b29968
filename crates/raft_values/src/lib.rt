//! The plain values of Raft: ids and nodes of a group, votes, log ids, ticks.
#![tactic(auto)]

pub mod byte_string;
pub mod instant;
pub mod io_state;
pub mod log_id;
pub mod log_id_option_ext;
pub mod log_id_range;
pub mod log_index_option_ext;
pub mod message_summary;
pub mod node;
pub mod server_state;
pub mod try_as_ref;
pub mod utime;
pub mod validate;
pub mod vote;
pub mod vote_state_reader;

pub use byte_string::Bytes;
pub use instant::Instant;
pub use io_state::{IOState, LogIOId};
pub use log_id::{LogId, log_ids_by_leader_and_index};
pub use log_id_option_ext::LogIdOptionExt;
pub use log_id_range::LogIdRange;
pub use log_index_option_ext::LogIndexOptionExt;
pub use message_summary::MessageSummary;
pub use node::{BasicNode, EmptyNode, Node, NodeEssential, NodeId, NodeIdEssential};
pub use server_state::ServerState;
pub use try_as_ref::TryAsRef;
pub use utime::UTime;
pub use validate::{Invalid, Validate};
pub use vote::{
    CommittedLeaderId, LeaderId, Vote, leader_ids_by_term_and_node, votes_by_term_node_committed,
};
pub use vote_state_reader::VoteStateReader;
