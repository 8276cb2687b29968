//! The log ids of a node's log behind a few keys, and the traits of what has log ids.
#![tactic(auto)]

pub mod kept_vec;
pub mod log_id_list;
pub mod log_state_reader;
pub mod raft_log_id;

pub use kept_vec::KeptVec;
pub use log_id_list::{LogIdList, are_keys};
pub use log_state_reader::LogStateReader;
pub use raft_log_id::RaftLogId;
