//! Values of Raft as the words of a row: log ids, votes, memberships, entries. Nothing here has a
//! contract, as in `raft_rows`.
//!
//! A log id is `8-1-3`, of term 8, node 1 and place 3; a vote is `9-1`, or `9-1-committed`. Ids are
//! `1,2`, and `0..3` stands for `0,1,2`. Nodes are `1=a,2=b`, or `1,2` without addresses; voter
//! groups `1,2;1,5`. A membership is `1,2;1,5/1=a,2=b,5=c`. `-` stands for nobody and for no log
//! id, `none` for no voter group.
#![tactic(auto)]

mod group_entries;
mod log_ids;
mod memberships;

pub use group_entries::{entries, entry, payload};
pub use log_ids::{IdText, VoteText, id, log_id, log_id_if_any, vote};
pub use memberships::{ids, membership, nodes, voter_groups};
