//! A node's state of Raft: entries, and the state itself. It passes on the values, quorums, memberships
//! and log ids of the crates below, so that a caller names this crate alone.
#![tactic(auto)]

pub mod accepted;
pub mod entry;
pub mod raft_entry;
pub mod raft_state;

pub use accepted::Accepted;
pub use entry::{Entry, EntryPayload};
pub use raft_entry::{FromAppData, RaftEntry, RaftPayload};
pub use raft_log_ids::{KeptVec, LogIdList, LogStateReader, RaftLogId, are_keys};
pub use raft_membership::{
    ChangeMembers, ChangeMembershipError, ClientWriteError, EffectiveMembership, EmptyMembership,
    ForwardToLeader, InProgress, InitializeError, IntoNodes, LackEntry, LearnerNotFound,
    Membership, MembershipState, NotAllowed, NotInMembers, SnapshotMeta, StoredMembership,
};
pub use raft_quorums::{
    AsJoint, Coherent, FindCoherent, HasId, IdSet, Joint, NodeMap, QuorumSet, VoterGroups,
};
pub use raft_state::RaftState;
pub use raft_values::{
    BasicNode, Bytes, CommittedLeaderId, EmptyNode, IOState, Instant, Invalid, LeaderId, LogIOId,
    LogId, LogIdOptionExt, LogIdRange, LogIndexOptionExt, MessageSummary, Node, NodeEssential,
    NodeId, NodeIdEssential, ServerState, TryAsRef, UTime, Validate, Vote, VoteStateReader,
    leader_ids_by_term_and_node, log_ids_by_leader_and_index, votes_by_term_node_committed,
};
