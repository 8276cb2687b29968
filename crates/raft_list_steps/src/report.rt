//! What is heard of an event in a group.
use raft_list_facts::{Acceptance, Leading};
use raft_quorums::voter_groups::VoterGroups;
use raft_state::{BasicNode, Bytes, EntryPayload, Membership};

/// The set-up of a group (own).
#[derive(Drop)]
pub struct SetUp {
    /// The first membership.
    pub membership: Membership<u64, BasicNode>,
    /// Its voter groups.
    pub voters: VoterGroups<u64>,
}

/// What is heard of an event in a group (own).
#[derive(Drop)]
pub struct GroupReport {
    /// The node at which the event happened.
    pub node: u64,
    /// The set-up, if it is the group's first one, and was taken.
    pub set_up: Option<SetUp>,
    /// What the node tells of its list, if it leads behind the event, which didn't stop.
    pub leading: Option<Leading>,
    /// What the event writes, if it is a proposal or a change of the membership. For an opening: what the call writes that stopped
    /// at the node last.
    pub written: Option<EntryPayload<u64, BasicNode, Bytes>>,
    /// What the message accepts that the node sent, if one accepts anything.
    pub accepted: Option<Acceptance>,
}
