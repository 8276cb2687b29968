//! When an event of a group is refused, judged by plain facts of the group.
#![tactic(auto)]

mod calls;
mod change;
mod entries;
mod facts;
mod fitting;
mod goal;
mod judging;
mod messages;
mod ranges;
mod refusal;

pub use change::changed_membership;
pub use facts::{GroupCommand, GroupFacts, Parties};
pub use raft_messages::{
    GroupEntry, GroupPayload, LoggedPair, MAX_ADDRESS_BYTES, MAX_COMMAND_BYTES, MAX_NODES,
    MAX_VOTER_GROUPS, MAX_VOTERS, NUMBER_LIMIT, is_first_membership, is_valid, is_within_limits,
};
pub use refusal::Refusal;
