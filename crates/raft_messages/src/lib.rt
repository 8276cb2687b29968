//! The words that the crates of a group share: messages, entries, memberships and limits.
#![tactic(auto)]

pub mod entries;
pub mod limits;
pub mod memberships;
pub mod message;

pub use entries::{
    GroupEntry, GroupPayload, all_go_on, copies_of, copy_of_entry, copy_of_payload, last_sent,
    push_copies,
};
pub use limits::{
    MAX_ADDRESS_BYTES, MAX_COMMAND_BYTES, MAX_ENTRIES, MAX_NODES, MAX_SNAPSHOT_BYTES,
    MAX_VOTER_GROUPS, MAX_VOTERS, NUMBER_LIMIT, are_addresses_short, are_few_groups, are_few_nodes,
    are_few_voters, is_first_membership, is_low, is_short_address, is_short_command, is_valid,
    is_within_limits, limits_in_code,
};
pub use memberships::{
    LoggedPair, SnapshotBytes, SnapshotHead, copy_of_pair, head_of, last_membership, lent_pair,
    membership_after, pair_in_force,
};
pub use message::{AppendFields, Message, MessageBody, ReplyFields, ReplyResult, RequestId};
