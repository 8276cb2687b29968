//! Messages whose snapshots have their entries.
use raft_messages::{Message, MessageBody};
use raft_stored_group::GroupSnapshot;

/// What a message says, whose snapshot has its entries (own).
pub type GroupBody = MessageBody<GroupSnapshot>;

/// What a node of a group sends to another one, whose snapshots have their entries (own).
pub type GroupMessage = Message<GroupSnapshot>;
