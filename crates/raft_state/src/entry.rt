//! Entries of a log.
ghost use Rattle.std.specs.Prelude.{◌≡◌};

use raft_membership::membership::Membership;
use raft_values::log_id::LogId;
use raft_values::node::{Node, NodeId};
use std::alloc::AllocError;
use std::fmt::{self, Debug, Display};

/// What an entry asks for (openraft).
#[derive(Drop, PartialEq, Eq)]
pub enum EntryPayload<NID: NodeId, N: Node, D> {
    /// Nothing.
    Blank,
    /// A command of the state machine.
    Normal(D),
    /// A membership.
    Membership(Membership<NID, N>),
}

/// What stands at one place of a log (openraft).
#[derive(Drop, PartialEq, Eq)]
pub struct Entry<NID: NodeId, N: Node, D> {
    pub log_id: LogId<NID>,
    pub payload: EntryPayload<NID, N, D>,
}

impl<NID: NodeId, N: Node, D: Clone> Clone for EntryPayload<NID, N, D> {
    // Where clones of commands equal them, so do clones of payloads.
    ghost is_clone = { λ x y. ((a b : D) → D.is_clone a b → b ≡ a) → y ≡ x };

    fn clone(&self) -> Result<EntryPayload<NID, N, D>, AllocError> {
        Ok(match self {
            EntryPayload::Blank => EntryPayload::Blank,
            EntryPayload::Normal(command) => EntryPayload::Normal(command.clone()?),
            EntryPayload::Membership(membership) => EntryPayload::Membership(membership.clone()?),
        })
    }
}

impl<NID: NodeId, N: Node, D: Clone> Clone for Entry<NID, N, D> {
    // Where clones of commands equal them, so do clones of entries.
    ghost is_clone = { λ x y. ((a b : D) → D.is_clone a b → b ≡ a) → y ≡ x };

    fn clone(&self) -> Result<Entry<NID, N, D>, AllocError> {
        Ok(Entry {
            log_id: self.log_id,
            payload: self.payload.clone()?,
        })
    }
}

impl<NID: NodeId, N: Node, D: Debug> Display for EntryPayload<NID, N, D> {
    fn fmt<W: fmt::Write>(&self, f: &mut fmt::Formatter<W>) -> fmt::Result {
        match self {
            EntryPayload::Blank => write!(f, "blank"),
            EntryPayload::Normal(command) => write!(f, "normal: {command:?}"),
            EntryPayload::Membership(membership) => write!(f, "membership: {membership}"),
        }
    }
}

impl<NID: NodeId, N: Node, D: Debug> Display for Entry<NID, N, D> {
    fn fmt<W: fmt::Write>(&self, f: &mut fmt::Formatter<W>) -> fmt::Result {
        let log_id = &self.log_id;
        let payload = &self.payload;
        write!(f, "{log_id}:{payload}")
    }
}
