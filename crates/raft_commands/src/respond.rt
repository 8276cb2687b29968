//! Answers, and who waits for them.
ghost use Rattle.std.specs.Prelude.{◌≡◌};
ghost use Rattle.raft_commands.specs.declared.respond.Respond.TheVariants.{Vote as VoteAnswer, AppendEntries, InstallSnapshot, InstallFullSnapshot, Initialize};

use crate::caller::Caller;
use crate::type_config::RaftTypeConfig;
use raft_group_step::{
    AppendEntriesResponse, InstallSnapshotResponse, SnapshotResponse, VoteResponse,
};
use raft_state::InitializeError;

/// An answer, and who waits for it (openraft; here both are plain values).
#[derive(Drop)]
pub struct ValueSender<C: RaftTypeConfig, T> {
    /// The answer.
    pub value: T,
    /// Who waits for it.
    pub tx: Caller<C::NodeId>,
}

impl<C: RaftTypeConfig, T> ValueSender<C, T> {
    /// This answer for this caller.
    pub fn new(value: T, tx: Caller<C::NodeId>) -> ValueSender<C, T>
        ensures { result ≡ record { value = value; tx = tx } }
    {
        ValueSender { value, tx }
    }

    /// The answer, and who is to get it.
    pub fn send(self) -> (T, Caller<C::NodeId>)
        ensures { result ≡ (self.value, self.tx) }
    {
        (self.value, self.tx)
    }
}

/// An answer of a node (openraft).
#[derive(Drop)]
pub enum Respond<C: RaftTypeConfig> {
    /// To a vote request.
    Vote(ValueSender<C, VoteResponse<C::NodeId>>),
    /// To an append request.
    AppendEntries(ValueSender<C, AppendEntriesResponse<C::NodeId>>),
    /// To a request to install a snapshot.
    InstallSnapshot(ValueSender<C, InstallSnapshotResponse<C::NodeId>>),
    /// To a whole snapshot.
    InstallFullSnapshot(ValueSender<C, SnapshotResponse<C::NodeId>>),
    /// To the call that sets the group up.
    Initialize(ValueSender<C, Result<(), InitializeError<C::NodeId, C::Node>>>),
}
