//! What a client is answered.
ghost use Rattle.std.specs.Prelude.{◌≡◌};

use crate::type_config::RaftTypeConfig;
use raft_state::{ClientWriteError, LogId, Membership, MessageSummary};
use std::alloc::{AllocError, Global};

/// A client's command is applied (openraft).
#[derive(Drop)]
pub struct ClientWriteResponse<C: RaftTypeConfig> {
    /// The log id of the command.
    pub log_id: LogId<C::NodeId>,
    /// What the state machine answers.
    pub data: C::R,
    /// The membership, where the entry has one.
    pub membership: Option<Membership<C::NodeId, C::Node>>,
}

impl<C: RaftTypeConfig> ClientWriteResponse<C> {
    /// The log id of the command.
    pub fn log_id(&self) -> &LogId<C::NodeId>
        ensures { result.now ≡ self.now.log_id }
    {
        &self.log_id
    }

    /// What the state machine answers.
    pub fn response(&self) -> &C::R
        ensures { result.now ≡ self.now.data }
    {
        &self.data
    }

    /// The membership, where the entry has one.
    pub fn membership(&self) -> &Option<Membership<C::NodeId, C::Node>>
        ensures { result.now ≡ self.now.membership }
    {
        &self.membership
    }
}

impl<C: RaftTypeConfig> MessageSummary<ClientWriteResponse<C>> for ClientWriteResponse<C> {
    fn summary(&self, alloc: Global) -> Result<String, AllocError> {
        let log_id = &self.log_id;
        match &self.membership {
            None => format!(in alloc; "log_id: {log_id}, membership: None"),
            Some(membership) => format!(in alloc; "log_id: {log_id}, membership: {membership}"),
        }
    }
}

/// What a client's write comes to (openraft).
pub type ClientWriteResult<C> = Result<
    ClientWriteResponse<C>,
    ClientWriteError<<C as RaftTypeConfig>::NodeId, <C as RaftTypeConfig>::Node>,
>;
