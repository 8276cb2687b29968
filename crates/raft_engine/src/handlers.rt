//! Handlers: each borrows the engine, and does one part of an event.
ghost use Rattle.std.specs.Prelude.{◌≡◌, is_some, true, None};

use crate::engine::Engine;
use crate::establish_handler::EstablishHandler;
use crate::following_handler::FollowingHandler;
use crate::leader_handler::LeaderHandler;
use crate::log_handler::LogHandler;
use crate::replication_handler::ReplicationHandler;
use crate::server_state_handler::ServerStateHandler;
use crate::snapshot_handler::SnapshotHandler;
use crate::vote_handler::VoteHandler;
use raft_commands::RaftTypeConfig;

impl<C: RaftTypeConfig> Engine<C> {
    /// Decides of votes (openraft).
    pub fn vote_handler(&mut self) -> VoteHandler<'_, C>
        ensures same_engine { result.engine.ghost_name ≡ self.entry.ghost_name }
        ensures value { result.engine.now ≡ self.old }
    {
        VoteHandler { engine: self }
    }

    /// Purges the log (openraft).
    pub fn log_handler(&mut self) -> LogHandler<'_, C>
        ensures same_engine { result.engine.ghost_name ≡ self.entry.ghost_name }
        ensures value { result.engine.now ≡ self.old }
    {
        LogHandler { engine: self }
    }

    /// Takes care of snapshots (openraft).
    pub fn snapshot_handler(&mut self) -> SnapshotHandler<'_, C>
        ensures same_engine { result.engine.ghost_name ≡ self.entry.ghost_name }
        ensures value { result.engine.now ≡ self.old }
    {
        SnapshotHandler { engine: self }
    }

    /// Tells the part that the node plays (openraft).
    pub fn server_state_handler(&mut self) -> ServerStateHandler<'_, C>
        ensures same_engine { result.engine.ghost_name ≡ self.entry.ghost_name }
        ensures value { result.engine.now ≡ self.old }
    {
        ServerStateHandler { engine: self }
    }

    /// Makes a leader of a candidate (openraft).
    pub fn establish_handler(&mut self) -> EstablishHandler<'_, C>
        ensures same_engine { result.engine.ghost_name ≡ self.entry.ghost_name }
        ensures value { result.engine.now ≡ self.old }
    {
        EstablishHandler { engine: self }
    }

    /// Writes and speaks for the node (openraft), which leads.
    pub fn leader_handler(&mut self) -> LeaderHandler<'_, C>
        requires { is_some self.old.leader ≡ true }
        ensures same_engine { result.engine.ghost_name ≡ self.entry.ghost_name }
        ensures value { result.engine.now ≡ self.old }
    {
        LeaderHandler { engine: self }
    }

    /// Sends to peers and learns from them (openraft), where the node leads.
    pub fn replication_handler(&mut self) -> ReplicationHandler<'_, C>
        requires { is_some self.old.leader ≡ true }
        ensures same_engine { result.engine.ghost_name ≡ self.entry.ghost_name }
        ensures value { result.engine.now ≡ self.old }
    {
        ReplicationHandler { engine: self }
    }

    /// Takes what a leader sends (openraft), where the node doesn't lead.
    pub fn following_handler(&mut self) -> FollowingHandler<'_, C>
        requires { self.old.leader ≡ None }
        ensures same_engine { result.engine.ghost_name ≡ self.entry.ghost_name }
        ensures value { result.engine.now ≡ self.old }
    {
        FollowingHandler { engine: self }
    }
}
