//! What the runtime is told to do.
ghost use Rattle.std.specs.Prelude.{◌≡◌};
ghost use Rattle.std.specs.Option.{option_copied};
ghost use Rattle.raft_commands.specs.Command.{condition_of, kind_of};
ghost use Rattle.raft_commands.specs.declared.command.Command.TheVariants.{StateMachine};

use crate::respond::Respond;
use crate::sm;
use crate::type_config::RaftTypeConfig;
use raft_group_step::{Entries, VoteRequest};
use raft_progress::{Inflight, ProgressEntry};
use raft_state::{LeaderId, LogId, NodeId, Vote};

/// Which part of the runtime does a command (openraft).
#[derive(Clone, Copy, Debug, PartialEq, Eq)]
pub enum CommandKind {
    /// The log's storage.
    Log,
    /// The network.
    Network,
    /// The state machine.
    StateMachine,
    /// The runtime itself.
    Main,
}

/// What has to be done before an answer leaves (openraft).
#[derive(Clone, Copy, PartialEq, Eq)]
pub enum Condition<NID: NodeId> {
    /// The leader's log is stored up to this log id.
    LogFlushed {
        /// The leader that wrote it.
        leader: LeaderId<NID>,
        /// The log id.
        log_id: Option<LogId<NID>>,
    },
    /// The entries up to this log id are applied.
    Applied {
        /// The log id.
        log_id: Option<LogId<NID>>,
    },
    /// The state machine's command with this number is done.
    StateMachineCommand {
        /// The number.
        command_seq: u64,
    },
}

/// What the runtime is told to do (openraft, without what only async tasks need).
#[derive(Drop)]
pub enum Command<C: RaftTypeConfig> {
    /// The node leads from now on.
    BecomeLeader,
    /// The node leads no longer.
    QuitLeader,
    /// Entries go behind the log.
    AppendInputEntries {
        /// The vote of the leader that has them written.
        vote: Vote<C::NodeId>,
        /// The entries.
        entries: Entries<C::NodeId, C::Node, C::D>,
    },
    /// A peer is told how far is committed: a notice, or a heartbeat. There is one command for
    /// each peer, since it goes on from what that peer is known to have.
    ReplicateCommitted {
        /// The peer.
        target: C::NodeId,
        /// The leader's vote.
        vote: Vote<C::NodeId>,
        /// The last log id that the peer's log is known to have.
        matching: Option<LogId<C::NodeId>>,
        /// The last log id that is committed.
        committed: Option<LogId<C::NodeId>>,
    },
    /// Entries that are stored are committed.
    Commit {
        /// The number of the state machine's command.
        seq: u64,
        /// The last log id that was committed before.
        already_committed: Option<LogId<C::NodeId>>,
        /// The last log id that is committed now.
        upto: LogId<C::NodeId>,
    },
    /// A peer is sent log entries or a snapshot.
    Replicate {
        /// The peer.
        target: C::NodeId,
        /// What it is sent.
        req: Inflight<C::NodeId>,
    },
    /// Requests are sent to these peers from now on, and to no others.
    RebuildReplicationStreams {
        /// The peers, each with what is known of it.
        targets: Vec<(C::NodeId, ProgressEntry<C::NodeId>)>,
    },
    /// A vote is stored.
    SaveVote {
        /// The vote.
        vote: Vote<C::NodeId>,
    },
    /// A voter is asked for its vote. There is one command for each voter.
    SendVote {
        /// The voter.
        target: C::NodeId,
        /// The request.
        vote_req: VoteRequest<C::NodeId>,
    },
    /// The log is removed up to this log id.
    PurgeLog {
        /// The last log id that goes.
        upto: LogId<C::NodeId>,
    },
    /// The log is removed from this log id on.
    DeleteConflictLog {
        /// The first log id that goes.
        since: LogId<C::NodeId>,
    },
    /// The state machine is told to do something.
    StateMachine {
        /// What.
        command: sm::Command<C>,
    },
    /// A caller gets its answer.
    Respond {
        /// What has to be done before.
        when: Option<Condition<C::NodeId>>,
        /// The answer.
        resp: Respond<C>,
    },
}

impl<C: RaftTypeConfig> Command<C> {
    /// Which part of the runtime does the command.
    pub fn kind(&self) -> CommandKind
        ensures { result ≡ kind_of self.now }
    {
        match self {
            Command::BecomeLeader
            | Command::QuitLeader
            | Command::RebuildReplicationStreams { .. }
            | Command::Commit { .. }
            | Command::Respond { .. } => CommandKind::Main,
            Command::AppendInputEntries { .. }
            | Command::SaveVote { .. }
            | Command::PurgeLog { .. }
            | Command::DeleteConflictLog { .. } => CommandKind::Log,
            Command::ReplicateCommitted { .. }
            | Command::Replicate { .. }
            | Command::SendVote { .. } => CommandKind::Network,
            Command::StateMachine { .. } => CommandKind::StateMachine,
        }
    }

    /// What has to be done before the command, if something has to.
    pub fn condition(&self) -> Option<&Condition<C::NodeId>>
        ensures { option_copied result ≡ condition_of self.now }
    {
        match self {
            Command::Respond { when, .. } => when.as_ref(),
            _ => None,
        }
    }
}

impl<C: RaftTypeConfig> From<sm::Command<C>> for Command<C> {
    ghost from_gives = { λ command result. result ≡ StateMachine command };

    fn from(command: sm::Command<C>) -> Command<C> {
        Command::StateMachine { command }
    }
}
