//! What the state machine is told to do.
ghost use Rattle.std.specs.Prelude.{◌≡◌};
ghost use Rattle.raft_commands.specs.declared.sm.CommandPayload.TheVariants.{BuildSnapshot, GetSnapshot, BeginReceivingSnapshot, InstallFullSnapshot, Apply};

use crate::caller::Caller;
use crate::type_config::RaftTypeConfig;
use raft_group_step::Entries;
use raft_state::SnapshotMeta;

/// What the state machine is to do (openraft). A snapshot's bytes stay with the runtime.
#[derive(Drop)]
pub enum CommandPayload<C: RaftTypeConfig> {
    /// A snapshot of what is applied is built.
    BuildSnapshot,
    /// The last snapshot is handed to the caller.
    GetSnapshot {
        /// Who waits for it.
        tx: Caller<C::NodeId>,
    },
    /// Room for a snapshot that will come is handed to the caller.
    BeginReceivingSnapshot {
        /// Who waits for it.
        tx: Caller<C::NodeId>,
    },
    /// The snapshot that came with the last request takes the place of what is applied.
    InstallFullSnapshot {
        /// What it covers.
        meta: SnapshotMeta<C::NodeId, C::Node>,
    },
    /// Committed entries are applied, in their order.
    Apply {
        /// The entries.
        entries: Entries<C::NodeId, C::Node, C::D>,
    },
}

/// A command of the state machine under its number (openraft).
#[derive(Drop)]
pub struct Command<C: RaftTypeConfig> {
    /// The number; 0 until it is given one.
    pub seq: u64,
    /// What is to be done.
    pub payload: CommandPayload<C>,
}

impl<C: RaftTypeConfig> Command<C> {
    /// A command without a number yet.
    pub fn new(payload: CommandPayload<C>) -> Command<C>
        ensures { result ≡ record { seq = 0; payload = payload } }
    {
        Command { seq: 0, payload }
    }

    /// The same under this number.
    pub fn with_seq(self, seq: u64) -> Command<C>
        ensures { result ≡ record { seq = seq; payload = self.payload } }
    {
        Command {
            seq,
            payload: self.payload,
        }
    }

    /// A snapshot is to be built.
    pub fn build_snapshot() -> Command<C>
        ensures { result ≡ record { seq = 0; payload = BuildSnapshot } }
    {
        Command::new(CommandPayload::BuildSnapshot)
    }

    /// The last snapshot is to be handed to the caller.
    pub fn get_snapshot(tx: Caller<C::NodeId>) -> Command<C>
        ensures { result ≡ record { seq = 0; payload = GetSnapshot tx } }
    {
        Command::new(CommandPayload::GetSnapshot { tx })
    }

    /// Room for a snapshot is to be handed to the caller.
    pub fn begin_receiving_snapshot(tx: Caller<C::NodeId>) -> Command<C>
        ensures { result ≡ record { seq = 0; payload = BeginReceivingSnapshot tx } }
    {
        Command::new(CommandPayload::BeginReceivingSnapshot { tx })
    }

    /// The snapshot that covers this is to be installed.
    pub fn install_full_snapshot(meta: SnapshotMeta<C::NodeId, C::Node>) -> Command<C>
        ensures { result ≡ record { seq = 0; payload = InstallFullSnapshot meta } }
    {
        Command::new(CommandPayload::InstallFullSnapshot { meta })
    }

    /// These entries are to be applied.
    pub fn apply(entries: Entries<C::NodeId, C::Node, C::D>) -> Command<C>
        ensures { result ≡ record { seq = 0; payload = Apply entries } }
    {
        Command::new(CommandPayload::Apply { entries })
    }
}
