//! What an engine is set up with.
ghost use Rattle.std.specs.Prelude.{◌≡◌};
ghost use Rattle.raft_commands.specs.Config.{config_of};

use crate::time_state;
use raft_messages::MAX_ENTRIES;
use raft_values::node::{NodeId, default_id};

/// What an engine is set up with (openraft).
#[derive(Clone, Copy, PartialEq, Eq)]
pub struct EngineConfig<NID: NodeId> {
    /// The id of the node.
    pub id: NID,
    /// How many entries that a snapshot covers stay in the log.
    pub max_in_snapshot_log_to_keep: u64,
    /// How many entries more there have to be before some are purged.
    pub purge_batch_size: u64,
    /// How many entries a request has at most.
    pub max_payload_entries: u64,
    /// How long the engine waits, in ticks.
    pub timer_config: time_state::Config,
}

impl<NID: NodeId> EngineConfig<NID> {
    /// What the node with this id is set up with where nothing else is asked for: a lease of 150
    /// ticks, and `MAX_ENTRIES` entries a request (own; openraft has 300).
    pub fn new(id: NID) -> EngineConfig<NID>
        ensures { result ≡ config_of id }
    {
        EngineConfig {
            id,
            max_in_snapshot_log_to_keep: 1000,
            purge_batch_size: 256,
            max_payload_entries: MAX_ENTRIES as u64,
            timer_config: time_state::Config::default(),
        }
    }
}

impl<NID: NodeId> Default for EngineConfig<NID> {
    ghost is_default = { λ x. x ≡ config_of NID.default_id };

    fn default() -> EngineConfig<NID> {
        EngineConfig::new(default_id())
    }
}
