//! The engine of a group at a node.
ghost use Rattle.std.specs.Prelude.{◌≡◌, true, false, [], None, IfErr, IfOk};
ghost use Rattle.std.specs.Result.{is_ok};
ghost use Rattle.std.specs.Borrow.{sem};
ghost use Rattle.std.specs.Option.{option_copied, option_copied_mut};
ghost use Rattle.raft_commands.specs.Config.{config_of};
ghost use Rattle.raft_engine.specs.Settings.{has_rules_numbers};

use crate::error::CallError;
use raft_commands::{EngineConfig, EngineOutput, RaftTypeConfig};
use raft_known_state::KnownState;
use raft_leaders::{Candidate, Leader};
use raft_state::{EffectiveMembership, NodeId};
use std::alloc::Global;

// Whether the config asks for the numbers that the rules of a group have.
fn has_rules_numbers<NID: NodeId>(config: &EngineConfig<NID>) -> bool
    ensures { result ≡ has_rules_numbers config.now }
{
    let rules = EngineConfig::new(config.id);
    config.max_in_snapshot_log_to_keep == rules.max_in_snapshot_log_to_keep
        && config.purge_batch_size == rules.purge_batch_size
        && config.max_payload_entries == rules.max_payload_entries
        && config.timer_config.election_timeout == rules.timer_config.election_timeout
        && config.timer_config.smaller_log_timeout == rules.timer_config.smaller_log_timeout
        && config.timer_config.leader_lease == rules.timer_config.leader_lease
}

/// The engine of a group at a node (openraft): what is known of the group, what part the node
/// plays, and what its runtime is to do.
#[derive(Drop)]
pub struct Engine<C: RaftTypeConfig> {
    /// What the engine is set up with.
    pub config: EngineConfig<C::NodeId>,
    /// What is known of the group.
    pub state: KnownState<C::NodeId, C::Node>,
    /// Whether a node has told of a log that goes further than the own one.
    pub seen_greater_log: bool,
    /// What a leader knows.
    pub leader: Option<Leader<C::NodeId, EffectiveMembership<C::NodeId, C::Node>>>,
    /// What a candidate knows.
    pub candidate: Option<Candidate<C::NodeId, EffectiveMembership<C::NodeId, C::Node>>>,
    /// What the runtime is to do.
    pub output: EngineOutput<C>,
    // Where new collections take their memory from.
    pub(crate) alloc: Global,
}

impl<C: RaftTypeConfig> Engine<C> {
    ghost use Rattle.raft_engine.specs.declared.error.CallError.TheVariants.{OtherConfig as AsksForOther};
    ghost use Rattle.raft_engine.specs.Beginning.{BeginsWith};
    ghost use Rattle.raft_engine.specs.Lending.{LendsCandidate};

    /// The engine of a node that knows this of its group, and neither stands nor leads (openraft).
    /// Takes no memory. The rules of a group have one number for each setting, so a config that asks
    /// for another is refused.
    pub fn new(
        alloc: Global,
        init_state: KnownState<C::NodeId, C::Node>,
        config: EngineConfig<C::NodeId>,
    ) -> Result<Engine<C>, CallError>
        ensures which { is_ok result ≡ has_rules_numbers config }
        ensures refused { IfErr result (λ e. e ≡ AsksForOther) }
        ensures made { IfOk result (λ e. (e.config ≡ config_of config.id) × BeginsWith init_state e) }
    {
        if !has_rules_numbers(&config) {
            return Err(CallError::OtherConfig);
        }
        Ok(Engine::of_node(alloc, init_state, config.id))
    }

    /// The engine at the node with this id, by the numbers that the rules have (own). Takes no
    /// memory.
    pub fn of_node(
        alloc: Global,
        init_state: KnownState<C::NodeId, C::Node>,
        id: C::NodeId,
    ) -> Engine<C>
        ensures config { result.config ≡ config_of id }
        ensures begins { BeginsWith init_state result }
    {
        Engine {
            config: EngineConfig::new(id),
            state: init_state,
            seen_greater_log: false,
            leader: None,
            candidate: None,
            output: EngineOutput::new(alloc),
            alloc,
        }
    }

    /// What the node knows as a candidate, if it stands for election (openraft).
    pub fn candidate_ref(
        &self,
    ) -> Option<&Candidate<C::NodeId, EffectiveMembership<C::NodeId, C::Node>>>
        ensures { option_copied result ≡ self.now.candidate }
    {
        self.candidate.as_ref()
    }

    /// What the node knows as a candidate, if it stands for election, to be changed (openraft).
    pub fn candidate_mut(
        &mut self,
    ) -> Option<&mut Candidate<C::NodeId, EffectiveMembership<C::NodeId, C::Node>>>
        ensures* writes_back { sem 𝓛 (LendsCandidate C.row C.D.row C.R.row C.NodeId.row C.Node.row C.Debug C.D.Debug C.R.Debug
            (record { default_id = C.NodeId.default_id }) (record { is_clone = C.NodeId.is_clone; is_infallible = C.NodeId.is_infallible })
            (record { cmp = C.NodeId.cmp }) (record { eq = C.NodeId.eq }) (record { partial_cmp = C.NodeId.partial_cmp })
            (record { debug_output = C.NodeId.debug_output }) (record { output = C.NodeId.output; styled_output = C.NodeId.styled_output })
            (record { is_default = C.NodeId.is_default }) (record { default_node = C.Node.default_node })
            (record { is_clone = C.Node.is_clone; is_infallible = C.Node.is_infallible }) (record { eq = C.Node.eq })
            (record { debug_output = C.Node.debug_output }) self.entry result) }
        ensures value { option_copied_mut result ≡ self.old.candidate }
    {
        self.candidate.as_mut()
    }

    /// Notes that a node has told of a log that goes further than the own one (openraft).
    pub fn set_greater_log(&mut self)
        ensures { self.new ≡ record self.old { seen_greater_log = true } }
    {
        self.seen_greater_log = true;
    }

    /// Forgets that a node has told of such a log (openraft).
    pub fn reset_greater_log(&mut self)
        ensures { self.new ≡ record self.old { seen_greater_log = false } }
    {
        self.seen_greater_log = false;
    }

    /// Whether a node has told of such a log (openraft).
    pub fn is_there_greater_log(&self) -> bool
        ensures { result ≡ self.now.seen_greater_log }
    {
        self.seen_greater_log
    }
}
