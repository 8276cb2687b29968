//! The part that the node plays: leader, candidate, follower or learner.
ghost use Rattle.std.specs.Prelude.{◌≡◌, ◌↔◌, ℕ, false};
ghost use Rattle.raft_group_step.specs.StoredGroup.{membership_in_force};
ghost use Rattle.raft_group_step.specs.GroupState.{GroupState, is_leader};
ghost use Rattle.raft_group_step.specs.Refusal.{is_voter_in};
ghost use Rattle.raft_group_step.specs.StepResult.{StepResult};
ghost use Rattle.raft_engine.specs.ServerStates.{part_in, server_state_of, with_server_state};
ghost use Rattle.raft_engine.specs.Standing.{Given, IsStateOf, IsStepOf};

use crate::engine::Engine;
use raft_commands::RaftTypeConfig;
use raft_state::{BasicNode, Bytes, ServerState};

/// Tells the part that the node plays (openraft).
#[derive(Drop)]
pub struct ServerStateHandler<'x, C: RaftTypeConfig> {
    pub(crate) engine: &'x mut Engine<C>,
}

impl<'x, C: RaftTypeConfig<NodeId = u64, Node = BasicNode, D = Bytes>> ServerStateHandler<'x, C> {
    /// The part that the node plays (openraft): it leads, stands for election, follows, or as it has
    /// no vote learns.
    pub fn calc_server_state(&self) -> ServerState
        ensures known { result ≡ server_state_of self.now.engine.now }
        ensures group { (own : ℕ) (s : GroupState) → IsStateOf own self.now.engine.now s → result ≡ part_in s.role (is_voter_in (membership_in_force s.stored) own) }
    {
        if self.engine.leader.is_some() {
            return ServerState::Leader;
        }
        if self.engine.candidate.is_some() {
            return ServerState::Candidate;
        }
        if self.engine.state.state.is_voter(&self.engine.config.id) {
            ServerState::Follower
        } else {
            ServerState::Learner
        }
    }

    /// Whether the node leads (openraft).
    pub fn is_leader(&self) -> bool
        ensures { (own : ℕ) (s : GroupState) → IsStateOf own self.now.engine.now s → result ≡ is_leader s.role }
    {
        self.engine.leader.is_some()
    }

    /// Whether the node is a voter of the membership in force (openraft).
    pub fn is_voter(&self) -> bool
        ensures { (own : ℕ) (s : GroupState) → IsStateOf own self.now.engine.now s → result ≡ is_voter_in (membership_in_force s.stored) own }
    {
        self.engine.state.state.is_voter(&self.engine.config.id)
    }

    /// Notes the part that the node plays (openraft), and says whether it was another one before.
    pub fn update_server_state_if_changed(&mut self) -> bool
        ensures same_engine { self.new.engine.ghost_name ≡ self.old.engine.ghost_name }
        ensures noted { self.new.engine.now ≡ with_server_state (server_state_of self.old.engine.now) self.old.engine.now }
        ensures changed { (result ≡ false) ↔ (self.old.engine.now.state.state.server_state ≡ server_state_of self.old.engine.now) }
        ensures step { (x : Given) (own : ℕ) (r : StepResult) → IsStepOf x own self.old.engine.now r → IsStepOf x own self.new.engine.now r }
    {
        let server_state = self.calc_server_state();
        if self.engine.state.state.server_state == server_state {
            return false;
        }
        self.engine.state.state.server_state = server_state;
        true
    }
}
