//! What part a node plays.
ghost use Rattle.std.specs.Prelude.{◌≡◌, ◌↔◌, IsTrue};
ghost use Rattle.raft_values.specs.declared.server_state.ServerState.TheVariants.{Learner, Follower, Candidate, Leader};

/// What part a node plays in its group (openraft).
#[derive(Clone, Copy, Debug, Default, PartialEq, Eq)]
pub enum ServerState {
    /// It takes entries and has no vote.
    #[default]
    Learner,
    /// It takes entries of a leader and votes.
    Follower,
    /// It asks for votes.
    Candidate,
    /// A quorum has granted its vote.
    Leader,
    /// It has stopped.
    Shutdown,
}

impl ServerState {
    /// Whether it is a learner.
    pub fn is_learner(&self) -> bool
        ensures { IsTrue result ↔ (self.now ≡ Learner) }
    {
        matches!(self, ServerState::Learner)
    }

    /// Whether it is a follower.
    pub fn is_follower(&self) -> bool
        ensures { IsTrue result ↔ (self.now ≡ Follower) }
    {
        matches!(self, ServerState::Follower)
    }

    /// Whether it is a candidate.
    pub fn is_candidate(&self) -> bool
        ensures { IsTrue result ↔ (self.now ≡ Candidate) }
    {
        matches!(self, ServerState::Candidate)
    }

    /// Whether it is the leader.
    pub fn is_leader(&self) -> bool
        ensures { IsTrue result ↔ (self.now ≡ Leader) }
    {
        matches!(self, ServerState::Leader)
    }
}
