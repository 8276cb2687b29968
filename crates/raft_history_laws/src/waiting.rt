//! The tokens that a leader is still to tell: a law of every history that replays, as a contract of a function without a body.

ghost use Rattle.std.specs.Prelude.{◌≡◌, [], ◌∷◌};
ghost use Rattle.std.specs.Prelude.{true};
ghost use Rattle.raft_values.specs.Vote.{vote_of};
ghost use Rattle.raft_group_step.specs.GroupState.{Follower};
ghost use Rattle.raft_laws.specs.Example.{to_their_end};
ghost use Rattle.raft_laws.specs.ThreeNodes.{until_proposed, until_told};
ghost use Rattle.raft_history_laws.specs.LeaderListsRun.{leads_on_behind_a_stop};
ghost use Rattle.raft_history_laws.specs.WaitingTokens.{AreRising, IsWaiting, WaitsOwn};
ghost use Rattle.raft_history_laws.specs.WaitingTokensRun.{proposed_twice, proposing, reopened, token, under_vote, waiting_after, with_role};

/// A token waits at a node that leads, for a place that was written in this lead: it lies above all that is committed, and has
/// an entry of the vote's leader. The tokens are by rising place.
pub fn tokens_wait_for_their_own()
    ensures { WaitsOwn }
{}

/// A token waits from its proposal until its place is committed, or its node stops.
pub fn tokens_of_runs()
    ensures one { waiting_after (to_their_end until_proposed) 1 ≡ token 1 2 ∷ [] }
    ensures two { waiting_after proposed_twice 1 ≡ token 1 2 ∷ token 2 3 ∷ [] }
    ensures elsewhere { waiting_after proposed_twice 2 ≡ [] }
    ensures told { waiting_after (to_their_end until_told) 1 ≡ [] }
    ensures stopped { waiting_after leads_on_behind_a_stop 1 ≡ [] }
{}

/// No token waits for a committed place, or for one without an entry, for an entry of a lead before, though it is the leader's
/// own and isn't committed, or for one of another vote's leader; and none at a node that follows.
pub fn places_that_tokens_wait_for()
    ensures waits { IsWaiting proposing (token 1 2) }
    ensures committed { IsWaiting proposing (token 1 1) → ⊥ }
    ensures behind { IsWaiting proposing (token 1 3) → ⊥ }
    ensures earlier_lead { IsWaiting reopened (token 1 2) → ⊥ }
    ensures other_vote { IsWaiting (under_vote (vote_of 3 1 true) proposing) (token 1 2) → ⊥ }
    ensures follower { IsWaiting (with_role Follower proposing) (token 1 2) → ⊥ }
    ensures rising { AreRising (token 5 2 ∷ token 4 3 ∷ token 6 7 ∷ []) }
    ensures falling { AreRising (token 1 2 ∷ token 2 4 ∷ token 3 3 ∷ []) → ⊥ }
    ensures equal { AreRising (token 1 2 ∷ token 2 2 ∷ []) → ⊥ }
{}
