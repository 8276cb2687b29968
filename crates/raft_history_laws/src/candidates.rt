//! Candidates: a law of every history that replays, as a contract of a function without a body.

ghost use Rattle.std.specs.Prelude.{◌≡◌, [], ◌∷◌, Some, None};
ghost use Rattle.raft_laws.specs.ThreeNodes.{set_up};
ghost use Rattle.raft_history_laws.specs.Candidates.{CandidatesLackQuorums};
ghost use Rattle.raft_history_laws.specs.CandidatesRun.{granters_after, until_elected, until_granted};

/// No candidate has been granted its vote by a quorum of the voter groups in force: one that was leads since that event.
pub fn candidates_lack_quorums()
    ensures { CandidatesLackQuorums }
{}

/// A candidate of three has its own grant, also while another one is on its way; with that one it leads.
pub fn granters_of_runs()
    ensures own { granters_after set_up 1 ≡ Some (1 ∷ []) }
    ensures on_its_way { granters_after until_granted 1 ≡ Some (1 ∷ []) }
    ensures elected { granters_after until_elected 1 ≡ None }
    ensures voter { granters_after until_granted 2 ≡ None }
{}
