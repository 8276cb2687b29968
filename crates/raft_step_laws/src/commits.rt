//! A leader commits at once what a quorum accepted: laws of single steps, each a contract of a function without a body, with
//! worked rows of their words.

ghost use Rattle.std.specs.Prelude.{◌≡◌, true, false, [], ◌∷◌, Some, None};
ghost use Rattle.raft_values.specs.LogId.{log_id_of};
ghost use Rattle.raft_step_laws.specs.Commits.{CommitsAll, CommitsAtOnce, NoneWaitsAccepted, PurgeKeepsVoters, TokensAreToldAtOnce};
ghost use Rattle.raft_step_laws.specs.ElectionRows.{candidate};
ghost use Rattle.raft_step_laws.specs.Elections.{LacksAQuorum};
ghost use Rattle.raft_group_step.specs.StepExample.{leads_three};
ghost use Rattle.raft_step_laws.specs.CommitRows.{committed_then, lead_to, leading, purged, purges, quorum_at, without_membership};
ghost use Rattle.raft_step_laws.specs.PeerRows.{before, last};
ghost use Rattle.raft_step_laws.specs.TokenRows.{waits};

/// After an event that isn't refused, a leader has committed each entry of its own up to which a quorum of the voter groups in
/// force has accepted its entries, itself among them. So no token waits for such an entry: it is told in the event that
/// completes the quorum.
pub fn leaders_commit_at_once()
    ensures commits { CommitsAtOnce }
    ensures tokens { TokensAreToldAtOnce }
{}

/// A leader of three has a quorum where one peer has accepted all up to the place, and counts itself.
pub fn quorums_of_a_leader()
    ensures alone { quorum_at None 2 ≡ false }
    ensures earlier { quorum_at before 2 ≡ false }
    ensures there { quorum_at (Some (log_id_of 2 2 2)) 2 ≡ true }
    ensures further { quorum_at (Some (log_id_of 2 2 2)) 3 ≡ false }
    ensures behind { quorum_at last 2 ≡ true }
{}

/// What a quorum accepted of a leader's own is committed, up to the last such entry, and no token waits for it.
pub fn commits_of_a_leader()
    ensures steps { committed_then ≡ Some 3 }
    ensures nothing { CommitsAll 2 (leading None []) (lead_to last) → ⊥ }
    ensures not_all { CommitsAll 2 (leading (Some 2) []) (lead_to last) → ⊥ }
    ensures waits { NoneWaitsAccepted 2 (leading (Some 2) (waits 7 3 ∷ [])) (lead_to last) → ⊥ }
    ensures not_accepted { NoneWaitsAccepted 2 (leading (Some 2) (waits 7 3 ∷ [])) (lead_to (Some (log_id_of 2 2 2))) }
{}

/// A purge that takes the membership in force along leaves no voter groups, and so any nodes are a quorum: the laws are of
/// purges that keep them.
pub fn purges_of_the_membership()
    ensures voters { PurgeKeepsVoters 2 (without_membership (leads_three None)) purges → ⊥ }
    ensures commits { CommitsAll 2 (purged (leads_three None)) (lead_to None) → ⊥ }
    ensures grants { LacksAQuorum (purged (candidate (2 ∷ []))) → ⊥ }
    ensures keeps { PurgeKeepsVoters 2 (leads_three None) purges }
{}
