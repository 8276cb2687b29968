//! A candidate that a quorum granted leads in that event: laws of single steps, each a contract of a function without a body,
//! with worked rows of their words.

ghost use Rattle.std.specs.Prelude.{◌≡◌, true, false, [], ◌∷◌};
ghost use Rattle.raft_values.specs.Vote.{vote_of};
ghost use Rattle.raft_group_step.specs.declared.group_call.GroupCall.TheVariants.{Elect, Heartbeat, Initialize};
ghost use Rattle.raft_group_step.specs.GroupEvent.{Call};
ghost use Rattle.raft_group_step.specs.StepExample.{empty_group};
ghost use Rattle.raft_step_laws.specs.Elections.{CandidatesLack, GrantedCandidatesLead, GrantersReplay, LacksAQuorum};
ghost use Rattle.raft_step_laws.specs.Elections.{configs_counted, counts_a_grant, granters_after};
ghost use Rattle.raft_step_laws.specs.ElectionRows.{candidate, leads_after, says, two_voters};

/// Where the grant that an event counts makes a quorum of the voter groups, the node leads as the event is over. Who has
/// granted is what came to the node since it stood for election, its own grant first.
pub fn granted_candidates_lead()
    ensures leads { GrantedCandidatesLead }
    ensures granters { GrantersReplay }
{}

/// A candidate's granters are no quorum: so it stays with each step, as long as the voter groups in force stay.
pub fn candidates_lack_a_quorum()
    ensures { CandidatesLack }
{}

/// A grant counts at a candidate, under its vote, and as it stands for election.
pub fn grants_that_count()
    ensures granted { counts_a_grant (candidate (2 ∷ [])) (says 1 (vote_of 2 2 false) true) ≡ true }
    ensures refused { counts_a_grant (candidate (2 ∷ [])) (says 1 (vote_of 2 2 false) false) ≡ false }
    ensures another_vote { counts_a_grant (candidate (2 ∷ [])) (says 1 (vote_of 1 2 false) true) ≡ false }
    ensures no_candidate { counts_a_grant empty_group (says 1 (vote_of 0 0 false) true) ≡ false }
    ensures stands { counts_a_grant empty_group (Call Elect 0) ≡ true }
    ensures set_up { counts_a_grant empty_group (Call (Initialize two_voters) 0) ≡ true }
    ensures beats { counts_a_grant empty_group (Call Heartbeat 0) ≡ false }
{}

/// Each node that granted is counted once, and nobody's grant outlasts the next election.
pub fn granters_of_a_candidate()
    ensures one_more { granters_after 2 (candidate (2 ∷ [])) (says 3 (vote_of 2 2 false) true) ≡ 2 ∷ 3 ∷ [] }
    ensures again { granters_after 2 (candidate (2 ∷ 3 ∷ [])) (says 3 (vote_of 2 2 false) true) ≡ 2 ∷ 3 ∷ [] }
    ensures another_vote { granters_after 2 (candidate (2 ∷ [])) (says 3 (vote_of 1 2 false) true) ≡ 2 ∷ [] }
    ensures anew { granters_after 2 (candidate (2 ∷ 3 ∷ [])) (Call Elect 0) ≡ 2 ∷ [] }
{}

/// A candidate of three needs one grant more than its own; where a group is set up, its first voter groups count.
pub fn elections_that_are_won()
    ensures two_of_three { leads_after (2 ∷ []) 1 (vote_of 2 2 false) ≡ true }
    ensures another_vote { leads_after (2 ∷ []) 1 (vote_of 1 2 false) ≡ false }
    ensures own_again { leads_after (2 ∷ []) 2 (vote_of 2 2 false) ≡ false }
    ensures set_up { configs_counted empty_group (Call (Initialize two_voters) 0) ≡ (1 ∷ 2 ∷ []) ∷ [] }
    ensures in_force { configs_counted (candidate []) (Call Elect 0) ≡ (1 ∷ 2 ∷ 3 ∷ []) ∷ [] }
{}

/// One of three is no quorum, two are one.
pub fn candidates_without_a_quorum()
    ensures one { LacksAQuorum (candidate (2 ∷ [])) }
    ensures two { LacksAQuorum (candidate (2 ∷ 3 ∷ [])) → ⊥ }
{}
