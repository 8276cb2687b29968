//! What the laws' words take in and what they leave out, on worked runs and small values: each a contract of a function
//! without a body.
ghost use Rattle.std.specs.Prelude.{◌≡◌, true, false, [], ◌∷◌, ◌++◌, Some, None};
ghost use Rattle.raft_values.specs.LogId.{log_id_of};
ghost use Rattle.raft_values.specs.Vote.{vote_of};
ghost use Rattle.raft_group_step.specs.GroupState.{state_of};
ghost use Rattle.raft_group_step.specs.Message.{HigherVote, Success};
ghost use Rattle.raft_group_step.specs.StoredGroup.{CutFrom, SetVote};
ghost use Rattle.raft_laws.specs.declared.world_event.WorldEvent.TheVariants.{Add};
ghost use Rattle.raft_laws.specs.GroupWorld.{GroupWorld, Absent, Up, Down, Skipped, new_world};
ghost use Rattle.raft_laws.specs.Example.{Halted, Leads, PassedOver, add, applied_at, held_ids_at, log_ids_at, ok, outcomes_after, part_at, three, to_their_end};
ghost use Rattle.raft_laws.specs.ThreeNodes.{set_up, until_accepted, until_proposed, until_told};
ghost use Rattle.raft_laws.specs.OriginRun.{command_at};
ghost use Rattle.raft_laws.specs.Settled.{Accepted, IsGroupList, IsSettled};
ghost use Rattle.raft_laws.specs.BallotLists.{AgreeBelow};
ghost use Rattle.raft_laws.specs.CommitsOwn.{CommittedOwn};
ghost use Rattle.raft_laws.specs.GroupRun.{Replays};
ghost use Rattle.raft_laws.specs.OneVoter.{one};
ghost use Rattle.raft_laws.specs.StoringOrder.{AllKeep, KeepsVoteAndCommitted};
ghost use Rattle.raft_laws.specs.VotesRise.{SentVotesKept, VoteKept, replied_vote};
ghost use Rattle.raft_laws.specs.LawRuns.{accepted_for_another, accepted_with_own, after, another_set_up, first_three, first_two, known_after, leads_on_a_snapshot};
ghost use Rattle.raft_laws.specs.LawRuns.{blank_at, list_after, outcomes_with_own, settled_aside, state_after, stopped_set_up, stops_with_a_snapshot, stored_unsaid, told_of_anothers};
ghost use Rattle.raft_laws.specs.LawRuns.{told_once, voted};

/// An entry is settled once a quorum accepted it under its leader's vote: not while a minority has it, not where a node
/// stored it and stopped before it replied, and not by what is accepted under another leader's vote, until that leader has
/// an entry of its own accepted behind it.
pub fn settled_entries_of_runs()
    ensures nothing { list_after (to_their_end set_up) ≡ [] }
    ensures minority { list_after (to_their_end until_proposed) ≡ first_two }
    ensures accepted { list_after (to_their_end until_accepted) ≡ first_three }
    ensures unsaid { list_after stored_unsaid ≡ first_two }
    ensures for_another { list_after accepted_for_another ≡ first_two }
    ensures with_own { list_after accepted_with_own ≡ first_three ++ log_id_of 2 2 3 ∷ [] }
{}

/// A leader accepts what it has, a follower what it replied, each under the vote of the time.
pub fn acceptances_of_runs()
    ensures led { Accepted (after (to_their_end until_proposed)) (vote_of 1 1 true) (command_at 2 (add 5)) 1 }
    ensures not_sent { Accepted (after (to_their_end until_proposed)) (vote_of 1 1 true) (command_at 2 (add 5)) 2 → ⊥ }
    ensures unsaid { Accepted (after stored_unsaid) (vote_of 1 1 true) (command_at 2 (add 5)) 2 → ⊥ }
    ensures replied { Accepted (after (to_their_end until_accepted)) (vote_of 1 1 true) (command_at 2 (add 5)) 2 }
    ensures another_vote { Accepted (after accepted_for_another) (vote_of 2 2 true) (command_at 2 (add 5)) 3 }
    ensures not_that_vote { Accepted (after accepted_for_another) (vote_of 1 1 true) (command_at 2 (add 5)) 3 → ⊥ }
{}

/// A leader whose vote is below that of a later one leads on without the list's last entry, and has another at its place.
pub fn leaders_of_two_votes()
    ensures first_leads { part_at (after settled_aside) 1 ≡ Leads }
    ensures second_leads { part_at (after settled_aside) 2 ≡ Leads }
    ensures list { list_after settled_aside ≡ first_two ++ log_id_of 2 2 2 ∷ [] }
    ensures first_lacks { held_ids_at (after settled_aside) 1 ≡ Some first_three }
{}

/// A leader commits nothing before an entry of its own, though a quorum has accepted what came before it.
pub fn commits_of_a_leader_without_an_entry()
    ensures before { known_after accepted_for_another 2 ≡ None }
    ensures outcomes { outcomes_after 16 three accepted_with_own ≡ outcomes_with_own }
    ensures behind { known_after accepted_with_own 2 ≡ Some 3 }
{}

/// A leader that committed an entry of its own has it at its committed place. Not so a leader that was opened on a
/// snapshot, nor a follower.
pub fn committed_entries_of_runs()
    ensures own { CommittedOwn 2 (state_after accepted_with_own 2) }
    ensures snapshots { CommittedOwn 2 (state_after leads_on_a_snapshot 2) → ⊥ }
    ensures followers { CommittedOwn 2 (state_after told_of_anothers 2) → ⊥ }
{}

/// A node that is opened knows its snapshot's list to be committed, also where it leads on and has no entry of its own.
pub fn places_known_at_an_opening()
    ensures told { known_after (to_their_end until_told) 1 ≡ Some 2 }
    ensures lagging { known_after (to_their_end until_told) 3 ≡ None }
    ensures down { known_after stops_with_a_snapshot 2 ≡ Some 2 }
    ensures leads { part_at (after leads_on_a_snapshot) 2 ≡ Leads }
    ensures log { log_ids_at (after leads_on_a_snapshot) 2 ≡ Some first_three }
    ensures applied { applied_at (after leads_on_a_snapshot) 2 ≡ Some 2 }
{}

/// The group's list has each settled entry, none else, and each at its place.
pub fn lists_of_a_group()
    ensures settled { IsSettled (after (to_their_end until_told)) (command_at 2 (add 5)) }
    ensures lacks { IsGroupList (after (to_their_end until_told)) [] → ⊥ }
    ensures unsettled { IsGroupList (new_world three) (blank_at 0 ∷ []) → ⊥ }
    ensures misplaced { (w : GroupWorld) → IsGroupList w (blank_at 1 ∷ blank_at 0 ∷ []) → ⊥ }
{}

/// Lists agree below a place where both have it all, and the same.
pub fn lists_that_agree()
    ensures agree { AgreeBelow 2 (blank_at 0 ∷ blank_at 1 ∷ blank_at 2 ∷ []) (blank_at 0 ∷ blank_at 1 ∷ blank_at 3 ∷ []) }
    ensures differ { AgreeBelow 3 (blank_at 0 ∷ blank_at 1 ∷ blank_at 2 ∷ []) (blank_at 0 ∷ blank_at 1 ∷ blank_at 3 ∷ []) → ⊥ }
    ensures short { AgreeBelow 1 (blank_at 0 ∷ []) [] → ⊥ }
{}

/// A history that says of an event what doesn't become of it doesn't replay.
pub fn histories_that_do_not_replay()
    ensures { (end : GroupWorld) → Replays (new_world one) (record { event = Add 1; outcome = Skipped } ∷ []) end → ⊥ }
{}

/// A group is set up once: another set-up is passed over, also where the first one stopped.
pub fn second_set_ups()
    ensures other { outcomes_after 11 three another_set_up ≡ PassedOver ∷ [] }
    ensures stopped { outcomes_after 0 three stopped_set_up ≡ ok [] ∷ Halted [] ∷ ok [] ∷ PassedOver ∷ [] }
{}

/// A vote that is stored stays or rises, whether the node is up or down.
pub fn votes_that_are_kept()
    ensures rises { VoteKept (Up (state_of (voted 1))) (Down (voted 2)) }
    ensures falls { VoteKept (Down (voted 2)) (Up (state_of (voted 1))) → ⊥ }
    ensures lost { VoteKept (Down (voted 1)) Absent → ⊥ }
{}

/// A message tells its sender's vote: the one that it comes under, or the greater one that a reply tells. Who has told a
/// greater vote than it has stored hasn't kept it.
pub fn votes_that_are_told()
    ensures taken { replied_vote (vote_of 1 1 true) Success ≡ vote_of 1 1 true }
    ensures greater { replied_vote (vote_of 1 1 true) (HigherVote (vote_of 2 1 false)) ≡ vote_of 2 1 false }
    ensures kept { SentVotesKept (told_once 2 1) }
    ensures lost { SentVotesKept (told_once 1 2) → ⊥ }
{}

/// Each storing command is judged by what is stored when its turn comes: no vote below that one, no cut at or below the
/// committed place.
pub fn commands_that_keep()
    ensures rising { AllKeep None (voted 0) (SetVote (vote_of 1 1 false) ∷ SetVote (vote_of 2 1 false) ∷ []) }
    ensures falling { AllKeep None (voted 0) (SetVote (vote_of 2 1 false) ∷ SetVote (vote_of 1 1 false) ∷ []) → ⊥ }
    ensures above { KeepsVoteAndCommitted (Some 1) (voted 1) (CutFrom 2) }
    ensures at_committed { KeepsVoteAndCommitted (Some 1) (voted 1) (CutFrom 1) → ⊥ }
{}
