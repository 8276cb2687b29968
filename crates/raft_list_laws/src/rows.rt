//! Rows that pin the words of accounts.

ghost use Rattle.std.specs.Prelude.{◌≡◌, ◌∷◌, ◌++◌, [], true, false};
ghost use Rattle.raft_values.specs.LogId.{log_id_of};
ghost use Rattle.raft_values.specs.Vote.{vote_of};
ghost use Rattle.raft_state.specs.declared.entry.EntryPayload.TheVariants.{Normal};
ghost use Rattle.raft_laws.specs.ConflictRun.{another_leads};
ghost use Rattle.raft_laws.specs.Example.{add, run_of, three};
ghost use Rattle.raft_laws.specs.LawRuns.{after, blank_at, first_two as two_noted};
ghost use Rattle.raft_laws.specs.ThreeNodes.{until_proposed};
ghost use Rattle.raft_history_laws.specs.LeaderListsRun.{leads_on_behind_a_stop};
ghost use Rattle.raft_history_laws.specs.WholeSnapshotsRun.{first_entries, set_up_entry};
ghost use Rattle.raft_list_laws.specs.Accounts.{settled_of};
ghost use Rattle.raft_list_laws.specs.AccountsRows.{accounts_with, first_list, first_two, second_list, second_note};
ghost use Rattle.raft_list_laws.specs.Bases.{WasNotedBefore, base_of, before_own};
ghost use Rattle.raft_list_laws.specs.Changes.{note_reaches};
ghost use Rattle.raft_list_laws.specs.NotesRun.{base_gone_on, bases_under, list_gone_on, list_of_note};

/// Of a leader's list is settled what a quorum of the voters has accepted up to an own entry, with the former leaders' entries
/// before it. A leader alone settles nothing, nor does a learner with it, nor the acceptance of a former leader's entry.
pub fn settled_by_three_voters()
    ensures alone { settled_of (accounts_with first_list ((1, 2) ∷ [])) (vote_of 1 1 true) ≡ [] }
    ensures up_to_a_quorum { settled_of (accounts_with first_list ((1, 2) ∷ (2, 1) ∷ [])) (vote_of 1 1 true) ≡ first_two }
    ensures whole { settled_of (accounts_with first_list ((1, 2) ∷ (3, 2) ∷ [])) (vote_of 1 1 true) ≡ first_list }
    ensures learner { settled_of (accounts_with first_list ((1, 2) ∷ (4, 2) ∷ [])) (vote_of 1 1 true) ≡ [] }
    ensures former { settled_of (accounts_with second_list ((2, 2) ∷ (3, 1) ∷ [])) (vote_of 2 2 true) ≡ [] }
    ensures with_former { settled_of (accounts_with second_list ((2, 2) ∷ (3, 2) ∷ [])) (vote_of 2 2 true) ≡ second_list }
{}

/// A leader's note says that its node has accepted the leader's own entries under the vote, and nothing of others.
pub fn notes_of_leaders()
    ensures own { note_reaches second_note (vote_of 2 2 true) 2 2 ≡ true }
    ensures before { note_reaches second_note (vote_of 2 2 true) 1 2 ≡ true }
    ensures past { note_reaches second_note (vote_of 2 2 true) 3 2 ≡ false }
    ensures other_node { note_reaches second_note (vote_of 2 2 true) 2 3 ≡ false }
    ensures other_vote { note_reaches second_note (vote_of 1 1 true) 1 2 ≡ false }
{}

/// What a leader took over ends before its first own entry, and is all of a list without one. The first leader took over the set-up's
/// entry, at each of its notes; the next one what the first was noted with first, and not the command that it never got.
pub fn bases_of_leaders()
    ensures before { base_of second_note ≡ first_two }
    ensures whole { before_own (vote_of 3 3 true).leader_id first_list ≡ first_list }
    ensures nothing { before_own (vote_of 0 0 true).leader_id first_list ≡ [] }
    ensures first { bases_under (vote_of 1 1 true) (run_of three until_proposed) ≡ (log_id_of 0 0 0 ∷ []) ∷ (log_id_of 0 0 0 ∷ []) ∷ (log_id_of 0 0 0 ∷ []) ∷ [] }
    ensures next { bases_under (vote_of 2 2 true) (run_of three another_leads) ≡ two_noted ∷ [] }
{}

/// What the second leader took over was noted before, and so was each front of it: not with an entry more than the first leader
/// ever had, nor by notes under its own vote, nor by later ones.
pub fn lists_noted_before()
    ensures base { WasNotedBefore (run_of three another_leads) 3 (vote_of 2 2 true) (set_up_entry ∷ blank_at 1 ∷ []) }
    ensures front { WasNotedBefore (run_of three another_leads) 3 (vote_of 2 2 true) (set_up_entry ∷ []) }
    ensures longer { WasNotedBefore (run_of three another_leads) 3 (vote_of 2 2 true) (first_entries ++ blank_at 3 ∷ []) → ⊥ }
    ensures own_vote { WasNotedBefore (run_of three another_leads) 3 (vote_of 1 1 true) (set_up_entry ∷ []) → ⊥ }
    ensures later { WasNotedBefore (run_of three another_leads) 0 (vote_of 2 2 true) (set_up_entry ∷ []) → ⊥ }
{}

/// A leader is noted first with a blank entry behind what it took over. Its next note has nothing new, or the command of its event; and
/// behind an opening the one of a proposal that stopped.
pub fn new_entries_of_leaders()
    ensures first { list_of_note 0 (run_of three until_proposed) ≡ base_gone_on 0 (run_of three until_proposed) }
    ensures nothing { list_of_note 1 (run_of three until_proposed) ≡ list_of_note 0 (run_of three until_proposed) }
    ensures command { list_of_note 2 (run_of three until_proposed) ≡ list_gone_on (Normal (add 5)) 1 (run_of three until_proposed) }
    ensures stopped { list_of_note 3 (after leads_on_behind_a_stop) ≡ list_gone_on (Normal (add 7)) 2 (after leads_on_behind_a_stop) }
{}
