//! What a leader had under one vote only grows: laws of every history that replays, each a contract of a function without a
//! body.

ghost use Rattle.std.specs.Prelude.{◌≡◌, true, [], ◌∷◌, ◌++◌};
ghost use Rattle.raft_values.specs.LogId.{log_id_of};
ghost use Rattle.raft_values.specs.Vote.{vote_of};
ghost use Rattle.raft_laws.specs.Example.{run_of, three};
ghost use Rattle.raft_laws.specs.ThreeNodes.{until_committed, until_proposed};
ghost use Rattle.raft_laws.specs.ConflictRun.{another_leads};
ghost use Rattle.raft_laws.specs.LawRuns.{after, first_two, first_three};
ghost use Rattle.raft_history_laws.specs.LeaderLists.{LeaderListsGrow, LedListsAreStored};
ghost use Rattle.raft_history_laws.specs.LeaderListsRun.{leads_on_behind_a_stop, lists_under};

/// A leader only appends. Of two notes of leaders under one vote, the earlier one's list is a front of the later one's; and it
/// is a front of what the node has stored as long as its vote is that one, whether it is up, down or opened again.
pub fn leaders_append_only()
    ensures grow { LeaderListsGrow }
    ensures stored { LedListsAreStored }
{}

/// A leader's list grows from event to event, also behind a stop that stored an entry. Under another vote another list stands:
/// it has another entry at the last place.
pub fn lists_of_leaders()
    ensures none { lists_under (vote_of 1 1 true) (run_of three []) ≡ [] }
    ensures grows { lists_under (vote_of 1 1 true) (run_of three until_proposed) ≡ first_two ∷ first_two ∷ first_three ∷ [] }
    ensures stopped { lists_under (vote_of 1 1 true) (after leads_on_behind_a_stop) ≡ first_two ∷ first_two ∷ first_three ∷ (first_three ++ log_id_of 1 1 3 ∷ []) ∷ [] }
    ensures other_vote { lists_under (vote_of 2 2 true) (run_of three another_leads) ≡ (first_two ++ log_id_of 2 2 2 ∷ []) ∷ [] }
{}
