//! What becomes of tokens in a step: laws of single steps, each a contract of a function without a body, with worked rows of
//! their words.

ghost use Rattle.std.specs.Prelude.{◌≡◌, true, false, [], ◌∷◌, Some, None};
ghost use Rattle.raft_values.specs.LogId.{log_id_of};
ghost use Rattle.raft_values.specs.Vote.{vote_of};
ghost use Rattle.raft_group_step.specs.declared.group_call.GroupCall.TheVariants.{Elect, Heartbeat};
ghost use Rattle.raft_group_step.specs.GroupEvent.{Call, Open};
ghost use Rattle.raft_group_step.specs.GroupStep.{group_step};
ghost use Rattle.raft_group_step.specs.StepExample.{follower_of_one};
ghost use Rattle.raft_step_laws.specs.ElectionRows.{candidate};
ghost use Rattle.raft_step_laws.specs.Tokens.{HasItsOwnVote, OpensWithNone, TokensGo, TokensGoInOrder, TokensOfSteps, TokensWaitLeading};
ghost use Rattle.raft_step_laws.specs.Tokens.{UntoldIsAbove, VotesStayOwn, WaitsAbove, WaitsInOrder, WaitsLeading, brought};
ghost use Rattle.raft_step_laws.specs.TokenRows.{accepts, answering, answers_at, giving_up, hears_of, leader, leader_asking, proposes, sole_leader, waits};

/// Where a leader leads on under its vote, just the tokens whose place is committed are told, in their order, and the others
/// wait. Else all that waited stay unknown, and none is told or waits. So it is at each state whose leaders and candidates
/// have their own vote, whose tokens wait at leaders alone, and of an opening that begins with none.
/// Where they wait by rising place, below the log's end, they are told so, and the others wait so.
pub fn tokens_are_told_once()
    ensures tokens { TokensOfSteps }
    ensures order { TokensGoInOrder }
{}

/// What waits, waits at a leader alone, and above all that is committed; and a candidate's and a leader's vote is its own: so
/// it stays with each step.
pub fn tokens_wait_above()
    ensures leading { TokensWaitLeading }
    ensures above { UntoldIsAbove }
    ensures votes { VotesStayOwn }
{}

/// A leader tells what a quorum accepted, and no more; its tokens stay unknown once it gives up its lead.
pub fn tokens_of_a_leader()
    ensures all_accepted { answers_at leader (accepts (Some (log_id_of 2 2 3))) ≡ (waits 7 2 ∷ waits 8 3 ∷ [], [], []) }
    ensures one_accepted { answers_at (leader_asking (Some (log_id_of 2 2 2))) (accepts (Some (log_id_of 2 2 2))) ≡ (waits 7 2 ∷ [], [], waits 8 3 ∷ []) }
    ensures nothing_asked { answers_at leader (accepts (Some (log_id_of 2 2 2))) ≡ ([], [], waits 7 2 ∷ waits 8 3 ∷ []) }
    ensures proposes { answers_at leader proposes ≡ ([], [], waits 7 2 ∷ waits 8 3 ∷ waits 9 4 ∷ []) }
    ensures sole { answers_at sole_leader proposes ≡ (waits 9 1 ∷ [], [], []) }
    ensures lesser_vote { answers_at leader (hears_of (vote_of 1 3 true)) ≡ ([], [], waits 7 2 ∷ waits 8 3 ∷ []) }
    ensures greater_vote { answers_at leader (hears_of (vote_of 3 3 true)) ≡ ([], 7 ∷ 8 ∷ [], []) }
    ensures elects { answers_at leader (Call Elect 0) ≡ ([], 7 ∷ 8 ∷ [], []) }
{}

/// A leader that leads on tells what is due, once, and keeps the rest; one that gives up its lead names all that waited.
pub fn steps_of_tokens()
    ensures brings { brought leader proposes ≡ waits 9 4 ∷ [] }
    ensures waits { TokensGo leader (Call Heartbeat 0) (answering None [] [] (waits 7 2 ∷ waits 8 3 ∷ [])) }
    ensures told { TokensGo leader (Call Heartbeat 0) (answering (Some 2) (waits 7 2 ∷ []) [] (waits 8 3 ∷ [])) }
    ensures early { TokensGo leader (Call Heartbeat 0) (answering None (waits 7 2 ∷ []) [] (waits 8 3 ∷ [])) → ⊥ }
    ensures late { TokensGo leader (Call Heartbeat 0) (answering (Some 2) [] [] (waits 7 2 ∷ waits 8 3 ∷ [])) → ⊥ }
    ensures forgotten { TokensGo leader (Call Heartbeat 0) (answering None [] [] (waits 8 3 ∷ [])) → ⊥ }
    ensures lost { TokensGo leader (Call Heartbeat 0) (answering (Some 2) [] [] (waits 8 3 ∷ [])) → ⊥ }
    ensures told_and_waits { let both = waits 7 2 ∷ waits 8 3 ∷ []
        in TokensGo leader (Call Heartbeat 0) (answering None (waits 7 2 ∷ []) [] both) → ⊥ }
    ensures unknown { TokensGo leader (Call Heartbeat 0) (answering None [] (7 ∷ []) (waits 7 2 ∷ waits 8 3 ∷ [])) → ⊥ }
    ensures not_noted { TokensGo leader proposes (answering None [] [] (waits 7 2 ∷ waits 8 3 ∷ [])) → ⊥ }
    ensures given_up { TokensGo leader (Call Elect 0) (giving_up [] (7 ∷ 8 ∷ []) []) }
    ensures silent { TokensGo leader (Call Elect 0) (giving_up [] [] []) → ⊥ }
    ensures still_waits { TokensGo leader (Call Elect 0) (giving_up [] (7 ∷ 8 ∷ []) (waits 8 3 ∷ [])) → ⊥ }
    ensures told_then { TokensGo leader (Call Elect 0) (giving_up (waits 7 2 ∷ []) (7 ∷ 8 ∷ []) []) → ⊥ }
{}

/// An opening forgets what waited: so the law is of openings that begin with no token.
pub fn openings_with_tokens()
    ensures forgets { TokensGo leader Open (group_step 2 leader Open) → ⊥ }
    ensures with_none { OpensWithNone follower_of_one Open }
    ensures with_some { OpensWithNone leader Open → ⊥ }
{}

/// What the law asks of a state.
pub fn states_with_tokens()
    ensures own_vote { HasItsOwnVote 2 leader }
    ensures anothers_vote { HasItsOwnVote 1 leader → ⊥ }
    ensures candidates_vote { HasItsOwnVote 1 (candidate []) → ⊥ }
    ensures follower { HasItsOwnVote 2 follower_of_one }
    ensures waits_leading { WaitsLeading leader }
    ensures waits_following { WaitsLeading (giving_up [] [] (waits 7 2 ∷ [])).state → ⊥ }
    ensures above { WaitsAbove (answering (Some 2) [] [] (waits 8 3 ∷ [])).state }
    ensures committed { WaitsAbove (answering (Some 2) [] [] (waits 7 2 ∷ [])).state → ⊥ }
    ensures in_order { WaitsInOrder leader }
    ensures falling { WaitsInOrder (answering None [] [] (waits 8 3 ∷ waits 7 2 ∷ [])).state → ⊥ }
    ensures twice { WaitsInOrder (answering None [] [] (waits 7 2 ∷ waits 8 2 ∷ [])).state → ⊥ }
    ensures behind { WaitsInOrder (answering None [] [] (waits 7 4 ∷ [])).state → ⊥ }
{}
