//! How tokens end: laws of every run, each a contract of a function without a body.

ghost use Rattle.std.specs.Prelude.{◌≡◌, ℕ, [], ◌∷◌};
ghost use Rattle.raft_laws.specs.GroupWorld.{Done, Refused, Stopped};
ghost use Rattle.raft_group_step.specs.StepResult.{InProgress};
ghost use Rattle.raft_laws.specs.NodeEvent.{Crashes, Restarts};
ghost use Rattle.raft_laws.specs.Example.{to_their_end};
ghost use Rattle.raft_laws.specs.ConflictRun.{until_committed_anew};
ghost use Rattle.raft_laws.specs.CrashRuns.{leader_restarts};
ghost use Rattle.raft_laws.specs.HaltRuns.{until_halted};
ghost use Rattle.raft_laws.specs.ThreeNodes.{until_proposed, until_told};
ghost use Rattle.raft_history_laws.specs.TokenEnds.{EndsAreNamed, LedgersHaveTheUntold, Names, NamesUnlessCrash, TokensEndOnce, WaitingWereBrought};
ghost use Rattle.raft_history_laws.specs.TokenEndsRun.{BroughtToFollower, CommandEndsAt, StoppedEndsAt, both, ended_of_both, equal_tokens, first_told, ledger_after, of_event, waiting_of_both};
ghost use Rattle.raft_history_laws.specs.WaitingTokensRun.{proposed_twice, token};

/// For each event that took a command or a change, its token waits at its node, or has ended in one event at that node, and in
/// no other. That event's outcome tells just the tokens that end in it, or has just these as unknown; only a crash names none.
/// The tokens that wait are those that the node has untold, each with the number of the event that brought it, since tokens
/// may be equal.
pub fn tokens_end_once()
    ensures waits { LedgersHaveTheUntold }
    ensures brought { WaitingWereBrought }
    ensures named { EndsAreNamed }
    ensures once { TokensEndOnce }
{}

/// Tokens wait by their events: two of them may be equal, and the first is told alone.
pub fn ledgers_of_runs()
    ensures two { ledger_after proposed_twice 1 ≡ of_event 8 1 2 ∷ of_event 9 2 3 ∷ [] }
    ensures equal { ledger_after equal_tokens 1 ≡ of_event 8 1 2 ∷ of_event 9 1 3 ∷ [] }
    ensures first_told { ledger_after first_told 1 ≡ of_event 9 1 3 ∷ [] }
    ensures told { ledger_after (to_their_end until_told) 1 ≡ [] }
    ensures elsewhere { ledger_after proposed_twice 2 ≡ [] }
    ensures wait { waiting_of_both ≡ of_event 8 1 2 ∷ [] }
    ensures ended { ended_of_both ≡ of_event 9 2 3 ∷ [] }
{}

/// A token ends as it is told, as its node gives up its lead, crashes or is halted, or in its own event's stop; a command that
/// is refused brings none.
pub fn ends_of_tokens()
    ensures told { CommandEndsAt (to_their_end until_told) 10 }
    ensures not_before { CommandEndsAt (to_their_end until_told) 9 → ⊥ }
    ensures unknown { CommandEndsAt (to_their_end until_committed_anew) 12 }
    ensures lost { CommandEndsAt (to_their_end leader_restarts) 10 }
    ensures halted { CommandEndsAt (to_their_end until_halted) 9 }
    ensures stopped { StoppedEndsAt 1 2 }
    ensures stopped_at_once { StoppedEndsAt 0 2 }
    ensures refused { (place : ℕ) → BroughtToFollower place → ⊥ }
{}

/// An outcome names all tokens that end, and no others: it tells them in their order, or has them as unknown. A crash is
/// silent.
pub fn outcomes_that_name_tokens()
    ensures told { Names (Done [] (token 1 2 ∷ token 2 3 ∷ []) []) both }
    ensures unknown { Names (Done [] [] (1 ∷ 2 ∷ [])) both }
    ensures stopped { Names (Stopped (1 ∷ 2 ∷ [])) both }
    ensures refused { Names (Refused InProgress) [] }
    ensures silent { Names (Done [] [] []) both → ⊥ }
    ensures one_of_two { Names (Done [] (token 1 2 ∷ []) []) both → ⊥ }
    ensures twice { Names (Done [] (token 1 2 ∷ token 2 3 ∷ []) (1 ∷ 2 ∷ [])) both → ⊥ }
    ensures some_unknown { Names (Done [] (token 1 2 ∷ []) (2 ∷ [])) both → ⊥ }
    ensures other_place { Names (Done [] (token 1 2 ∷ token 2 4 ∷ []) []) both → ⊥ }
    ensures none_ended { Names (Done [] (token 1 2 ∷ []) []) [] → ⊥ }
    ensures silent_stop { Names (Stopped []) both → ⊥ }
    ensures crash { NamesUnlessCrash Crashes (Done [] [] []) both }
    ensures telling_crash { NamesUnlessCrash Crashes (Done [] (token 1 2 ∷ token 2 3 ∷ []) []) both → ⊥ }
    ensures opening { NamesUnlessCrash Restarts (Done [] [] []) both → ⊥ }
{}
