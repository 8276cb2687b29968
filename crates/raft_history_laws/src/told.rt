//! What a told token stands for: laws of every history that replays, each a contract of a function without a body.

ghost use Rattle.raft_laws.specs.Example.{run_of, three};
ghost use Rattle.raft_laws.specs.SnapshotRun.{until_caught_up};
ghost use Rattle.raft_laws.specs.ThreeNodes.{until_accepted, until_proposed};
ghost use Rattle.raft_history_laws.specs.ToldAnswers.{LeadersHoldTold, SettledUnderStays, ToldIsSettledUnder};
ghost use Rattle.raft_history_laws.specs.ToldAnswersRun.{CommandSettled, ToldByReply, ToldByRequest};
ghost use Rattle.raft_history_laws.specs.WaitingTokensRun.{token};

/// A token is told by a node that leads, at an entry that is settled under exactly its vote, in the world behind the event that
/// tells it. What is settled under a vote stays so, however the history goes on.
pub fn told_tokens_are_settled()
    ensures settled { ToldIsSettledUnder }
    ensures stays { SettledUnderStays }
{}

/// Each node that leads, then or later, under a vote that isn't below the one under which a token was told holds the group's
/// list up to the told place.
pub fn leaders_hold_what_was_told()
    ensures { LeadersHoldTold }
{}

/// A token is told where its entry is settled behind the event, by the node that leads there: at no other place, and not by a
/// node that follows.
pub fn tokens_told_in_runs()
    ensures told { ToldByReply (token 1 2) }
    ensures no_entry { ToldByReply (token 1 3) → ⊥ }
    ensures follower { ToldByRequest (token 1 2) → ⊥ }
{}

/// A command is settled under its leader's vote once a quorum has replied, also before the leader knows, and under no other
/// leader's vote. It stays so where another node leads on.
pub fn entries_settled_under_votes()
    ensures minority { CommandSettled (run_of three until_proposed) 1 1 → ⊥ }
    ensures replied { CommandSettled (run_of three until_accepted) 1 1 }
    ensures other_vote { CommandSettled (run_of three until_accepted) 2 2 → ⊥ }
    ensures later { CommandSettled (run_of three until_caught_up) 1 1 }
{}
