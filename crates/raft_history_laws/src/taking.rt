//! A leader takes each command within the limits: laws of every history that replays, each a
//! contract of a function without a body, with worked rows of their words.

ghost use Rattle.std.specs.Prelude.{◌≡◌, ◌^◌, true, [], ◌∷◌};
ghost use Rattle.raft_values.specs.Vote.{vote_of};
ghost use Rattle.raft_group_step.specs.GroupState.{Follower};
ghost use Rattle.raft_step_laws.specs.TakingRows.{leader};
ghost use Rattle.raft_history_laws.specs.TakenCommands.{HasTaken, Takes};
ghost use Rattle.raft_history_laws.specs.TakenCommands.{LeadersTakeCommands, ProposalsAreTaken};
ghost use Rattle.raft_history_laws.specs.TakenCommandsRun.{TakenIn, behind, command};
ghost use Rattle.raft_history_laws.specs.WaitingTokensRun.{under_vote, with_role};

/// Each node that is up and leads refuses no command of at most 65,536 bytes, as long as the
/// moment, its next place and the numbers of its next requests are below 2^62. The command's entry
/// is stored first, at the next place. Unless the event stops, the node leads on, and its log has
/// the entry there: what the event removes is at most the log's front below it.
pub fn leaders_take_what_is_proposed()
    ensures take { LeadersTakeCommands }
    ensures taken { ProposalsAreTaken }
{}

/// A command is taken where it stands at what was the next place, and its node leads on under the
/// same vote.
pub fn commands_that_were_taken()
    ensures taken { TakenIn behind command }
    ensures another { TakenIn behind (7 ∷ []) → ⊥ }
    ensures nothing { TakenIn (leader 1) command → ⊥ }
    ensures at_the_last_place { HasTaken behind behind command → ⊥ }
    ensures follows { TakenIn (with_role Follower behind) command → ⊥ }
    ensures other_vote { TakenIn (under_vote (vote_of 3 2 true) behind) command → ⊥ }
{}

/// A leader takes a command as long as the moment has room; a node that follows takes none.
pub fn nodes_that_take_commands()
    ensures leader { Takes 2 (leader 1) command 7 0 }
    ensures moment { Takes 2 (leader 1) command 7 (2 ^ 62) → ⊥ }
    ensures follower { Takes 2 (with_role Follower (leader 1)) command 7 0 → ⊥ }
{}
