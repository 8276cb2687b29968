//! What nodes have stored and what was sent is within the limits: laws of every history that
//! replays, each a contract of a function without a body, with worked rows of their words.

ghost use Rattle.std.specs.Prelude.{◌≡◌, [], ◌∷◌};
ghost use Rattle.raft_laws.specs.Example.{run_of, three, to_their_end};
ghost use Rattle.raft_laws.specs.SnapshotRun.{until_installed};
ghost use Rattle.raft_laws.specs.ThreeNodes.{until_proposed, until_told};
ghost use Rattle.raft_history_laws.specs.Limits.{CommandsFit, CommittedIsWithin, MessagesFit, OpeningsFit, StoredPartsFit};
ghost use Rattle.raft_history_laws.specs.LimitsRun.{bounds_after, sizes_in};

/// Whatever happens, what each node has stored is within the limits, whether it is up or down:
/// commands of at most 65,536 bytes, memberships within theirs, and log entries at their places.
/// What is committed reaches the log's front, and not past its end. Each message that was sent has
/// at most 64 entries, which fit and follow the previous one.
pub fn histories_fit()
    ensures stored { StoredPartsFit }
    ensures committed { CommittedIsWithin }
    ensures sent { MessagesFit }
{}

/// Whatever comes to a node, or opens it, what it stores fits what it has stored: entries are put right behind the log, at their
/// places and at most 64 at a time, so no put shortens a log; a cut begins inside the log, and its front never comes back. An
/// opening drops a log only where that lacks the last entry of the snapshot, and what the node goes on with is within the limits.
pub fn stored_commands_fit()
    ensures commands { CommandsFit }
    ensures openings { OpeningsFit }
{}

/// What is committed lies within the log: below its end while a command waits, at its end once that
/// is told, and at its front where all of it was purged or a snapshot was installed.
pub fn logs_of_runs()
    ensures waits { bounds_after (to_their_end until_proposed) 1 ≡ (0, 2, 3) }
    ensures told { bounds_after (to_their_end until_told) 1 ≡ (0, 3, 3) }
    ensures empty { bounds_after (to_their_end until_told) 3 ≡ (0, 0, 0) }
    ensures purged { bounds_after (to_their_end until_installed) 2 ≡ (3, 3, 4) }
    ensures installed { bounds_after (to_their_end until_installed) 3 ≡ (3, 3, 3) }
{}

/// Requests have entries, and a snapshot all of its list; votes, replies and notices have none.
pub fn sizes_of_messages()
    ensures sizes { sizes_in (run_of three until_told)
        ≡ 0 ∷ 0 ∷ 0 ∷ 2 ∷ 2 ∷ 0 ∷ 0 ∷ 0 ∷ 1 ∷ 0 ∷ 0 ∷ 0 ∷ [] }
{}
