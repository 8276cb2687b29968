//! Where entries come from: laws of every history that replays, each a contract of a function without a body.

ghost use Rattle.std.specs.Prelude.{◌≡◌, ℕ, [], ◌∷◌, Some};
ghost use Rattle.raft_values.specs.declared.log_id.LogId.{LogId};
ghost use Rattle.raft_values.specs.LogId.{log_id_of};
ghost use Rattle.raft_laws.specs.Example.{add, ids_of_log, run_of, three};
ghost use Rattle.raft_laws.specs.ConflictRun.{until_overwritten};
ghost use Rattle.raft_laws.specs.LawRuns.{first_three};
ghost use Rattle.raft_laws.specs.OriginRun.{command_at};
ghost use Rattle.raft_laws.specs.SnapshotRun.{until_installed};
ghost use Rattle.raft_laws.specs.ThreeNodes.{until_committed, until_proposed};
ghost use Rattle.raft_history_laws.specs.NotedIds.{IsSomewhere, NotedIsAbove, NotedIsNew, OriginIsLast, ToldHaveOrigins};
ghost use Rattle.raft_history_laws.specs.NotedIdsRun.{NotedByChange, NotedByFollower, NotedInRun, OriginInRun, ids_in_message};

/// A node that takes a command or a change of the membership has all that was ever written under its vote's leader: each such
/// entry, held by any node, in any message or with any leader so far, stands below the node's next place. So no entry of the
/// log id that the node notes was anywhere.
pub fn noted_log_ids_are_new()
    ensures above { NotedIsAbove }
    ensures new { NotedIsNew }
{}

/// The event that wrote the entry of a command or a change, and stored it, is the last one that noted its log id. Earlier ones
/// may have noted it, and stopped before they stored anything. So a told token's event is the origin of the log id of its entry.
pub fn origin_is_last()
    ensures origin { OriginIsLast }
    ensures told { ToldHaveOrigins }
{}

/// A proposal that stops before it has stored anything notes its log id all the same, and the next one notes it again: that one
/// is its origin. A proposal that stops behind its entry is the entry's origin. A change of the membership notes its log id too.
/// A set-up notes nothing, nor what is asked of a
/// node that is down, nor what is refused.
pub fn noted_log_ids_of_runs()
    ensures stopped { NotedInRun 0 2 (log_id_of 1 1 2) }
    ensures again { NotedInRun 0 5 (log_id_of 1 1 2) }
    ensures origin { OriginInRun 0 5 (log_id_of 1 1 2) }
    ensures no_origin { OriginInRun 0 2 (log_id_of 1 1 2) → ⊥ }
    ensures stored { OriginInRun 1 2 (log_id_of 1 1 2) }
    ensures behind { NotedInRun 1 5 (log_id_of 1 1 2) → ⊥ }
    ensures set_up { (id : LogId ℕ) → NotedInRun 0 1 id → ⊥ }
    ensures down { (id : LogId ℕ) → NotedInRun 0 3 id → ⊥ }
    ensures refused { (id : LogId ℕ) → NotedByFollower id → ⊥ }
    ensures change { NotedByChange (log_id_of 1 1 2) }
{}

/// An entry is somewhere from its event on, also where each node that held it has another at its place since. Requests for
/// votes have no entries, snapshots have all of theirs.
pub fn entries_of_worlds()
    ensures before { IsSomewhere (run_of three until_committed) (command_at 2 (add 5)) → ⊥ }
    ensures held { IsSomewhere (run_of three until_proposed) (command_at 2 (add 5)) }
    ensures overwritten { IsSomewhere (run_of three until_overwritten) (command_at 2 (add 5)) }
    ensures vote_request { ids_in_message (run_of three until_proposed) 0 ≡ Some [] }
    ensures request { ids_in_message (run_of three until_proposed) 8 ≡ Some (log_id_of 1 1 2 ∷ []) }
    ensures snapshot { ids_in_message (run_of three until_installed) 19 ≡ Some first_three }
{}
