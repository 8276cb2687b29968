//! Snapshots of leaders: laws of single steps, each a contract of a function without a body, with
//! worked rows of their words.

ghost use Rattle.std.specs.Prelude.{◌≡◌, [], ◌∷◌, Some, None};
ghost use Rattle.raft_values.specs.LogId.{log_id_of};
ghost use Rattle.raft_snapshot_laws.specs.Snapshots.{IsOfApplied, LeadersBuildSnapshots, SentSnapshotsAreStored, StoredSnapshotsCome};
ghost use Rattle.raft_snapshot_laws.specs.SnapshotRows.{applied_to, built_by, installed_at, offers, snapshot_to, stored_after};

/// A step stores as a snapshot what a message brings, or what a call asks for: that of all that is
/// applied. A leader installs none: after an event that isn't refused, a node that leads on has the
/// snapshot that it had, or the one of all that it had applied. What is sent as a snapshot is the
/// one that is stored after the event.
pub fn leaders_build_their_snapshots()
    ensures come { StoredSnapshotsCome }
    ensures built { LeadersBuildSnapshots }
    ensures sent { SentSnapshotsAreStored }
{}

/// A leader that is asked for a snapshot stores that of what it has applied. One that comes under a
/// lower vote it doesn't store; under a greater vote it follows, and does.
pub fn snapshots_of_a_leader()
    ensures built { stored_after (applied_to (Some 3)) built_by ≡ Some (snapshot_to 3) }
    ensures none_applied { stored_after (applied_to None) built_by ≡ None }
    ensures lower_vote { stored_after (applied_to None) (offers 1) ≡ None }
    ensures greater_vote { stored_after (applied_to None) (offers 2) ≡ Some installed_at }
    ensures another_term { stored_after (applied_to None) (offers 3) ≡ Some installed_at }
{}

/// The snapshot of what is applied goes just so far, and has the entries up to there.
pub fn snapshots_of_what_is_applied()
    ensures applied { IsOfApplied (applied_to (Some 3)) (snapshot_to 3) }
    ensures earlier { IsOfApplied (applied_to (Some 3)) (snapshot_to 2) → ⊥ }
    ensures later { IsOfApplied (applied_to (Some 2)) (snapshot_to 3) → ⊥ }
    ensures none { IsOfApplied (applied_to None) (snapshot_to 3) → ⊥ }
    ensures another_list { IsOfApplied (applied_to (Some 3)) installed_at → ⊥ }
{}
