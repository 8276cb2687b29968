//! A snapshot has the whole list up to its last entry: laws of every history that replays, each a contract of a function
//! without a body.

ghost use Rattle.std.specs.Prelude.{◌≡◌, [], ◌∷◌, Some, None};
ghost use Rattle.raft_values.specs.LogId.{log_id_of};
ghost use Rattle.raft_laws.specs.Example.{add, run_of, three};
ghost use Rattle.raft_laws.specs.LawRuns.{blank_at};
ghost use Rattle.raft_laws.specs.OriginRun.{command_at};
ghost use Rattle.raft_laws.specs.SnapshotRun.{until_installed};
ghost use Rattle.raft_history_laws.specs.WholeSnapshots.{IsWhole, SentSnapshotsAreWhole, SnapshotsAreWhole};
ghost use Rattle.raft_history_laws.specs.WholeSnapshotsRun.{first_entries, membership_id, set_up_entry, set_up_membership, snapshot_of, snapshot_with};

/// A snapshot lacks no entry of the list's front and has none behind its last log id, and its membership is the last one of
/// that front: each that a node has stored, whether it is up or down, and each that was sent.
pub fn snapshots_are_whole()
    ensures stored { SnapshotsAreWhole }
    ensures sent { SentSnapshotsAreWhole }
{}

/// A node that lags behind has the snapshot that another one built, with all that was applied there.
pub fn snapshots_of_runs()
    ensures built { snapshot_of (run_of three until_installed) 2 ≡ Some (snapshot_with (log_id_of 1 1 2) set_up_membership first_entries) }
    ensures installed { snapshot_of (run_of three until_installed) 3 ≡ Some (snapshot_with (log_id_of 1 1 2) set_up_membership first_entries) }
    ensures membership { membership_id (run_of three until_installed) 3 ≡ Some (log_id_of 0 0 0) }
    ensures none { snapshot_of (run_of three until_installed) 1 ≡ None }
{}

/// A snapshot isn't whole where an entry is missing at its end or in between, where another entry stands last, or where its
/// membership isn't the last one in its list.
pub fn whole_snapshots()
    ensures whole { IsWhole (snapshot_with (log_id_of 1 1 2) set_up_membership first_entries) }
    ensures short { IsWhole (snapshot_with (log_id_of 1 1 2) set_up_membership (set_up_entry ∷ blank_at 1 ∷ [])) → ⊥ }
    ensures long { IsWhole (snapshot_with (log_id_of 1 1 1) set_up_membership first_entries) → ⊥ }
    ensures gap { IsWhole (snapshot_with (log_id_of 1 1 2) set_up_membership (set_up_entry ∷ command_at 2 (add 5) ∷ command_at 2 (add 5) ∷ [])) → ⊥ }
    ensures another_last { IsWhole (snapshot_with (log_id_of 2 2 2) set_up_membership first_entries) → ⊥ }
    ensures no_membership { IsWhole (snapshot_with (log_id_of 1 1 2) None first_entries) → ⊥ }
{}
