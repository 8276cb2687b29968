//! What an engine asks of the states that it stands for: laws of every history that replays, each a contract of a function
//! without a body.

ghost use Rattle.std.specs.Prelude.{◌≡◌, [], ◌∷◌, Some};
ghost use Rattle.raft_values.specs.LogId.{log_id_of};
ghost use Rattle.raft_group_step.specs.StoredGroup.{RemoveUpTo};
ghost use Rattle.raft_laws.specs.Example.{Halted, held_ids_at, log_ids_at, outcomes_after, three};
ghost use Rattle.raft_laws.specs.LawRuns.{after, first_three, first_two};
ghost use Rattle.raft_laws.specs.DroppedLogRun.{membership_id_at, opened_again, stops_before_its_purge};
ghost use Rattle.raft_laws.specs.Ready.{WishesAreCovered, SnapshotsHaveTheMembership};
ghost use Rattle.raft_laws.specs.Ready.{PurgesOfUpNodesKeepTheMembership, PurgesOfKeptLogsKeepTheMembership};

/// What a node is still to purge, its snapshot has. A log without what the snapshot has keeps the membership in force, at
/// each node that is up, and at one that is down where an opening keeps its log. A snapshot of what is applied has the
/// membership in force up to there.
pub fn states_of_runs_are_ready()
    ensures wishes { WishesAreCovered }
    ensures purges { PurgesOfUpNodesKeepTheMembership }
    ensures purges_down { PurgesOfKeptLogsKeepTheMembership }
    ensures snapshots { SnapshotsHaveTheMembership }
{}

/// A log that an opening drops doesn't keep the membership in force as it is purged: without its first entry, which the
/// snapshot has, the snapshot's later membership is in force, as it is from the opening on.
pub fn purge_of_a_dropped_log()
    ensures stops { outcomes_after 15 three stops_before_its_purge ≡ Halted [] ∷ [] }
    ensures snapshot { held_ids_at (after stops_before_its_purge) 3 ≡ Some first_three }
    ensures log { log_ids_at (after stops_before_its_purge) 3 ≡ Some first_two }
    ensures in_force { membership_id_at (after stops_before_its_purge) 3 [] ≡ Some (log_id_of 0 0 0) }
    ensures purged { membership_id_at (after stops_before_its_purge) 3 (RemoveUpTo (log_id_of 0 0 0) ∷ []) ≡ Some (log_id_of 1 1 2) }
    ensures opened { membership_id_at (after opened_again) 3 [] ≡ Some (log_id_of 1 1 2) }
{}
