//! The rewrite queue written anew: laws.

ghost use Rattle.std.specs.Prelude.{ℕ, List};
ghost use Rattle.raft_log_purge.specs.AnewLaws.{StoredGroupsAreAnew, GoneGroupsAreAnew};
ghost use Rattle.raft_log_purge.specs.AnewLaws.{BegunGroupsAreAnew, EntriesStandBelow};
ghost use Rattle.raft_log_purge.specs.AnewLaws.{GroupsAnewLeaveCleanable, AllAnewLeaveCleanable};
ghost use Rattle.raft_log_purge.specs.AnewLaws.{OldRewritesLeaveCleanable, NewRewritesAreCleanable};
ghost use Rattle.raft_log_purge.specs.AnewLaws.{QueuesReadAnew, TogetherStays, WrittenGroupsAreNamed};

/// A `Clean` and all that a group has in the rewrite queue, its entries in chunks and its keys, are
/// the group written anew; of an atomic group without its end nothing counts yet. Those entries are
/// the ones before the first that stands in an append file. Groups that were written stay so.
pub fn stored_groups_are_anew()
    ensures stored { StoredGroupsAreAnew (List ℕ) }
    ensures gone { GoneGroupsAreAnew (List ℕ) }
    ensures begun { BegunGroupsAreAnew (List ℕ) }
    ensures below { EntriesStandBelow (List ℕ) }
    ensures named { WrittenGroupsAreNamed (List ℕ) }
{}

/// While groups are written anew behind the old records of the rewrite queue, one or several in a
/// record or in an atomic group of records, both queues may be cleaned as before, whichever of the
/// new records a crash leaves, from the first one on.
pub fn groups_anew_leave_queues()
    ensures fronts { GroupsAnewLeaveCleanable (List ℕ) }
    ensures all { AllAnewLeaveCleanable (List ℕ) }
{}

/// Once each group that is there was written anew, the old records may go, however many of them have
/// gone, from the first one on, and whether or not whole atomic groups have.
pub fn old_rewrites_leave_queues()
    ensures gone { OldRewritesLeaveCleanable (List ℕ) }
    ensures new { NewRewritesAreCleanable (List ℕ) }
    ensures read { QueuesReadAnew (List ℕ) }
    ensures together { TogetherStays (List ℕ) }
{}
