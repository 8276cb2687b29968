//! The one list of a group: laws of every history that replays, each a contract of a function without a body.
//!
//! A history begins with nodes that know of no group. It has any number of events in any order, messages that come
//! late, again or never, crashes, restarts, and stops inside events after any number of storing commands.

ghost use Rattle.raft_laws.specs.OneList.{SettledOnOneList, ListOnlyGrows, LeadersHoldTheList, OneEntryForALogId};
ghost use Rattle.raft_laws.specs.OneList.{CommittedIsOnTheList, AppliedIsOnTheList, SnapshotsAreFronts, EqualPlacesEqualLists};

/// The settled entries stand on one list, one at each place from 0 on and without a gap, and however a history goes on,
/// the list stays the front of the later one.
pub fn settled_entries_stand_on_one_list()
    ensures list { SettledOnOneList }
    ensures grows { ListOnlyGrows }
{}

/// A node that leads under a vote that isn't below the one under which an entry was settled holds the list up to it.
pub fn leaders_hold_the_list()
    ensures { LeadersHoldTheList }
{}

/// A log id stands for one entry over all nodes, up or down: where two nodes both hold it, it is the same entry at the
/// same place, and what they hold before it is the same.
pub fn log_id_stands_for_one_entry()
    ensures { OneEntryForALogId }
{}

/// What a node knows to be committed, and what it has applied, is on the list, and the node holds the list up to there,
/// also when it was reopened. Each stored snapshot is a front of the list, of a node that is up or down.
pub fn committed_places_are_on_the_list()
    ensures committed { CommittedIsOnTheList }
    ensures applied { AppliedIsOnTheList }
    ensures snapshots { SnapshotsAreFronts }
{}

/// Two nodes that have applied up to the same place have applied the same list, also where one did so earlier.
pub fn equal_places_mean_equal_lists()
    ensures { EqualPlacesEqualLists }
{}
