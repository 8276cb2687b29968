//! What a node is opened with, along every history that replays, as a contract of a function without a body.

ghost use Rattle.raft_laws.specs.Opened.{OpenedPlacesAreLow, OpenedPurgesKeepTheMembership, OpenedStatesAreInOrder};

/// What a node that was down is opened with is as an engine asks: its places are at most 2^62, and a log without what the
/// snapshot has keeps the membership in force. So it is where an opening drops the log too.
pub fn opened_states_are_ready()
    ensures places { OpenedPlacesAreLow }
    ensures purges { OpenedPurgesKeepTheMembership }
{}

/// What a node that was down is opened with is in order: each entry of its log has its place, what was purged is in the
/// snapshot, the log has the snapshot's last entry or is purged up to it, and the membership in force has at most 128 nodes.
pub fn opened_states_are_in_order()
    ensures { OpenedStatesAreInOrder }
{}
