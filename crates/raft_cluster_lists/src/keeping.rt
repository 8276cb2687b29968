//! How what is kept of each group goes on from event to event, and what it gives: laws, each the contract of a function without
//! a body.
ghost use Rattle.raft_cluster_lists.specs.GoingOn.{AwayGoesOn, EventsGoOn};
ghost use Rattle.raft_cluster_lists.specs.Keeping.{EventsKeepLists, KeptListsAreTheGroups, ListsBegin, ListsGrow, NewListsAreKept};

/// A new cluster keeps nothing. Once a group is kept, nothing is noted of it yet. An event that comes to one node keeps what was
/// kept of a group, where it goes on wherever the event leads; the list before it is a front of the one behind it. Whichever of its
/// candidates the nodes are in, the history keeps the headline there, and the list that is noted is the group's.
pub fn lists_are_kept()
    ensures new { NewListsAreKept }
    ensures begin { ListsBegin }
    ensures events { EventsKeepLists }
    ensures grow { ListsGrow }
    ensures lists { KeptListsAreTheGroups }
{}

/// What is kept of a group goes on by what is known of an event: with each call or message of it, whether it was done, refused, or
/// stopped, with each opening of a node, and with the events of others.
pub fn events_go_on()
    ensures events { EventsGoOn }
    ensures away { AwayGoesOn }
{}
