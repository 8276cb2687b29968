//! How a cluster's type is kept from event to event, and what it gives, as contracts of functions
//! without a body.
ghost use Rattle.raft_cluster_laws.specs.Keeping.{CandidatesHaveApplied, CandidatesStand};
ghost use Rattle.raft_cluster_laws.specs.Keeping.{EventsAreKept, EventsAreKeptByAll, FewerAreKept};
ghost use Rattle.raft_cluster_laws.specs.Keeping.{KeptIsHeadline, NewIsKept};

/// A new cluster's nodes know of no group, and its history is empty: that is kept. An event that
/// comes to one node keeps it, where each state that the node may be in behind it came of one that
/// it may have been in before. What a storage may show may become less.
pub fn events_are_kept()
    ensures new { NewIsKept }
    ensures events { EventsAreKept }
    ensures all { EventsAreKeptByAll }
    ensures fewer { FewerAreKept }
{}

/// Whichever of their candidates the nodes are in, the history keeps the headline of each group. A
/// machine that is the fold of what its node applied is that of the group's list up to there. And
/// each candidate of a node stands in a world of the group, whose messages, set-up and scenes
/// are those that the history says.
pub fn kept_histories_keep_the_headline()
    ensures headline { KeptIsHeadline }
    ensures applied { CandidatesHaveApplied }
    ensures stand { CandidatesStand }
{}
