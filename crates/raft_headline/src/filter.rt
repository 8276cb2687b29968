//! The filter to a group, as contracts of functions without a body.
ghost use Rattle.raft_headline.specs.Replaying.{FilteredHistoriesReplay};

/// A cluster's history replays for a group just if its filtered one does, with the same numbers of stops: events of other
/// groups, and what they say, show only where they stopped a node.
pub fn filtered_histories_replay()
    ensures { FilteredHistoriesReplay }
{}
