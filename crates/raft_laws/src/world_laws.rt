//! Laws of runs and histories, each a contract of a function without a body.
ghost use Rattle.raft_laws.specs.GroupRun.{RunsReplay, ReplaysRun};
ghost use Rattle.raft_laws.specs.Moves.{NumberMovesOneNode};
ghost use Rattle.raft_laws.specs.Histories.{HistoriesJoin, HistoriesSplit, EventsLeadToNodes};
ghost use Rattle.raft_laws.specs.OneVoter.{one};

/// A history that replays is what a run gives, for some number for each event that stopped.
pub fn histories_that_replay_are_runs()
    ensures replays { RunsReplay }
    ensures is_run { ReplaysRun }
{}

/// A history that goes on where another ends replays with it, and each history can be cut in two.
pub fn histories_join_and_split()
    ensures join { HistoriesJoin }
    ensures split { HistoriesSplit }
{}

/// A world's nodes after an event are those at which the acting node is as the event leaves it.
pub fn events_lead_to_nodes()
    ensures { EventsLeadToNodes }
{}

/// The number of storing commands after which an event stopped moves one node, and nothing else.
pub fn number_of_a_stop_moves_one_node()
    ensures { NumberMovesOneNode }
{}
