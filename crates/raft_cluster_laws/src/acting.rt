//! What a node does with an event is what the cluster's type asks, as a contract of a function
//! without a body.
ghost use Rattle.raft_cluster_laws.specs.Acting.{NodesActAsAsked, OthersActAsAsked, StopsNameWhoWaits};

/// Whatever a node does with an event that comes to it, as the group's step does it, is what is
/// asked of it: it runs the event to its end, refuses it, stops inside it, passes it over, is
/// opened, or stops as it is opened. So are a halt by another group's event, and a crash. A node
/// that was in one state is then in one, or in one of two. An event that stops leaves the tokens
/// unknown that wait, with its own.
pub fn nodes_act()
    ensures own { NodesActAsAsked }
    ensures others { OthersActAsAsked }
    ensures names { StopsNameWhoWaits }
{}
