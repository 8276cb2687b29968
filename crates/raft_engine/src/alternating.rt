//! How the runtime is told of leads: a law, as the contract of a function without a body.
ghost use Rattle.raft_engine.specs.Alternating.{LeadsAlternate};

/// Over a start and the events behind it `BecomeLeader` and `QuitLeader` come in turn, from whether
/// the node led before them to whether it leads after them (own).
pub fn leads_alternate()
    ensures { LeadsAlternate }
{}
