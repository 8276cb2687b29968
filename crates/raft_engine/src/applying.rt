//! Which places the state machine gets: a law, as the contract of a function without a body.
ghost use Rattle.raft_engine.specs.Applying.{MovesBringEachPlace};

/// What the queue moves the state machine by brings each place once, in its order: from what was
/// applied as the event began up to what is applied as it ends (own).
pub fn each_place_is_applied_once()
    ensures { MovesBringEachPlace }
{}
