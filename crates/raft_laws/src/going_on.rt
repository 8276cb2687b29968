//! The words at the end of an event, as a contract of a function without a body.

ghost use Rattle.raft_laws.specs.GoingOn.{OpeningsGoOn};

/// What the end of an opening stores, sends and tells depends on the state alone that it goes on from, and comes behind what
/// was stored, sent and told before.
pub fn openings_go_on()
    ensures { OpeningsGoOn }
{}
