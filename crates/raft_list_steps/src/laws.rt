//! What a report can say of messages: a law, the contract of a function without a body.
ghost use Rattle.raft_list_steps.specs.Reports.{EventsAcceptOnce, OpeningsAcceptNothing};

/// What an event sends in a group accepts once at most, so a report has room for it. What a node sends that is opened accepts
/// nothing.
pub fn events_accept_once()
    ensures events { EventsAcceptOnce }
    ensures openings { OpeningsAcceptNothing }
{}
