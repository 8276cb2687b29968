//! The headline over histories of a cluster, as a contract of a function without a body.
ghost use Rattle.raft_headline.specs.Headline.{HeadlineOfHistories};

/// A history that replays for a group keeps the headline there. The group has one list, with one
/// entry a place, that only grows. Each node that is up has applied a front of it, its machine's
/// state is the fold up to there, and so is what each stored snapshot's bytes restore. A told token
/// stands at its place, given by the event that asked for the entry there, and the told bytes are
/// the fold's answer. Each token that was taken is told once, or unknown once, or lost once in a
/// crash, or waits while its node leads on. Each entry that isn't blank was asked for by an event
/// that wasn't refused, and no two by one. For a command or a change this event is the last that
/// noted the entry's log id. Who leads under a vote that isn't below the one under which an entry
/// was settled, or an answer told, holds the list up to it. Unless an event stops, a leader takes
/// each command within the limits at its next place, each peer that lacks entries has a request
/// outstanding or is sent one, each request that isn't refused is replied to, and a candidate that
/// a quorum granted leads. No token waits where the leader and those that answered it with success
/// in this lead are a quorum: who leads on tells each token in the event that completes its quorum,
/// or it waits on. Once an event stopped a node, nothing comes of the group's events there until it
/// is opened.
pub fn histories_keep_the_headline()
    ensures { HeadlineOfHistories }
{}
