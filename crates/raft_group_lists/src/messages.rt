//! What a message accepts: a law, the contract of a function without a body.
ghost use Rattle.raft_group_lists.specs.Facts.{MessagesAccept};

/// A reply accepts, under its vote alone, all up to one log id: with success its last one, with a part that log id. Every other
/// message accepts nothing.
pub fn messages_accept_under_one_vote()
    ensures { MessagesAccept }
{}
