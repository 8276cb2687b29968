//! What a message accepts.
ghost use Rattle.std.specs.Prelude.{◌≡◌};
ghost use Rattle.raft_laws.specs.Settled.{accepted_last};
ghost use Rattle.raft_messages.specs.Messages.{outcome_of};
ghost use Rattle.raft_list_facts.specs.Accepting.{accepted_by, accepted_with};

use raft_messages::{MessageBody, ReplyFields, ReplyResult};
use raft_state::{LogId, Vote};

/// What a message accepts (own): under a vote, all up to a log id.
#[derive(Clone, Copy, PartialEq, Eq)]
pub struct Acceptance {
    /// The vote.
    pub vote: Vote<u64>,
    /// The log id up to which.
    pub last: LogId<u64>,
}

// The log id up to which the reply accepts the request, if it accepts any of it.
fn accepted_last(reply: &ReplyFields) -> Option<LogId<u64>>
    ensures { result ≡ accepted_last (outcome_of reply.now.outcome) reply.now.last }
{
    match &reply.outcome {
        ReplyResult::Success => reply.last,
        ReplyResult::PartialSuccess(upto) => *upto,
        ReplyResult::Conflict | ReplyResult::HigherVote(_) => None,
    }
}

// What the reply accepts.
fn accepted_by_reply(reply: &ReplyFields) -> Option<Acceptance>
    ensures { result ≡ accepted_with reply.now.vote (accepted_last (outcome_of reply.now.outcome) reply.now.last) }
{
    let last = accepted_last(reply)?;
    Some(Acceptance {
        vote: reply.vote,
        last,
    })
}

/// What a message with this body accepts: a reply does so under its vote alone, with success up to its
/// last log id, with a part up to that one. Every other message accepts nothing.
pub fn accepted_in<S>(body: &MessageBody<S>) -> Option<Acceptance>
    ensures { result ≡ accepted_by body.now }
{
    match body {
        MessageBody::AppendReply(reply) | MessageBody::SnapshotReply(reply) => {
            accepted_by_reply(reply)
        }
        MessageBody::VoteRequest(_)
        | MessageBody::VoteReply(_)
        | MessageBody::AppendRequest(_)
        | MessageBody::SnapshotRequest { .. } => None,
    }
}
