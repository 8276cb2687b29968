//! Answers of peers, as the engine takes them.
ghost use Rattle.std.specs.Prelude.{◌≡◌};
ghost use Rattle.raft_engine.specs.Commands.{number_of};
ghost use Rattle.raft_engine.specs.Sending.{reply_of};
ghost use Rattle.raft_messages.specs.Messages.{reply_fields_of, request_id_of};

use raft_engine::{AppendEntriesResponse, Caller, RequestId as CallerId};
use raft_messages::{ReplyFields, RequestId};

/// Which request of the caller it is (own). The engine reads the number alone.
pub fn caller_id(id: &RequestId) -> CallerId
    ensures { number_of result ≡ request_id_of id.now }
{
    match id {
        RequestId::HeartBeat => CallerId::HeartBeat,
        RequestId::Numbered { id } => CallerId::AppendEntries { id: *id },
    }
}

/// What the peer's answer repeats of the request, and what came of it (own).
pub fn caller_and_answer(
    peer: u64,
    reply: &ReplyFields,
) -> (Caller<u64>, AppendEntriesResponse<u64>)
    ensures { reply_of result.0 result.1 ≡ reply_fields_of reply.now }
{
    let caller = Caller {
        peer,
        vote: reply.vote,
        id: caller_id(&reply.id),
        previous: reply.previous,
        last: reply.last,
    };
    (caller, reply.outcome)
}
