//! Who has accepted an entry of a leader, or a later one of it.
ghost use Rattle.std.specs.Prelude.{◌≡◌, ◌==◌, ◌&&◌, None, map};
ghost use Rattle.std.specs.List.{list_any};
ghost use Rattle.raft_group_step.specs.Values.{vote_eq};
ghost use Rattle.raft_messages.specs.Messages.{body_of, message_of, outcome_of, reply_fields_of};
ghost use Rattle.raft_laws.specs.Settled.{accepted_last, accepts, body_accepts, has_accepted_some, is_at_or_after, is_last};
ghost use Rattle.raft_world.specs.Settled.{has_later, is_led_with, is_reply, led_of, world_of};

use crate::settled::led_note::LedNote;
use raft_executor::{GroupBody, GroupMessage};
use raft_messages::{MessageBody, ReplyFields, ReplyResult};
use raft_state::{HasId, LeaderId, LogId, Vote};

// Whether the log id is of the leader, at or after the place.
fn is_at_or_after(leader: &LeaderId<u64>, place: u64, id: &LogId<u64>) -> bool
    ensures { result ≡ is_at_or_after leader.now place id.now }
{
    id.leader_id == *leader && place <= id.index
}

// Whether there is a log id, and it is of the leader, at or after the place.
fn is_last(leader: &LeaderId<u64>, place: u64, last: &Option<LogId<u64>>) -> bool
    ensures { result ≡ is_last (is_at_or_after leader.now place) last.now }
{
    match last {
        None => false,
        Some(id) => is_at_or_after(leader, place, id),
    }
}

// The log id up to which the answer accepts the request, if it accepts any.
fn accepted_last(reply: &ReplyFields) -> Option<LogId<u64>>
    ensures { result ≡ accepted_last (outcome_of reply.now.outcome) reply.now.last }
{
    match reply.outcome {
        ReplyResult::Success => reply.last,
        ReplyResult::PartialSuccess(upto) => upto,
        ReplyResult::Conflict | ReplyResult::HigherVote(_) => None,
    }
}

// Whether the two votes are equal.
fn is_same_vote(vote: &Vote<u64>, other: &Vote<u64>) -> bool
    ensures { result ≡ vote_eq vote.now other.now }
{
    *vote == *other
}

// Whether the answer accepts, under the vote, all up to the place or one after it.
fn accepts(vote: &Vote<u64>, place: u64, reply: &ReplyFields) -> bool
    ensures { result ≡ accepts vote.now (is_at_or_after vote.now.leader_id place) (reply_fields_of reply.now) }
{
    is_same_vote(&reply.vote, vote) && is_last(&vote.leader_id, place, &accepted_last(reply))
}

// Whether it is an answer that accepts.
fn body_accepts(vote: &Vote<u64>, place: u64, body: &GroupBody) -> bool
    ensures { result ≡ body_accepts vote.now (is_at_or_after vote.now.leader_id place) (body_of body.now) }
{
    match body {
        MessageBody::AppendReply(reply) | MessageBody::SnapshotReply(reply) => {
            accepts(vote, place, reply)
        }
        _ => false,
    }
}

// Whether the node sent an answer that accepts.
fn has_replied(messages: &[GroupMessage], vote: &Vote<u64>, place: u64, node: u64) -> bool
    ensures { result ≡ list_any (λ m. is_reply vote.now place node (message_of m)) messages.now }
{
    messages.iter().any(|message| message.sender == node
        && body_accepts(vote, place, &message.body))
}

// Whether the note has an entry of the vote's leader, at or after the place.
fn has_later(note: &LedNote, vote: &Vote<u64>, place: u64) -> bool
    ensures { result ≡ has_later vote.now place note.now.list.items }
{
    note.list.iter().any(|entry| is_at_or_after(&vote.leader_id, place, &entry.log_id))
}

// Whether the node led under the vote with such an entry.
fn has_led_with(led: &[LedNote], vote: &Vote<u64>, place: u64, node: u64) -> bool
    ensures { result ≡ list_any (λ l. is_led_with vote.now place node (led_of l)) led.now }
{
    led.iter().any(|note| {
        note.node == node && is_same_vote(&note.vote, vote) && has_later(note, vote, place)
    })
}

// The nodes that have accepted, under the vote, an entry of its leader at or after the place.
#[derive(Drop)]
pub(super) struct Acceptors<'a> {
    pub(super) messages: &'a [GroupMessage],
    pub(super) led: &'a [LedNote],
    pub(super) vote: Vote<u64>,
    pub(super) place: u64,
}

impl<'a> HasId<u64> for Acceptors<'a> {
    ghost has = { λ a. has_accepted_some (world_of a.messages.now None a.led.now) a.vote (is_at_or_after a.vote.leader_id a.place) };

    fn has_id(&self, id: &u64) -> bool {
        has_replied(self.messages, &self.vote, self.place, *id)
            || has_led_with(self.led, &self.vote, self.place, *id)
    }
}
