//! Whether the numbers of an event are low enough.
ghost use Rattle.std.specs.Prelude.{◌≡◌};
ghost use Rattle.raft_group_step.specs.Refusal.{are_in_range, numbers_of_entries, numbers_of_id, numbers_of_request, numbers_of_result};
ghost use Rattle.raft_conditions.specs.ByFacts.{is_low_id};
ghost use Rattle.raft_messages.specs.Messages.{outcome_of, request_id_of};

use raft_messages::{GroupEntry, ReplyResult, RequestId, is_low};
use raft_state::LogId;

// Whether the term and the place of a log id are below the limit.
pub(crate) fn is_low_id(id: LogId<u64>) -> bool
    ensures { result ≡ is_low_id id }
{
    is_low(id.leader_id.term) && is_low(id.index)
}

// The same where there may be no log id.
pub(crate) fn is_low_id_or_none(id: Option<LogId<u64>>) -> bool
    ensures { result ≡ are_in_range (numbers_of_id id) }
{
    match id {
        None => true,
        Some(id) => is_low_id(id),
    }
}

// Whether the number of a request is below the limit, if it has one.
pub(crate) fn is_low_request(id: &RequestId) -> bool
    ensures { result ≡ are_in_range (numbers_of_request (request_id_of id.now)) }
{
    match id {
        RequestId::HeartBeat => true,
        RequestId::Numbered { id } => is_low(*id),
    }
}

// Whether the terms and places of a log id and of a vote that an answer tells are below the limit.
pub(crate) fn is_low_outcome(outcome: &ReplyResult) -> bool
    ensures { result ≡ are_in_range (numbers_of_result (outcome_of outcome.now)) }
{
    match outcome {
        ReplyResult::HigherVote(vote) => is_low(vote.leader_id.term),
        ReplyResult::PartialSuccess(last) => is_low_id_or_none(*last),
        ReplyResult::Success | ReplyResult::Conflict => true,
    }
}

// Whether the terms and places of the entries are below the limit.
pub(crate) fn are_low_entries(entries: &[GroupEntry]) -> bool
    ensures { result ≡ are_in_range (numbers_of_entries entries.now) }
{
    for entry in entries {
        if !is_low_id(entry.log_id) {
            return false;
        }
    }
    true
}
