//! Frames, read from left to right.
ghost use Rattle.std.specs.Prelude.{None};
ghost use Rattle.raft_wire.specs.Reader.{Gives, many_at, all_of};
ghost use Rattle.raft_wire.specs.Entries.{entry_behind, that_place};
ghost use Rattle.raft_wire.specs.Bodies.{vote_request_at, vote_reply_at, id_at, number_of_request_at};
ghost use Rattle.raft_wire.specs.Bodies.{entries_at, append_at, result_at, reply_at, logged_at, snapshot_at, sent, sent_at};
ghost use Rattle.raft_wire.specs.Bodies.{none_at, numbered_at, snapshot_result_at, snapshot_reply_at};
ghost use Rattle.raft_wire.specs.Fields.{option_at};
ghost use Rattle.raft_wire.specs.Frames.{kind_at, body_at, rest_at};

use crate::entries::entry_of;
use crate::error::{FrameError, FrameFault};
use crate::fields::{count_of, flag_of, last_of, log_id_of, text_of, u64_at, vote_of};
use crate::frame::{Frame, FrameKind, has_number, is_conflict};
use crate::memberships::membership_of;
use raft_group_step::{Entries, LoggedMembership, SnapshotMeta, VoteRequest, VoteResponse};
use raft_messages::{
    AppendFields, MAX_ENTRIES, MAX_SNAPSHOT_BYTES, Message, MessageBody, ReplyFields, ReplyResult,
    RequestId, SnapshotBytes,
};
use raft_state::{BasicNode, Bytes, LogId, Vote};
use std::alloc::Global;

/// Entries as requests have them.
type GroupEntries = Entries<u64, BasicNode, Bytes>;

#[tactic(auto, unfolding(crate::specs::Bodies::vote_request_at))]
fn vote_request_of(bytes: &[u8]) -> Result<(VoteRequest<u64>, &[u8]), FrameError>
    ensures { Gives (λ x. (x.0, x.1.now)) result (vote_request_at bytes.now) }
{
    let (vote, rest) = vote_of(bytes)?;
    let (last_log_id, rest) = last_of(rest)?;
    Ok((VoteRequest { vote, last_log_id }, rest))
}

#[tactic(auto, unfolding(crate::specs::Bodies::vote_reply_at))]
fn vote_reply_of(bytes: &[u8]) -> Result<(VoteResponse<u64>, &[u8]), FrameError>
    ensures { Gives (λ x. (x.0, x.1.now)) result (vote_reply_at bytes.now) }
{
    let (vote, rest) = vote_of(bytes)?;
    let (vote_granted, rest) = flag_of(rest)?;
    let (last_log_id, rest) = last_of(rest)?;
    let reply = VoteResponse {
        vote,
        vote_granted,
        last_log_id,
    };
    Ok((reply, rest))
}

// ---- append requests and their replies

#[tactic(auto, unfolding(crate::specs::Bodies::id_at, crate::specs::Fields::option_at))]
fn id_of(bytes: &[u8]) -> Result<(RequestId, &[u8]), FrameError>
    ensures { Gives (λ x. (x.0, x.1.now)) result (id_at bytes.now) }
{
    match bytes {
        [] => Err(FrameError::Fault(FrameFault::CutShort)),
        [0, rest @ ..] => Ok((RequestId::HeartBeat, rest)),
        [1, rest @ ..] => {
            let (id, rest) = u64_at(rest)?;
            Ok((RequestId::Numbered { id }, rest))
        }
        [_, ..] => Err(FrameError::Fault(FrameFault::BadTag)),
    }
}

fn entries_behind(
    alloc: Global,
    count: u32,
    bytes: &[u8],
) -> Result<(GroupEntries, &[u8]), FrameError>
    ensures { Gives (λ x. (x.0, x.1.now)) result (many_at entry_behind that_place count None bytes.now) }
{
    let mut entries = Entries::new(alloc);
    let mut rest = bytes;
    let mut last = None;
    for _ in 0..count {
        let (entry, after) = entry_of(alloc, last, rest)?;
        last = Some(entry.log_id.index);
        entries.push(entry)?;
        rest = after;
    }
    Ok((entries, rest))
}

#[tactic(auto, unfolding(crate::specs::Reader::counted_at))]
fn entries_of(alloc: Global, bytes: &[u8]) -> Result<(GroupEntries, &[u8]), FrameError>
    ensures { Gives (λ x. (x.0, x.1.now)) result (entries_at bytes.now) }
{
    let (count, rest) = count_of(MAX_ENTRIES, bytes)?;
    entries_behind(alloc, count, rest)
}

#[tactic(auto, unfolding(crate::specs::Bodies::append_at))]
fn append_of(alloc: Global, bytes: &[u8]) -> Result<(AppendFields, &[u8]), FrameError>
    ensures { Gives (λ x. (x.0, x.1.now)) result (append_at bytes.now) }
{
    let (vote, rest) = vote_of(bytes)?;
    let (id, rest) = id_of(rest)?;
    let (previous, rest) = last_of(rest)?;
    let (committed, rest) = last_of(rest)?;
    let (entries, rest) = entries_of(alloc, rest)?;
    let request = AppendFields {
        vote,
        id,
        previous,
        committed,
        entries,
    };
    Ok((request, rest))
}

#[tactic(auto, unfolding(crate::specs::Bodies::result_at))]
fn result_of(bytes: &[u8]) -> Result<(ReplyResult, &[u8]), FrameError>
    ensures { Gives (λ x. (x.0, x.1.now)) result (result_at bytes.now) }
{
    match bytes {
        [] => Err(FrameError::Fault(FrameFault::CutShort)),
        [0, rest @ ..] => Ok((ReplyResult::Success, rest)),
        [1, rest @ ..] => Ok((ReplyResult::Conflict, rest)),
        [2, rest @ ..] => {
            let (vote, rest) = vote_of(rest)?;
            Ok((ReplyResult::HigherVote(vote), rest))
        }
        [_, ..] => Err(FrameError::Fault(FrameFault::BadTag)),
    }
}

#[tactic(auto, unfolding(crate::specs::Bodies::reply_at))]
fn reply_of(bytes: &[u8]) -> Result<(ReplyFields, &[u8]), FrameError>
    ensures { Gives (λ x. (x.0, x.1.now)) result (reply_at bytes.now) }
{
    let (vote, rest) = vote_of(bytes)?;
    let (id, rest) = id_of(rest)?;
    let (previous, rest) = last_of(rest)?;
    let (last, rest) = last_of(rest)?;
    let (outcome, rest) = result_of(rest)?;
    let reply = ReplyFields {
        vote,
        id,
        previous,
        last,
        outcome,
    };
    Ok((reply, rest))
}

// ---- replies to snapshots

// The id of a request that has a number.
#[tactic(auto, unfolding(crate::specs::Bodies::numbered_at))]
fn numbered_of(bytes: &[u8]) -> Result<(RequestId, &[u8]), FrameError>
    ensures { Gives (λ x. (x.0, x.1.now)) result (numbered_at bytes.now) }
{
    let (id, rest) = id_of(bytes)?;
    if !has_number(id) {
        return Err(FrameError::Fault(FrameFault::BadTag));
    }
    Ok((id, rest))
}

// No log id. Its tag is judged before anything behind it.
#[tactic(auto, unfolding(crate::specs::Bodies::none_at))]
fn none_of(bytes: &[u8]) -> Result<(Option<LogId<u64>>, &[u8]), FrameError>
    ensures { Gives (λ x. (x.0, x.1.now)) result (none_at bytes.now) }
{
    match bytes {
        [] => Err(FrameError::Fault(FrameFault::CutShort)),
        [0, rest @ ..] => Ok((None, rest)),
        [_, ..] => Err(FrameError::Fault(FrameFault::BadTag)),
    }
}

// What came of a snapshot: anything but a conflict.
#[tactic(auto, unfolding(crate::specs::Bodies::snapshot_result_at))]
fn snapshot_result_of(bytes: &[u8]) -> Result<(ReplyResult, &[u8]), FrameError>
    ensures { Gives (λ x. (x.0, x.1.now)) result (snapshot_result_at bytes.now) }
{
    let (outcome, rest) = result_of(bytes)?;
    if is_conflict(outcome) {
        return Err(FrameError::Fault(FrameFault::BadTag));
    }
    Ok((outcome, rest))
}

#[tactic(auto, unfolding(crate::specs::Bodies::snapshot_reply_at))]
fn snapshot_reply_of(bytes: &[u8]) -> Result<(ReplyFields, &[u8]), FrameError>
    ensures { Gives (λ x. (x.0, x.1.now)) result (snapshot_reply_at bytes.now) }
{
    let (vote, rest) = vote_of(bytes)?;
    let (id, rest) = numbered_of(rest)?;
    let (previous, rest) = none_of(rest)?;
    let (last, rest) = last_of(rest)?;
    let (outcome, rest) = snapshot_result_of(rest)?;
    let reply = ReplyFields {
        vote,
        id,
        previous,
        last,
        outcome,
    };
    Ok((reply, rest))
}

// ---- snapshots

// The number of a request that has one.
#[tactic(auto, unfolding(crate::specs::Bodies::number_of_request_at, crate::specs::Bodies::marked_at))]
fn number_of_request(bytes: &[u8]) -> Result<(u64, &[u8]), FrameError>
    ensures { Gives (λ x. (x.0, x.1.now)) result (number_of_request_at bytes.now) }
{
    match bytes {
        [] => Err(FrameError::Fault(FrameFault::CutShort)),
        [1, rest @ ..] => u64_at(rest),
        [_, ..] => Err(FrameError::Fault(FrameFault::BadTag)),
    }
}

#[tactic(auto, unfolding(crate::specs::Bodies::logged_at))]
fn logged_of(
    alloc: Global,
    bytes: &[u8],
) -> Result<(LoggedMembership<u64, BasicNode>, &[u8]), FrameError>
    ensures { Gives (λ x. (x.0, x.1.now)) result (logged_at bytes.now) }
{
    let (log_id, rest) = log_id_of(bytes)?;
    let (membership, rest) = membership_of(alloc, rest)?;
    Ok((LoggedMembership { log_id, membership }, rest))
}

#[tactic(auto, unfolding(crate::specs::Fields::option_at))]
fn last_membership_of(
    alloc: Global,
    bytes: &[u8],
) -> Result<(Option<LoggedMembership<u64, BasicNode>>, &[u8]), FrameError>
    ensures { Gives (λ x. (x.0, x.1.now)) result (option_at logged_at bytes.now) }
{
    match bytes {
        [] => Err(FrameError::Fault(FrameFault::CutShort)),
        [0, rest @ ..] => Ok((None, rest)),
        [1, rest @ ..] => {
            let (logged, rest) = logged_of(alloc, rest)?;
            Ok((Some(logged), rest))
        }
        [_, ..] => Err(FrameError::Fault(FrameFault::BadTag)),
    }
}

#[tactic(auto, unfolding(crate::specs::Bodies::snapshot_at))]
pub(crate) fn snapshot_of(alloc: Global, bytes: &[u8]) -> Result<(SnapshotBytes, &[u8]), FrameError>
    ensures { Gives (λ x. (x.0, x.1.now)) result (snapshot_at bytes.now) }
{
    let (last_log_id, rest) = log_id_of(bytes)?;
    let (last_membership, rest) = last_membership_of(alloc, rest)?;
    let (text, rest) = text_of(MAX_SNAPSHOT_BYTES, rest)?;
    let bytes = Bytes::from_slice(alloc, text)?;
    let meta = SnapshotMeta {
        last_log_id,
        last_membership,
    };
    Ok((SnapshotBytes { meta, bytes }, rest))
}

// The leader's vote, the number of the request and the snapshot.
#[tactic(auto, unfolding(crate::specs::Bodies::sent_at))]
fn sent_of(
    alloc: Global,
    bytes: &[u8],
) -> Result<(Vote<u64>, u64, SnapshotBytes, &[u8]), FrameError>
    ensures { Gives (λ x. (sent x.0 x.1 x.2, x.3.now)) result (sent_at bytes.now) }
{
    let (vote, rest) = vote_of(bytes)?;
    let (id, rest) = number_of_request(rest)?;
    let (snapshot, rest) = snapshot_of(alloc, rest)?;
    Ok((vote, id, snapshot, rest))
}

// ---- frames

#[tactic(auto, unfolding(crate::specs::Frames::kind_at))]
fn kind_of(bytes: &[u8]) -> Result<(FrameKind, &[u8]), FrameError>
    ensures { Gives (λ x. (x.0, x.1.now)) result (kind_at bytes.now) }
{
    match bytes {
        [] => Err(FrameError::Fault(FrameFault::CutShort)),
        [1, rest @ ..] => Ok((FrameKind::VoteRequest, rest)),
        [2, rest @ ..] => Ok((FrameKind::VoteReply, rest)),
        [3, rest @ ..] => Ok((FrameKind::Append, rest)),
        [4, rest @ ..] => Ok((FrameKind::AppendReply, rest)),
        [5, rest @ ..] => Ok((FrameKind::Snapshot, rest)),
        [6, rest @ ..] => Ok((FrameKind::SnapshotReply, rest)),
        [_, ..] => Err(FrameError::Fault(FrameFault::BadKind)),
    }
}

#[tactic(auto, unfolding(crate::specs::Frames::body_at))]
fn body_of(
    alloc: Global,
    kind: FrameKind,
    bytes: &[u8],
) -> Result<(MessageBody<SnapshotBytes>, &[u8]), FrameError>
    ensures { Gives (λ x. (x.0, x.1.now)) result (body_at kind bytes.now) }
{
    match kind {
        FrameKind::VoteRequest => {
            let (request, rest) = vote_request_of(bytes)?;
            Ok((MessageBody::VoteRequest(request), rest))
        }
        FrameKind::VoteReply => {
            let (reply, rest) = vote_reply_of(bytes)?;
            Ok((MessageBody::VoteReply(reply), rest))
        }
        FrameKind::Append => {
            let (request, rest) = append_of(alloc, bytes)?;
            Ok((MessageBody::AppendRequest(request), rest))
        }
        FrameKind::AppendReply => {
            let (reply, rest) = reply_of(bytes)?;
            Ok((MessageBody::AppendReply(reply), rest))
        }
        FrameKind::Snapshot => {
            let (vote, id, snapshot, rest) = sent_of(alloc, bytes)?;
            Ok((MessageBody::SnapshotRequest { vote, id, snapshot }, rest))
        }
        FrameKind::SnapshotReply => {
            let (reply, rest) = snapshot_reply_of(bytes)?;
            Ok((MessageBody::SnapshotReply(reply), rest))
        }
    }
}

#[tactic(auto, unfolding(crate::specs::Frames::rest_at))]
fn rest_of(alloc: Global, bytes: &[u8]) -> Result<(Frame, &[u8]), FrameError>
    ensures { Gives (λ x. (x.0, x.1.now)) result (rest_at bytes.now) }
{
    let (kind, rest) = kind_of(bytes)?;
    let (group, rest) = u64_at(rest)?;
    let (sender, rest) = u64_at(rest)?;
    let (addressee, rest) = u64_at(rest)?;
    let (body, rest) = body_of(alloc, kind, rest)?;
    let message = Message {
        sender,
        addressee,
        body,
    };
    Ok((Frame { group, message }, rest))
}

/// The frame that takes all of the bytes, which begin behind its length.
#[tactic(auto, unfolding(crate::specs::Reader::all_of))]
pub(crate) fn frame_of(alloc: Global, bytes: &[u8]) -> Result<Frame, FrameError>
    ensures { Gives (λ x. x) result (all_of rest_at bytes.now) }
{
    let (frame, rest) = rest_of(alloc, bytes)?;
    if !rest.is_empty() {
        return Err(FrameError::Fault(FrameFault::TrailingBytes));
    }
    Ok(frame)
}
