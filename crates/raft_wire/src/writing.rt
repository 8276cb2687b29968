//! Frames, written field by field.
ghost use Rattle.std.specs.Prelude.{◌≡◌, ◌≤◌, ◌<◌, ◌-◌, ◌^◌, ◌++◌, true, None, All, drop, length, OnOk, IfOk, IfSome};
ghost use Rattle.std.specs.List.{flat_map, list_all};
ghost use Rattle.std.specs.Int.{w32, to_be_bytes};
ghost use Rattle.raft_group_step.specs.Values.{is_within_limits};
ghost use Rattle.raft_wire.specs.Memberships.{spelled_list};
ghost use Rattle.raft_wire.specs.Entries.{spelled_entry, FitsEntry};
ghost use Rattle.raft_group_step.specs.Refusal.{is_payload_short};
ghost use Rattle.raft_wire.specs.Writing.{Writes};
ghost use Rattle.raft_wire.specs.Bodies.{spelled_vote_request, spelled_vote_reply, spelled_id, spelled_number};
ghost use Rattle.raft_wire.specs.Bodies.{spelled_append, spelled_result, spelled_reply, spelled_logged};
ghost use Rattle.raft_wire.specs.Bodies.{snapshot_with, spelled_snapshot, sent, spelled_sent, is_of_snapshot, is_spelled};
ghost use Rattle.raft_wire.specs.Bodies.{FitsVoteRequest, FitsVoteReply, FitsId, FitsAppend, FitsResult, FitsReply};
ghost use Rattle.raft_wire.specs.Bodies.{FitsLogged, FitsSnapshot, FitsSent};
ghost use Rattle.raft_wire.specs.Fields.{spelled_option};
ghost use Rattle.raft_wire.specs.Frames.{byte_of_kind, spelled_parties, spelled_body, spelled_rest, spelled_frame};
ghost use Rattle.raft_wire.specs.Frames.{are_consecutive, are_entries_short, is_logged_short, is_snapshot_short};
ghost use Rattle.raft_wire.specs.Frames.{fault_of_entries, fault_of_reply, fault_of_snapshot, fault_of_snapshot_reply, fault_of_frame};
ghost use Rattle.raft_wire.specs.Frames.{FitsBody, FitsFrame};
ghost use Rattle.raft_wire.specs.Stream.{AreFoundAs};

use crate::entries::{follows, is_payload_short, put_entry};
use crate::error::{FrameError, FrameFault};
use crate::fields::{put_count, put_flag, put_last, put_log_id, put_text, put_u64, put_vote};
use crate::frame::{Frame, FrameKind, has_number, is_conflict};
use crate::memberships::put_membership;
use raft_group_step::{LoggedMembership, SnapshotMeta, VoteRequest, VoteResponse};
use raft_messages::{
    AppendFields, GroupEntry, MAX_ENTRIES, MAX_SNAPSHOT_BYTES, MessageBody, ReplyFields,
    ReplyResult, RequestId, SnapshotBytes, is_within_limits,
};
use raft_state::{BasicNode, Bytes, Vote};
use std::alloc::{AllocError, Global};

// Room for a request with an entry of a short command, so that its bytes don't move as they are
// written.
const FRAME_ROOM: usize = 192;

fn put_vote_request(out: &mut Vec<u8>, request: &VoteRequest<u64>) -> Result<(), AllocError>
    ensures items { OnOk result (out.new.items ≡ out.old.items ++ spelled_vote_request request.now) }
    ensures fits { OnOk result (FitsVoteRequest request.now) }
{
    put_vote(out, &request.vote)?;
    put_last(out, &request.last_log_id)
}

fn put_vote_reply(out: &mut Vec<u8>, reply: &VoteResponse<u64>) -> Result<(), AllocError>
    ensures items { OnOk result (out.new.items ≡ out.old.items ++ spelled_vote_reply reply.now) }
    ensures fits { OnOk result (FitsVoteReply reply.now) }
{
    put_vote(out, &reply.vote)?;
    put_flag(out, reply.vote_granted)?;
    put_last(out, &reply.last_log_id)
}

// ---- append requests and their replies

fn put_id(out: &mut Vec<u8>, id: RequestId) -> Result<(), AllocError>
    ensures items { OnOk result (out.new.items ≡ out.old.items ++ spelled_id id) }
    ensures fits { OnOk result (FitsId id) }
{
    match id {
        RequestId::HeartBeat => Ok(out.push(0)?),
        RequestId::Numbered { id } => {
            out.push(1)?;
            put_u64(out, id)
        }
    }
}

// The entries without their count.
fn put_all(out: &mut Vec<u8>, entries: &[GroupEntry]) -> Result<(), AllocError>
    requires { All (λ e. is_payload_short e.payload ≡ true) entries.now }
    ensures items { OnOk result (out.new.items ≡ out.old.items ++ flat_map spelled_entry entries.now) }
    ensures fits { OnOk result (All FitsEntry entries.now) }
{
    for entry in entries {
        put_entry(out, entry)?;
    }
    Ok(())
}

fn put_entries(out: &mut Vec<u8>, entries: &[GroupEntry]) -> Result<(), AllocError>
    requires { are_entries_short entries.now ≡ true }
    ensures items { OnOk result (out.new.items ≡ out.old.items ++ spelled_list spelled_entry entries.now) }
    ensures fits { OnOk result (All FitsEntry entries.now) }
{
    put_count(out, entries.len())?;
    put_all(out, entries)
}

fn put_append(out: &mut Vec<u8>, request: &AppendFields) -> Result<(), AllocError>
    requires { fault_of_entries request.now.entries ≡ None }
    ensures items { OnOk result (out.new.items ≡ out.old.items ++ spelled_append request.now) }
    ensures fits { OnOk result (FitsAppend request.now) }
{
    put_vote(out, &request.vote)?;
    put_id(out, request.id)?;
    put_last(out, &request.previous)?;
    put_last(out, &request.committed)?;
    put_entries(out, request.entries.as_slice())
}

// Whether what came of a request has a spelling.
fn is_spelled(outcome: &ReplyResult) -> bool
    ensures { result ≡ is_spelled outcome.now }
{
    match outcome {
        ReplyResult::PartialSuccess(_) => false,
        ReplyResult::Success | ReplyResult::Conflict | ReplyResult::HigherVote(_) => true,
    }
}

fn put_result(out: &mut Vec<u8>, outcome: &ReplyResult) -> Result<(), AllocError>
    requires { is_spelled outcome.now ≡ true }
    ensures items { OnOk result (out.new.items ≡ out.old.items ++ spelled_result outcome.now) }
    ensures fits { OnOk result (FitsResult outcome.now) }
{
    match outcome {
        ReplyResult::PartialSuccess(_) => Ok(()),
        ReplyResult::Success => Ok(out.push(0)?),
        ReplyResult::Conflict => Ok(out.push(1)?),
        ReplyResult::HigherVote(vote) => {
            out.push(2)?;
            put_vote(out, vote)
        }
    }
}

fn put_reply(out: &mut Vec<u8>, reply: &ReplyFields) -> Result<(), AllocError>
    requires { is_spelled reply.now.outcome ≡ true }
    ensures items { OnOk result (out.new.items ≡ out.old.items ++ spelled_reply reply.now) }
    ensures fits { OnOk result (FitsReply reply.now) }
{
    put_vote(out, &reply.vote)?;
    put_id(out, reply.id)?;
    put_last(out, &reply.previous)?;
    put_last(out, &reply.last)?;
    put_result(out, &reply.outcome)
}

// ---- snapshots

fn put_number(out: &mut Vec<u8>, id: u64) -> Result<(), AllocError>
    ensures items { OnOk result (out.new.items ≡ out.old.items ++ spelled_number id) }
    ensures fits { OnOk result (id < 2 ^ 64) }
{
    out.push(1)?;
    put_u64(out, id)
}

fn put_logged(
    out: &mut Vec<u8>,
    logged: &LoggedMembership<u64, BasicNode>,
) -> Result<(), AllocError>
    requires { is_within_limits logged.now.membership ≡ true }
    ensures items { OnOk result (out.new.items ≡ out.old.items ++ spelled_logged logged.now) }
    ensures fits { OnOk result (FitsLogged logged.now) }
{
    put_log_id(out, &logged.log_id)?;
    put_membership(out, &logged.membership)
}

fn put_last_membership(
    out: &mut Vec<u8>,
    logged: &Option<LoggedMembership<u64, BasicNode>>,
) -> Result<(), AllocError>
    requires { is_logged_short logged.now ≡ true }
    ensures items { OnOk result (out.new.items ≡ out.old.items ++ spelled_option spelled_logged logged.now) }
    ensures fits { OnOk result (IfSome logged.now FitsLogged) }
{
    match logged {
        None => Ok(out.push(0)?),
        Some(logged) => {
            out.push(1)?;
            put_logged(out, logged)
        }
    }
}

pub(crate) fn put_snapshot(
    out: &mut Vec<u8>,
    meta: &SnapshotMeta<u64, BasicNode>,
    bytes: &Bytes,
) -> Result<(), AllocError>
    requires { is_snapshot_short meta.now.last_membership bytes.now ≡ true }
    ensures items { OnOk result (out.new.items ≡ out.old.items ++ spelled_snapshot (snapshot_with meta.now bytes.now)) }
    ensures fits { OnOk result (FitsSnapshot (snapshot_with meta.now bytes.now)) }
{
    put_log_id(out, &meta.last_log_id)?;
    put_last_membership(out, &meta.last_membership)?;
    put_text(out, bytes.as_slice())
}

fn put_sent(
    out: &mut Vec<u8>,
    vote: &Vote<u64>,
    id: u64,
    snapshot: &SnapshotBytes,
) -> Result<(), AllocError>
    requires { is_snapshot_short snapshot.now.meta.last_membership snapshot.now.bytes ≡ true }
    ensures items { OnOk result (out.new.items ≡ out.old.items ++ spelled_sent (sent vote.now id snapshot.now)) }
    ensures fits { OnOk result (FitsSent (sent vote.now id snapshot.now)) }
{
    put_vote(out, vote)?;
    put_number(out, id)?;
    put_snapshot(out, &snapshot.meta, &snapshot.bytes)
}

// ---- why a frame isn't written

// Whether each place follows the one before.
fn are_consecutive(entries: &[GroupEntry]) -> bool
    ensures { result ≡ are_consecutive None entries.now }
{
    let mut last = None;
    for entry in entries {
        if !follows(last, entry.log_id.index) {
            return false;
        }
        last = Some(entry.log_id.index);
    }
    true
}

fn are_payloads_short(entries: &[GroupEntry]) -> bool
    ensures { result ≡ list_all (λ e. is_payload_short e.payload) entries.now }
{
    entries.iter().all(|entry| is_payload_short(&entry.payload))
}

fn are_entries_short(entries: &[GroupEntry]) -> bool
    ensures { result ≡ are_entries_short entries.now }
{
    entries.len() <= MAX_ENTRIES && are_payloads_short(entries)
}

fn fault_of_entries(entries: &[GroupEntry]) -> Option<FrameFault>
    ensures { result ≡ fault_of_entries entries.now }
{
    if !are_entries_short(entries) {
        return Some(FrameFault::TooLong);
    }
    if !are_consecutive(entries) {
        return Some(FrameFault::NotRising);
    }
    None
}

fn is_logged_short(logged: &Option<LoggedMembership<u64, BasicNode>>) -> bool
    ensures { result ≡ is_logged_short logged.now }
{
    match logged {
        None => true,
        Some(logged) => is_within_limits(&logged.membership),
    }
}

pub(crate) fn fault_of_snapshot(
    meta: &SnapshotMeta<u64, BasicNode>,
    bytes: &Bytes,
) -> Option<FrameFault>
    ensures { result ≡ fault_of_snapshot meta.now.last_membership bytes.now }
{
    if is_logged_short(&meta.last_membership) && bytes.len() <= MAX_SNAPSHOT_BYTES {
        None
    } else {
        Some(FrameFault::TooLong)
    }
}

// Whether the reply says nothing that only an append's reply can say.
fn is_of_snapshot(reply: &ReplyFields) -> bool
    ensures { result ≡ is_of_snapshot reply.now }
{
    has_number(reply.id) && reply.previous.is_none() && !is_conflict(reply.outcome)
}

fn fault_of_reply(reply: &ReplyFields) -> Option<FrameFault>
    ensures { result ≡ fault_of_reply reply.now }
{
    if is_spelled(&reply.outcome) {
        None
    } else {
        Some(FrameFault::BadTag)
    }
}

fn fault_of_snapshot_reply(reply: &ReplyFields) -> Option<FrameFault>
    ensures { result ≡ fault_of_snapshot_reply reply.now }
{
    if is_of_snapshot(reply) {
        fault_of_reply(reply)
    } else {
        Some(FrameFault::BadTag)
    }
}

fn fault_of(body: &MessageBody<SnapshotBytes>) -> Option<FrameFault>
    ensures { result ≡ fault_of_frame body.now }
{
    match body {
        MessageBody::VoteRequest(_) => None,
        MessageBody::VoteReply(_) => None,
        MessageBody::AppendRequest(request) => fault_of_entries(request.entries.as_slice()),
        MessageBody::AppendReply(reply) => fault_of_reply(reply),
        MessageBody::SnapshotRequest { snapshot, .. } => {
            fault_of_snapshot(&snapshot.meta, &snapshot.bytes)
        }
        MessageBody::SnapshotReply(reply) => fault_of_snapshot_reply(reply),
    }
}

// ---- frames

fn byte_of_kind(kind: FrameKind) -> u8
    ensures { result ≡ byte_of_kind kind }
{
    match kind {
        FrameKind::VoteRequest => 1,
        FrameKind::VoteReply => 2,
        FrameKind::Append => 3,
        FrameKind::AppendReply => 4,
        FrameKind::Snapshot => 5,
        FrameKind::SnapshotReply => 6,
    }
}

fn put_body(out: &mut Vec<u8>, body: &MessageBody<SnapshotBytes>) -> Result<(), AllocError>
    requires { fault_of_frame body.now ≡ None }
    ensures items { OnOk result (out.new.items ≡ out.old.items ++ spelled_body body.now) }
    ensures fits { OnOk result (FitsBody body.now) }
{
    match body {
        MessageBody::VoteRequest(request) => put_vote_request(out, request),
        MessageBody::VoteReply(reply) => put_vote_reply(out, reply),
        MessageBody::AppendRequest(request) => put_append(out, request),
        MessageBody::AppendReply(reply) => put_reply(out, reply),
        MessageBody::SnapshotRequest { vote, id, snapshot } => put_sent(out, vote, *id, snapshot),
        MessageBody::SnapshotReply(reply) => put_reply(out, reply),
    }
}

// The group, the sender and the addressee.
fn put_parties(out: &mut Vec<u8>, frame: &Frame) -> Result<(), AllocError>
    ensures items { OnOk result (out.new.items ≡ out.old.items ++ spelled_parties frame.now) }
    ensures fits { OnOk result ((frame.now.group < 2 ^ 64) × (frame.now.message.sender < 2 ^ 64) × (frame.now.message.addressee < 2 ^ 64)) }
{
    put_u64(out, frame.group)?;
    put_u64(out, frame.message.sender)?;
    put_u64(out, frame.message.addressee)
}

// A frame behind its length.
fn put_rest(out: &mut Vec<u8>, frame: &Frame) -> Result<(), AllocError>
    requires { fault_of_frame frame.now.message.body ≡ None }
    ensures items { OnOk result (out.new.items ≡ out.old.items ++ spelled_rest frame.now) }
    ensures fits { OnOk result (FitsFrame frame.now) }
{
    out.push(byte_of_kind(frame.kind()))?;
    put_parties(out, frame)?;
    put_body(out, &frame.message.body)
}

// Puts the length of what follows into the first four bytes.
fn set_length(bytes: &mut [u8])
    requires some { 4 ≤ length bytes.old }
    requires short { length bytes.old < 2 ^ 32 }
    ensures { bytes.new ≡ to_be_bytes w32 (length bytes.old - 4) ++ drop 4 bytes.old }
{
    let len = (bytes.len() - 4) as u32;
    bytes[..4].copy_from_slice(&len.to_be_bytes());
}

// The bytes of a frame that has a spelling.
fn frame_bytes(alloc: Global, frame: &Frame) -> Result<Vec<u8>, AllocError>
    requires { fault_of_frame frame.now.message.body ≡ None }
    ensures items { IfOk result (λ v. v.items ≡ spelled_frame frame.now) }
    ensures fits { OnOk result (FitsFrame frame.now) }
{
    let mut out = Vec::with_capacity(alloc, FRAME_ROOM)?;
    out.extend_from_slice(&[0, 0, 0, 0])?;
    put_rest(&mut out, frame)?;
    set_length(&mut out);
    Ok(out)
}

/// The one spelling of a frame (own). Refused are entries, commands, memberships and bytes of a machine
/// past their limits (`TooLong`), then entries whose places don't follow one another (`NotRising`), a
/// snapshot's reply without a number, with a previous log id or with a conflict, or a partial success
/// in any reply (`BadTag`), and then want of memory (`Memory`).
pub fn write_frame(alloc: Global, frame: &Frame) -> Result<Vec<u8>, FrameError>
    ensures written { Writes (fault_of_frame frame.now.message.body) (spelled_frame frame.now) result }
    ensures fits { OnOk result (FitsFrame frame.now) }
    // What was written is read again as this frame, whatever follows it in a stream.
    ensures found { IfOk result (λ v. AreFoundAs v.items frame.now) }
{
    if let Some(fault) = fault_of(&frame.message.body) {
        return Err(FrameError::Fault(fault));
    }
    Ok(frame_bytes(alloc, frame)?)
}
