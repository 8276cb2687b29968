//! Messages that are read, in the words in which they are printed.
use crate::fault::Fault;
use crate::reading::{Words, bytes_in, membership_in, number, number_in, word};
use raft_executor::{GroupBody, GroupMessage};
use raft_group_step::{Entries, LoggedMembership, VoteRequest, VoteResponse};
use raft_messages::{
    AppendFields, GroupEntry, GroupPayload, MessageBody, ReplyFields, ReplyResult, RequestId,
};
use raft_state::{BasicNode, Bytes, EntryPayload, LeaderId, LogId, Vote};
use raft_stored_group::GroupSnapshot;
use std::alloc::Global;

// The word behind a name.
fn named<'a>(words: &mut Words<'a>) -> Result<&'a str, Fault> {
    let _name = word(words)?;
    word(words)
}

// ---- votes, log ids, numbers

fn vote_in(text: &str) -> Result<Vote<u64>, Fault> {
    let (term, rest) = text.split_once('.').ok_or(Fault::Line)?;
    let term = number_in(term)?;
    match rest.split_once('+') {
        Some((node, "")) => Ok(Vote::new_committed(term, number_in(node)?)),
        Some(_) => Err(Fault::Line),
        None => Ok(Vote::new(term, number_in(rest)?)),
    }
}

fn id_in(text: &str) -> Result<LogId<u64>, Fault> {
    let (term, rest) = text.split_once('.').ok_or(Fault::Line)?;
    let (node, place) = rest.split_once('.').ok_or(Fault::Line)?;
    let leader = LeaderId::new(number_in(term)?, number_in(node)?);
    Ok(LogId::new(leader, number_in(place)?))
}

fn id_if_any(text: &str) -> Result<Option<LogId<u64>>, Fault> {
    match text {
        "-" => Ok(None),
        text => Ok(Some(id_in(text)?)),
    }
}

// A notice, and its reply, has no number.
fn request_id(text: &str) -> Result<RequestId, Fault> {
    match text {
        "-" => Ok(RequestId::HeartBeat),
        text => Ok(RequestId::Numbered {
            id: number_in(text)?,
        }),
    }
}

// ---- entries and snapshots

fn payload_in(alloc: Global, text: &str) -> Result<GroupPayload, Fault> {
    if text == "blank" {
        return Ok(EntryPayload::Blank);
    }
    if text.contains(';') {
        return Ok(EntryPayload::Membership(membership_in(alloc, text)?));
    }
    let bytes = bytes_in(alloc, text)?;
    Ok(EntryPayload::Normal(Bytes::from_slice(alloc, &bytes)?))
}

// A log id behind a bracket, and what is asked for before another one.
fn entry_in(alloc: Global, words: &mut Words) -> Result<GroupEntry, Fault> {
    let id = word(words)?.strip_prefix('[').ok_or(Fault::Line)?;
    let log_id = id_in(id)?;
    let (payload, _rest) = word(words)?.split_once(']').ok_or(Fault::Line)?;
    Ok(GroupEntry {
        log_id,
        payload: payload_in(alloc, payload)?,
    })
}

fn entries_in(alloc: Global, words: &mut Words) -> Result<Vec<GroupEntry>, Fault> {
    let mut entries = Vec::new(alloc);
    for _ in 0..number(words)? {
        entries.push(entry_in(alloc, words)?)?;
    }
    Ok(entries)
}

fn logged_in(
    alloc: Global,
    words: &mut Words,
) -> Result<Option<LoggedMembership<u64, BasicNode>>, Fault> {
    let Some(log_id) = id_if_any(named(words)?)? else {
        return Ok(None);
    };
    let membership = membership_in(alloc, word(words)?)?;
    Ok(Some(LoggedMembership { log_id, membership }))
}

fn snapshot_in(alloc: Global, words: &mut Words) -> Result<GroupSnapshot, Fault> {
    let last = id_in(named(words)?)?;
    let membership = logged_in(alloc, words)?;
    let _of = word(words)?;
    let prefix = entries_in(alloc, words)?;
    Ok(GroupSnapshot::new(last, membership, prefix))
}

// ---- what messages say

fn outcome_in(words: &mut Words) -> Result<ReplyResult, Fault> {
    match word(words)? {
        "success" => Ok(ReplyResult::Success),
        "conflict" => Ok(ReplyResult::Conflict),
        "part" => Ok(ReplyResult::PartialSuccess(id_if_any(word(words)?)?)),
        "higher" => Ok(ReplyResult::HigherVote(vote_in(word(words)?)?)),
        _ => Err(Fault::Line),
    }
}

fn reply_in(vote: Vote<u64>, words: &mut Words) -> Result<ReplyFields, Fault> {
    let id = request_id(named(words)?)?;
    let previous = id_if_any(named(words)?)?;
    let last = id_if_any(named(words)?)?;
    let outcome = outcome_in(words)?;
    Ok(ReplyFields {
        vote,
        id,
        previous,
        last,
        outcome,
    })
}

fn sent_entries(alloc: Global, words: &mut Words) -> Result<Entries<u64, BasicNode, Bytes>, Fault> {
    let mut entries = Entries::new(alloc);
    for _ in 0..number(words)? {
        entries.push(entry_in(alloc, words)?)?;
    }
    Ok(entries)
}

fn append_in(alloc: Global, vote: Vote<u64>, words: &mut Words) -> Result<AppendFields, Fault> {
    let id = request_id(named(words)?)?;
    let previous = id_if_any(named(words)?)?;
    let committed = id_if_any(named(words)?)?;
    let _name = word(words)?;
    let entries = sent_entries(alloc, words)?;
    Ok(AppendFields {
        vote,
        id,
        previous,
        committed,
        entries,
    })
}

fn grant_in(vote: Vote<u64>, granted: bool, words: &mut Words) -> Result<GroupBody, Fault> {
    let last = id_if_any(named(words)?)?;
    Ok(MessageBody::VoteReply(VoteResponse::new(&vote, last, granted)))
}

fn offer_in(alloc: Global, vote: Vote<u64>, words: &mut Words) -> Result<GroupBody, Fault> {
    let id = number_in(named(words)?)?;
    let snapshot = snapshot_in(alloc, words)?;
    Ok(MessageBody::SnapshotRequest { vote, id, snapshot })
}

fn body_in(alloc: Global, words: &mut Words) -> Result<GroupBody, Fault> {
    let kind = word(words)?;
    let vote = vote_in(word(words)?)?;
    match kind {
        "ask" => {
            let last = id_if_any(named(words)?)?;
            Ok(MessageBody::VoteRequest(VoteRequest::new(vote, last)))
        }
        "grant" => grant_in(vote, true, words),
        "deny" => grant_in(vote, false, words),
        "append" | "notice" => Ok(MessageBody::AppendRequest(append_in(alloc, vote, words)?)),
        "reply" => Ok(MessageBody::AppendReply(reply_in(vote, words)?)),
        "snapshot" => offer_in(alloc, vote, words),
        "answer" => Ok(MessageBody::SnapshotReply(reply_in(vote, words)?)),
        _ => Err(Fault::Line),
    }
}

/// The message behind the other words of a line.
pub fn message_in(alloc: Global, words: &mut Words) -> Result<GroupMessage, Fault> {
    let (sender, addressee) = word(words)?.split_once('>').ok_or(Fault::Line)?;
    let sender = number_in(sender)?;
    let addressee = number_in(addressee)?;
    let body = body_in(alloc, words)?;
    Ok(GroupMessage {
        sender,
        addressee,
        body,
    })
}
