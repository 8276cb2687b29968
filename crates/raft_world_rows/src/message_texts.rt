//! Texts of messages.
use crate::entry_texts::{EntriesText, SnapshotText};
use crate::values::{IdText, NumberText, VoteText};
use raft_executor::{GroupBody, GroupMessage};
use raft_messages::{AppendFields, MessageBody, ReplyFields, ReplyResult, RequestId};
use raft_state::{LogId, Vote};
use std::fmt;
use std::fmt::Display;

/// What a message is called: a notice is a request without a number.
pub fn kind_of(body: &GroupBody) -> &'static str {
    match body {
        MessageBody::VoteRequest(_) => "ask",
        MessageBody::VoteReply(reply) => { if reply.vote_granted { "grant" } else { "deny" } }
        MessageBody::AppendRequest(request) => match request.id {
            RequestId::HeartBeat => "notice",
            RequestId::Numbered { .. } => "append",
        },
        MessageBody::AppendReply(_) => "reply",
        MessageBody::SnapshotRequest { .. } => "snapshot",
        MessageBody::SnapshotReply(_) => "answer",
    }
}

// The number of a request: a notice or heartbeat has none.
fn number_of(id: RequestId) -> NumberText {
    NumberText(match id {
        RequestId::HeartBeat => None,
        RequestId::Numbered { id } => Some(id),
    })
}

// What came of a request.
#[derive(Clone, Copy)]
struct OutcomeText(ReplyResult);

impl Display for OutcomeText {
    fn fmt<W: fmt::Write>(&self, f: &mut fmt::Formatter<W>) -> fmt::Result {
        match self.0 {
            ReplyResult::Success => f.write_str("success"),
            ReplyResult::PartialSuccess(last) => write!(f, "part {}", IdText(last)),
            ReplyResult::Conflict => f.write_str("conflict"),
            ReplyResult::HigherVote(vote) => write!(f, "higher {}", VoteText(vote)),
        }
    }
}

// A reply repeats what the request was, and says what came of it.
#[derive(Clone, Copy)]
struct ReplyText<'a>(&'a ReplyFields);

impl Display for ReplyText<'_> {
    fn fmt<W: fmt::Write>(&self, f: &mut fmt::Formatter<W>) -> fmt::Result {
        let vote = VoteText(self.0.vote);
        let number = number_of(self.0.id);
        let previous = IdText(self.0.previous);
        let last = IdText(self.0.last);
        let outcome = OutcomeText(self.0.outcome);
        write!(
            f,
            "{vote} number {number} after {previous} last {last} {outcome}"
        )
    }
}

// Entries behind a log id, and how far the sender has committed.
#[derive(Clone, Copy)]
struct AppendText<'a>(&'a AppendFields);

impl Display for AppendText<'_> {
    fn fmt<W: fmt::Write>(&self, f: &mut fmt::Formatter<W>) -> fmt::Result {
        let vote = VoteText(self.0.vote);
        let number = number_of(self.0.id);
        let previous = IdText(self.0.previous);
        let committed = IdText(self.0.committed);
        let entries = EntriesText(self.0.entries.as_slice());
        write!(
            f,
            "{vote} number {number} after {previous} committed {committed} entries {entries}"
        )
    }
}

// A vote, and the last log id of the one that asks for it or answers.
#[derive(Clone, Copy)]
struct ElectionText(Vote<u64>, Option<LogId<u64>>);

impl Display for ElectionText {
    fn fmt<W: fmt::Write>(&self, f: &mut fmt::Formatter<W>) -> fmt::Result {
        write!(f, "{} last {}", VoteText(self.0), IdText(self.1))
    }
}

// What a message says.
#[derive(Clone, Copy)]
struct BodyText<'a>(&'a GroupBody);

impl Display for BodyText<'_> {
    fn fmt<W: fmt::Write>(&self, f: &mut fmt::Formatter<W>) -> fmt::Result {
        match self.0 {
            MessageBody::VoteRequest(it) => write!(f, "{}", ElectionText(it.vote, it.last_log_id)),
            MessageBody::VoteReply(it) => write!(f, "{}", ElectionText(it.vote, it.last_log_id)),
            MessageBody::AppendRequest(request) => write!(f, "{}", AppendText(request)),
            MessageBody::SnapshotRequest { vote, id, snapshot } => {
                let snapshot = SnapshotText(Some(snapshot));
                write!(f, "{} number {id} snapshot {snapshot}", VoteText(*vote))
            }
            MessageBody::AppendReply(reply) | MessageBody::SnapshotReply(reply) => {
                write!(f, "{}", ReplyText(reply))
            }
        }
    }
}

/// Sender and addressee, and what the message says, on a line.
#[derive(Clone, Copy)]
pub struct MessageText<'a>(pub &'a GroupMessage);

impl Display for MessageText<'_> {
    fn fmt<W: fmt::Write>(&self, f: &mut fmt::Formatter<W>) -> fmt::Result {
        let kind = kind_of(&self.0.body);
        let body = BodyText(&self.0.body);
        writeln!(f, "{}>{} {kind} {body}", self.0.sender, self.0.addressee)
    }
}
