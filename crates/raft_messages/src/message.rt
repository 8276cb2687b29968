//! What nodes of a group send to one another.
use raft_group_step::{AppendEntriesResponse, Entries, VoteRequest, VoteResponse};
use raft_state::{BasicNode, Bytes, LogId, Vote};

/// Which request a message or its reply is about (own). The kind of the message says the rest, so
/// there are no two kinds of numbers, as in what an engine queues (openraft's `RequestId`).
#[derive(Clone, Copy, Debug, PartialEq, Eq)]
pub enum RequestId {
    /// A notice or heartbeat: the leader doesn't wait for its reply.
    HeartBeat,
    /// A request that the leader waits for.
    Numbered {
        /// The number of the request.
        id: u64,
    },
}

/// What came of a request (own): of an append request, or by the same words of a snapshot's.
pub type ReplyResult = AppendEntriesResponse<u64>;

/// Entries to be appended after the previous one, and how far the sender has committed (own).
#[derive(Drop)]
pub struct AppendFields {
    /// The leader's vote.
    pub vote: Vote<u64>,
    /// Which of its requests it is.
    pub id: RequestId,
    /// The log id before the entries, if there is one.
    pub previous: Option<LogId<u64>>,
    /// The last log id that the leader has committed, if there is one.
    pub committed: Option<LogId<u64>>,
    /// The entries that follow the previous one.
    pub entries: Entries<u64, BasicNode, Bytes>,
}

/// A reply repeats what the request was, and says what came of it (own).
#[derive(Clone, Copy, PartialEq, Eq)]
pub struct ReplyFields {
    /// The vote of the request.
    pub vote: Vote<u64>,
    /// Which request it was.
    pub id: RequestId,
    /// The log id before the request's entries, if there was one.
    pub previous: Option<LogId<u64>>,
    /// The log id of the request's last entry, or the one before its entries.
    pub last: Option<LogId<u64>>,
    /// What came of it.
    pub outcome: ReplyResult,
}

/// What a message says (own): one of six kinds. `S` is what a snapshot carries.
#[derive(Drop)]
pub enum MessageBody<S> {
    /// A candidate asks for a vote.
    VoteRequest(VoteRequest<u64>),
    /// The answer to that.
    VoteReply(VoteResponse<u64>),
    /// A leader sends entries, or says what is committed.
    AppendRequest(AppendFields),
    /// The answer to that.
    AppendReply(ReplyFields),
    /// A leader sends its snapshot.
    SnapshotRequest {
        /// The leader's vote.
        vote: Vote<u64>,
        /// The number of the request.
        id: u64,
        /// The snapshot.
        snapshot: S,
    },
    /// The answer to that.
    SnapshotReply(ReplyFields),
}

/// What a node of a group sends to another one (own).
#[derive(Drop)]
pub struct Message<S> {
    /// The node that sends it.
    pub sender: u64,
    /// The node that is to get it.
    pub addressee: u64,
    /// What it says.
    pub body: MessageBody<S>,
}
