//! What commands send.
ghost use Rattle.std.specs.Prelude.{◌≡◌, ◌++◌, Some, IfOk, OnOk, OnErr, List, [], ◌∷◌};
ghost use Rattle.raft_group_step.specs.Values.{vote_lt};
ghost use Rattle.raft_group_step.specs.Message.{Message as Said, SnapshotReply};
ghost use Rattle.raft_progress.specs.declared.inflight.Inflight.TheVariants.{Logs};
ghost use Rattle.raft_group_step.specs.StoredGroup.{StoredGroup};
ghost use Rattle.raft_engine.specs.Commands.{answer_of, number_of, request_to, sending_of, sent_by, snapshot_reply_to, snapshot_result, snapshot_to};
ghost use Rattle.raft_engine.specs.Sending.{reply_of};
ghost use Rattle.raft_messages.specs.Messages.{outcome_of, reply_fields_of, request_id_of};
ghost use Rattle.std.specs.Result.{result_err};
ghost use Rattle.raft_group_storage.specs.Keeping.{FailsAnyhow, KeepsAll};
ghost use Rattle.raft_executor.specs.Said.{SaysAll, SaysBody, listed};

use raft_commands::{Caller, Command, EngineOutput, RaftTypeConfig, Respond};
use raft_group_step::{AppendEntriesResponse, Entries, RequestId as CallerId, SnapshotResponse};
use raft_group_storage::GroupStorage;
use raft_messages::{AppendFields, Message, MessageBody, ReplyFields, ReplyResult, RequestId};
use raft_progress::Inflight;
use raft_state::{BasicNode, Bytes, LogId, LogIdRange, Vote};
use raft_values::vote::votes_by_term_node_committed;
use std::alloc::{AllocError, Global};

/// The node that sends, as its messages leave (own).
#[derive(Clone, Copy)]
pub struct Sender {
    /// Its id.
    pub own: u64,
    /// The vote that it has stored.
    pub vote: Vote<u64>,
    /// The last log id that it has committed, if there is one.
    pub committed: Option<LogId<u64>>,
}

// Whether the first vote is below the second.
fn is_lower(vote: &Vote<u64>, other: &Vote<u64>) -> bool
    ensures { result ≡ vote_lt vote.now other.now }
{
    votes_by_term_node_committed(vote, other).is_lt()
}

// The node says this to the peer.
fn message<X>(own: u64, peer: u64, body: MessageBody<X>) -> Option<Message<X>>
    ensures { result ≡ Some (record { sender = own; addressee = peer; body = body }) }
{
    Some(Message {
        sender: own,
        addressee: peer,
        body,
    })
}

// Which request an answer is about.
fn request_id(id: &CallerId) -> RequestId
    ensures { request_id_of result ≡ number_of id.now }
{
    match id {
        CallerId::HeartBeat => RequestId::HeartBeat,
        CallerId::AppendEntries { id } | CallerId::Snapshot { id } => {
            RequestId::Numbered { id: *id }
        }
    }
}

// What came of a snapshot under the vote, by the vote in the answer.
fn snapshot_outcome(asked: &Vote<u64>, answer: &SnapshotResponse<u64>) -> ReplyResult
    ensures { outcome_of result ≡ snapshot_result asked.now answer.now }
{
    if is_lower(asked, &answer.vote) {
        ReplyResult::HigherVote(answer.vote)
    } else {
        ReplyResult::Success
    }
}

// The answer to an append request.
fn reply(request: &Caller<u64>, answer: &AppendEntriesResponse<u64>) -> ReplyFields
    ensures { reply_fields_of result ≡ reply_of request.now answer.now }
{
    ReplyFields {
        vote: request.vote,
        id: request_id(&request.id),
        previous: request.previous,
        last: request.last,
        outcome: *answer,
    }
}

// The answer to a snapshot. It repeats no log id before the snapshot.
fn snapshot_reply(request: &Caller<u64>, answer: &SnapshotResponse<u64>) -> ReplyFields
    ensures { SnapshotReply (reply_fields_of result) ≡ snapshot_reply_to request.now (snapshot_result request.now.vote answer.now) }
{
    ReplyFields {
        vote: request.vote,
        id: request_id(&request.id),
        previous: None,
        last: request.last,
        outcome: snapshot_outcome(&request.vote, answer),
    }
}

// The answer to a peer's request.
fn answer<C: RaftTypeConfig<NodeId = u64, Node = BasicNode, D = Bytes>, S: GroupStorage>(
    own: u64,
    respond: &Respond<C>,
) -> Option<Message<S::Snapshot>>
    ensures { SaysAll S.stands (listed result) (answer_of own respond.now) }
{
    match respond {
        Respond::Vote(s) => message(own, s.tx.peer, MessageBody::VoteReply(s.value)),
        Respond::AppendEntries(s) => {
            let body = MessageBody::AppendReply(reply(&s.tx, &s.value));
            message(own, s.tx.peer, body)
        }
        Respond::InstallFullSnapshot(s) => {
            let body = MessageBody::SnapshotReply(snapshot_reply(&s.tx, &s.value));
            message(own, s.tx.peer, body)
        }
        Respond::InstallSnapshot(_) | Respond::Initialize(_) => None,
    }
}

// The stored snapshot, sent under this number.
fn snapshot<S: GroupStorage>(
    alloc: Global,
    sender: &Sender,
    peer: u64,
    id: u64,
    storage: &mut S,
    group: u64,
) -> Result<Option<Message<S::Snapshot>>, S::Fault>
    ensures well { S.is_well storage.old → OnOk result (S.is_well storage.new) }
    ensures ok { (s : StoredGroup) → S.is_well storage.old → S.shows storage.old group (s ∷ []) → sender.now.vote ≡ s.vote
        → IfOk result (λ sent. SaysAll S.stands (listed sent) (snapshot_to sender.now.own peer id s s.snapshot)) }
    ensures err { (s : StoredGroup) → S.is_well storage.old → S.shows storage.old group (s ∷ []) → OnErr result (FailsAnyhow (S.fails storage.new)) }
    ensures kept { KeepsAll (S.shows storage.old) (S.shows storage.new) }
    ensures met { S.meets storage.old storage.new (result_err result) }
{
    match storage.snapshot(alloc, group)? {
        Some(snapshot) => {
            let body = MessageBody::SnapshotRequest {
                vote: sender.vote,
                id,
                snapshot,
            };
            Ok(message(sender.own, peer, body))
        }
        None => Ok(None),
    }
}

// Entries to a peer, under this number.
fn entries<S: GroupStorage>(
    alloc: Global,
    sender: &Sender,
    peer: u64,
    request: (u64, LogIdRange<u64>),
    storage: &mut S,
    group: u64,
) -> Result<Option<Message<S::Snapshot>>, S::Fault>
    ensures well { S.is_well storage.old → OnOk result (S.is_well storage.new) }
    ensures ok { (s : StoredGroup) → S.is_well storage.old → S.shows storage.old group (s ∷ []) → sender.now.vote ≡ s.vote
        → IfOk result (λ sent. SaysAll S.stands (listed sent) (request_to sender.now.own s sender.now.committed peer (Logs request.0 request.1))) }
    ensures err { (s : StoredGroup) → S.is_well storage.old → S.shows storage.old group (s ∷ []) → OnErr result (FailsAnyhow (S.fails storage.new)) }
    ensures kept { KeepsAll (S.shows storage.old) (S.shows storage.new) }
    ensures met { S.meets storage.old storage.new (result_err result) }
{
    let (id, range) = request;
    let request = AppendFields {
        vote: sender.vote,
        id: RequestId::Numbered { id },
        previous: range.prev,
        committed: sender.committed,
        entries: storage.entries_between(alloc, group, range.prev, range.last)?,
    };
    Ok(message(sender.own, peer, MessageBody::AppendRequest(request)))
}

// A request to a peer, with what is stored and committed as it leaves.
fn request<S: GroupStorage>(
    alloc: Global,
    sender: &Sender,
    peer: u64,
    inflight: &Inflight<u64>,
    storage: &mut S,
    group: u64,
) -> Result<Option<Message<S::Snapshot>>, S::Fault>
    ensures well { S.is_well storage.old → OnOk result (S.is_well storage.new) }
    ensures ok { (s : StoredGroup) → S.is_well storage.old → S.shows storage.old group (s ∷ []) → sender.now.vote ≡ s.vote
        → IfOk result (λ sent. SaysAll S.stands (listed sent) (request_to sender.now.own s sender.now.committed peer inflight.now)) }
    ensures err { (s : StoredGroup) → S.is_well storage.old → S.shows storage.old group (s ∷ []) → OnErr result (FailsAnyhow (S.fails storage.new)) }
    ensures kept { KeepsAll (S.shows storage.old) (S.shows storage.new) }
    ensures met { S.meets storage.old storage.new (result_err result) }
{
    match inflight {
        Inflight::None => Ok(None),
        Inflight::Logs { id, log_id_range } => {
            entries(alloc, sender, peer, (*id, *log_id_range), storage, group)
        }
        Inflight::Snapshot { id, .. } => snapshot(alloc, sender, peer, *id, storage, group),
    }
}

/// The message that the node sends for the command, if it sends one (own): a request has what is
/// stored as it leaves, and what is committed. It stores nothing, and fails where a read does, or
/// for want of memory.
pub fn sent<C: RaftTypeConfig<NodeId = u64, Node = BasicNode, D = Bytes>, S: GroupStorage>(
    alloc: Global,
    sender: &Sender,
    command: &Command<C>,
    storage: &mut S,
    group: u64,
) -> Result<Option<Message<S::Snapshot>>, S::Fault>
    ensures well { S.is_well storage.old → OnOk result (S.is_well storage.new) }
    ensures ok { (s : StoredGroup) → S.is_well storage.old → S.shows storage.old group (s ∷ []) → sender.now.vote ≡ s.vote
        → IfOk result (λ sent. SaysAll S.stands (listed sent) (sending_of sender.now.own s sender.now.committed command.now)) }
    ensures err { (s : StoredGroup) → S.is_well storage.old → S.shows storage.old group (s ∷ []) → OnErr result (FailsAnyhow (S.fails storage.new)) }
    ensures kept { KeepsAll (S.shows storage.old) (S.shows storage.new) }
    ensures met { S.meets storage.old storage.new (result_err result) }
{
    let own = sender.own;
    match command {
        Command::ReplicateCommitted {
            target,
            vote,
            matching,
            committed,
        } => {
            let request = AppendFields {
                vote: *vote,
                id: RequestId::HeartBeat,
                previous: *matching,
                committed: *committed,
                entries: Entries::new(alloc),
            };
            Ok(message(own, *target, MessageBody::AppendRequest(request)))
        }
        Command::Replicate { target, req } => {
            request(alloc, sender, *target, req, storage, group)
        }
        Command::SendVote { target, vote_req } => {
            Ok(message(own, *target, MessageBody::VoteRequest(*vote_req)))
        }
        Command::Respond { resp, .. } => Ok(answer::<C, S>(own, resp)),
        _ => Ok(None),
    }
}

// The message, if there is one, goes behind the others.
fn push<X: Drop>(all: &mut Vec<Message<X>>, message: Option<Message<X>>) -> Result<(), AllocError>
    ensures { OnOk result (all.new.items ≡ all.old.items ++ listed message) }
{
    if let Some(message) = message {
        all.push(message)?;
    }
    Ok(())
}

// The command's message goes behind the others.
fn push_sent<C: RaftTypeConfig<NodeId = u64, Node = BasicNode, D = Bytes>, S: GroupStorage>(
    alloc: Global,
    sender: &Sender,
    command: &Command<C>,
    storage: &mut S,
    group: u64,
    all: &mut Vec<Message<S::Snapshot>>,
) -> Result<(), S::Fault>
    ensures well { S.is_well storage.old → OnOk result (S.is_well storage.new) }
    ensures ok { (s : StoredGroup) (before : List Said) → S.is_well storage.old → S.shows storage.old group (s ∷ []) → sender.now.vote ≡ s.vote
        → SaysAll S.stands all.old.items before
        → OnOk result (SaysAll S.stands all.new.items (before ++ sending_of sender.now.own s sender.now.committed command.now)) }
    ensures err { (s : StoredGroup) → S.is_well storage.old → S.shows storage.old group (s ∷ []) → OnErr result (FailsAnyhow (S.fails storage.new)) }
    ensures kept { KeepsAll (S.shows storage.old) (S.shows storage.new) }
    ensures met { S.meets storage.old storage.new (result_err result) }
{
    let message = sent(alloc, sender, command, storage, group)?;
    push(all, message)?;
    Ok(())
}

/// The messages that the node sends for the queue's commands, in its order (own). It stores nothing,
/// and fails where a read does, or for want of memory.
pub fn messages<C: RaftTypeConfig<NodeId = u64, Node = BasicNode, D = Bytes>, S: GroupStorage>(
    alloc: Global,
    sender: &Sender,
    queue: &EngineOutput<C>,
    storage: &mut S,
    group: u64,
) -> Result<Vec<Message<S::Snapshot>>, S::Fault>
    ensures well { S.is_well storage.old → OnOk result (S.is_well storage.new) }
    ensures ok { (s : StoredGroup) → S.is_well storage.old → S.shows storage.old group (s ∷ []) → sender.now.vote ≡ s.vote
        → IfOk result (λ sent. SaysAll S.stands sent.items (sent_by sender.now.own s sender.now.committed queue.now.queue)) }
    ensures err { (s : StoredGroup) → S.is_well storage.old → S.shows storage.old group (s ∷ []) → OnErr result (FailsAnyhow (S.fails storage.new)) }
    ensures kept { KeepsAll (S.shows storage.old) (S.shows storage.new) }
    ensures met { S.meets storage.old storage.new (result_err result) }
{
    let mut all = Vec::new(alloc);
    let mut left = queue.iter_commands();
    while let Some(command) = left.next() {
        push_sent(alloc, sender, command, storage, group, &mut all)?;
    }
    Ok(all)
}
