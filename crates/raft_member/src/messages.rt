//! Messages that come to a member.
ghost use Rattle.std.specs.Prelude.{◌≡◌, ℕ, Ok, IfOk, OnOk, OnErr, None, Some, max};
ghost use Rattle.raft_group_step.specs.StoredGroup.{Snapshot};
ghost use Rattle.raft_group_step.specs.GroupState.{GroupState};
ghost use Rattle.raft_group_step.specs.GroupEvent.{Receive};
ghost use Rattle.raft_conditions.specs.Facts.{IsRefusalOf};
ghost use Rattle.raft_engine.specs.Clock.{HearsAfter, KeepsHeard, moment_shown};
ghost use Rattle.raft_engine.specs.Events.{HasTaken, MayTake, received};
ghost use Rattle.raft_messages.specs.Messages.{append_fields_of, body_as, message_as, reply_fields_of};
ghost use Rattle.raft_messages.specs.declared.message.MessageBody.TheVariants.{SnapshotRequest as SendsSnapshot};
ghost use Rattle.raft_group_step.specs.GroupStep.{group_step};
ghost use Rattle.raft_group_step.specs.Message.{AppendReply, AppendRequest, Message as Said, SnapshotReply, SnapshotRequest};
ghost use Rattle.raft_executor.specs.Said.{Says};
ghost use Rattle.std.specs.Result.{result_err};
ghost use Rattle.raft_group_storage.specs.Keeping.{KeepsAll, KeepsOthers};
ghost use Rattle.raft_executor.specs.SendingTimes.{sent_at};
ghost use Rattle.raft_member.specs.Hearing.{HasHeard, HearsBy};
ghost use Rattle.raft_member.specs.Member.{Engine as Running, HasEnded, HasStopped, IsDown, IsIdle, IsLawful, IsUp};
ghost use Rattle.raft_member.specs.Running.{Brings, EndsTo, HasHalted, RunsTo};
ghost use Rattle.raft_member.specs.declared.member.Ended.TheVariants.{Skipped};

use crate::facts::facts_of;
use crate::member::{ByteGroup, Ended, Member};
use raft_conditions::{GroupFacts, Parties, Refusal};
use raft_engine::{AppendEntriesRequest, Caller, Engine, RequestId};
use raft_executor::{SendingTimes, caller_and_answer, caller_id, meta_of};
use raft_group_storage::GroupStorage;
use raft_messages::{AppendFields, Message, MessageBody, ReplyFields, copies_of, last_sent};
use raft_state::Vote;
use std::alloc::{AllocError, Global};
use std::mem;

// Why the message is refused, if it is.
fn message_refusal<S: GroupStorage>(
    facts: &GroupFacts,
    message: &Message<S::Snapshot>,
    now: u64,
) -> Option<Refusal<u64>>
    ensures { (y : Snapshot) → Brings S.stands message.now.body y → IsRefusalOf facts.now (Receive message.now.sender (message_as (λ x. y) message.now) now) result }
{
    let parties = Parties {
        peer: message.sender,
        sender: message.sender,
        addressee: message.addressee,
    };
    match &message.body {
        MessageBody::VoteRequest(asked) => {
            facts.vote_request_refusal(parties, asked.vote, asked.last_log_id, now)
        }
        MessageBody::VoteReply(answer) => {
            facts.vote_reply_refusal(parties, answer.vote, answer.last_log_id, now)
        }
        MessageBody::AppendRequest(request) => facts.append_request_refusal(parties, request, now),
        MessageBody::AppendReply(reply) | MessageBody::SnapshotReply(reply) => {
            facts.reply_refusal(parties, reply, now)
        }
        MessageBody::SnapshotRequest { vote, id, snapshot } => {
            facts.snapshot_request_refusal(parties, *vote, *id, S::head(snapshot), now)
        }
    }
}

// A leader's request is handed to the engine.
fn take_request(
    alloc: Global,
    peer: u64,
    request: &AppendFields,
    moment: u64,
    engine: &mut Engine<ByteGroup>,
) -> Result<(), AllocError>
    ensures heard { OnOk result (KeepsHeard engine.old.leader engine.new.leader) }
    ensures taken { (x : Snapshot) (own at : ℕ) (s : GroupState) → moment ≡ max s.now at → MayTake own engine.old s (received own peer (AppendRequest (append_fields_of request.now)) at)
        → OnOk result (HasTaken x own engine.old engine.new s (received own peer (AppendRequest (append_fields_of request.now)) at)) }
{
    let caller = Caller {
        peer,
        vote: request.vote,
        id: caller_id(&request.id),
        previous: request.previous,
        last: last_sent(request.previous, request.entries.as_slice()),
    };
    let copy = AppendEntriesRequest {
        vote: request.vote,
        prev_log_id: request.previous,
        entries: copies_of(alloc, request.entries.as_slice())?,
        leader_commit: request.committed,
    };
    let _answer = engine.handle_append_entries(copy, caller, moment)?;
    Ok(())
}

// A peer's answer to an append request or a snapshot, which left at this sending time, if one did, is
// handed to the engine.
fn take_reply(
    peer: u64,
    reply: &ReplyFields,
    sending_time: Option<u64>,
    moment: u64,
    engine: &mut Engine<ByteGroup>,
) -> Result<(), AllocError>
    ensures heard { OnOk result (HearsAfter peer (moment_shown peer (reply_fields_of reply.now) sending_time engine.old.leader) engine.old.leader engine.new.leader) }
    ensures append { (x : Snapshot) (own at : ℕ) (s : GroupState) → moment ≡ max s.now at → MayTake own engine.old s (received own peer (AppendReply (reply_fields_of reply.now)) at)
        → OnOk result (HasTaken x own engine.old engine.new s (received own peer (AppendReply (reply_fields_of reply.now)) at)) }
    ensures snapshot { (x : Snapshot) (own at : ℕ) (s : GroupState) → moment ≡ max s.now at → MayTake own engine.old s (received own peer (SnapshotReply (reply_fields_of reply.now)) at)
        → OnOk result (HasTaken x own engine.old engine.new s (received own peer (SnapshotReply (reply_fields_of reply.now)) at)) }
{
    let (caller, answer) = caller_and_answer(peer, reply);
    engine.handle_replication_resp(peer, &caller, &answer, sending_time, moment)
}

// The engine is handed the message, but for a snapshot, at this moment. The last request to its
// sender left at the sending time, if one did.
fn take_message<X>(
    alloc: Global,
    message: &Message<X>,
    sending_time: Option<u64>,
    moment: u64,
    engine: &mut Engine<ByteGroup>,
) -> Result<(), AllocError>
    ensures heard { OnOk result (HearsBy message.now sending_time engine.old.leader engine.new.leader) }
    ensures taken { (carried : X → Snapshot) (x : Snapshot) (own at : ℕ) (s : GroupState) → moment ≡ max s.now at
        → ((vote : _) (id : ℕ) (y : X) → message.now.body ≡ SendsSnapshot vote id y → ⊥)
        → MayTake own engine.old s (received own message.now.sender (body_as carried message.now.body) at)
        → OnOk result (HasTaken x own engine.old engine.new s (received own message.now.sender (body_as carried message.now.body) at)) }
{
    let peer = message.sender;
    match &message.body {
        MessageBody::VoteRequest(asked) => {
            let caller = Caller::new(peer, asked.vote);
            engine.handle_vote_req(asked, caller, moment)
        }
        MessageBody::VoteReply(answer) => engine.handle_vote_resp(peer, answer, moment),
        MessageBody::AppendRequest(request) => take_request(alloc, peer, request, moment, engine),
        MessageBody::AppendReply(reply) | MessageBody::SnapshotReply(reply) => {
            take_reply(peer, reply, sending_time, moment, engine)
        }
        MessageBody::SnapshotRequest { .. } => Ok(()),
    }
}

// A leader's snapshot is handed to the engine.
fn take_snapshot<S: GroupStorage>(
    alloc: Global,
    caller: (u64, Vote<u64>, u64),
    snapshot: &S::Snapshot,
    moment: u64,
    engine: &mut Engine<ByteGroup>,
) -> Result<(), AllocError>
    ensures heard { OnOk result (KeepsHeard engine.old.leader engine.new.leader) }
    ensures taken { (x : Snapshot) (own at : ℕ) (s : GroupState) → S.stands snapshot.now x → moment ≡ max s.now at
        → MayTake own engine.old s (received own caller.0 (SnapshotRequest caller.1 caller.2 x) at)
        → OnOk result (HasTaken x own engine.old engine.new s (received own caller.0 (SnapshotRequest caller.1 caller.2 x) at)) }
{
    let (peer, vote, id) = caller;
    let head = S::head(snapshot);
    if head.last.index == u64::MAX {
        return Ok(());
    }
    let caller = Caller {
        peer,
        vote,
        id: RequestId::Snapshot { id },
        previous: None,
        last: Some(head.last),
    };
    engine.handle_install_full_snapshot(vote, meta_of(alloc, head)?, caller, moment)
}

impl Member {
    // A message that isn't refused.
    fn accepted_message<S: GroupStorage>(
        &mut self,
        alloc: Global,
        engine: &mut Engine<ByteGroup>,
        message: &Message<S::Snapshot>,
        moment: u64,
        stop: Option<u64>,
        storage: &mut S,
        group: u64,
    ) -> Result<Ended<S::Snapshot>, S::Fault>
        ensures id { self.new.id ≡ self.old.id }
        ensures heard { IfOk result (HasHeard message.now (sent_at self.old.sendings message.now.sender) engine.old.leader engine.new.leader) }
        ensures well { S.is_well storage.old → OnOk result (S.is_well storage.new) }
        ensures ok { (y : Snapshot) (at : ℕ) (s : GroupState) → Brings S.stands message.now.body y
            → IsDown (S.is_well storage.old) (S.shows storage.old group) self.old s.stored → moment ≡ max s.now at
            → MayTake self.old.id engine.old s (received self.old.id message.now.sender (body_as (λ x. y) message.now.body) at)
            → RunsTo S.stands (S.is_well storage.new) (S.shows storage.new group) s.stored
            (group_step self.old.id s (received self.old.id message.now.sender (body_as (λ x. y) message.now.body) at)) stop engine.new self.new result }
        ensures err { (y : Snapshot) (at : ℕ) (s : GroupState) → Brings S.stands message.now.body y
            → IsDown (S.is_well storage.old) (S.shows storage.old group) self.old s.stored → moment ≡ max s.now at
            → MayTake self.old.id engine.old s (received self.old.id message.now.sender (body_as (λ x. y) message.now.body) at)
            → OnErr result (HasHalted (S.shows storage.new group) (S.fails storage.new) s.stored
            (group_step self.old.id s (received self.old.id message.now.sender (body_as (λ x. y) message.now.body) at)) self.new) }
        ensures others { KeepsOthers (S.shows storage.old) (S.shows storage.new) group }
        ensures met { S.meets storage.old storage.new (result_err result) }
    {
        if let MessageBody::SnapshotRequest { vote, id, snapshot } = &message.body {
            let caller = (message.sender, *vote, *id);
            take_snapshot::<S>(alloc, caller, snapshot, moment, engine)?;
            return self.end_taken(alloc, engine, Some(snapshot), moment, stop, storage, group);
        }
        let sending_time = self.sendings.sent_at(message.sender);
        take_message(alloc, message, sending_time, moment, engine)?;
        self.end_without_snapshot(alloc, engine, moment, stop, storage, group)
    }

    // A message comes while the engine is taken out.
    fn message<S: GroupStorage>(
        &mut self,
        alloc: Global,
        engine: &mut Engine<ByteGroup>,
        message: &Message<S::Snapshot>,
        now: u64,
        stop: Option<u64>,
        storage: &mut S,
        group: u64,
    ) -> Result<Ended<S::Snapshot>, S::Fault>
        ensures id { self.new.id ≡ self.old.id }
        ensures heard { IfOk result (HasHeard message.now (sent_at self.old.sendings message.now.sender) engine.old.leader engine.new.leader) }
        ensures well { S.is_well storage.old → OnOk result (S.is_well storage.new) }
        ensures ok { (y : Snapshot) (s : GroupState) → Brings S.stands message.now.body y
            → IsDown (S.is_well storage.old) (S.shows storage.old group) self.old s.stored → self.old.moment ≡ s.now → IsIdle self.old.id engine.old s → IsLawful self.old.id s
            → EndsTo S.stands (S.is_well storage.new) (S.shows storage.new group) self.old.id s (Receive message.now.sender (message_as (λ x. y) message.now) now) stop engine.new self.new result }
        ensures err { (y : Snapshot) (s : GroupState) → Brings S.stands message.now.body y
            → IsDown (S.is_well storage.old) (S.shows storage.old group) self.old s.stored → self.old.moment ≡ s.now → IsIdle self.old.id engine.old s → IsLawful self.old.id s
            → OnErr result (HasStopped (S.shows storage.new group) (S.fails storage.new) self.old.id s (Receive message.now.sender (message_as (λ x. y) message.now) now) self.new) }
        ensures others { KeepsOthers (S.shows storage.old) (S.shows storage.new) group }
        ensures met { S.meets storage.old storage.new (result_err result) }
    {
        match message_refusal::<S>(&facts_of(self.id, engine), message, now) {
            Some(refusal) => Ok(Ended::Refused(refusal)),
            None => {
                let moment = self.moment.max(now);
                self.accepted_message(alloc, engine, message, moment, stop, storage, group)
            }
        }
    }

    /// A message comes at this moment, in ticks (own); one before the last one counts as the last
    /// one. It may stop after so many storing commands, unless it is refused. At a fault of the
    /// storage, or without memory, the member is down: some of the storing commands are done, from
    /// the first on, and the one that failed is or isn't. Other groups are as they were. An answer that
    /// isn't refused moves the leader's clock for its sender up to when the request left.
    pub fn receive<S: GroupStorage>(
        &mut self,
        alloc: Global,
        message: &Message<S::Snapshot>,
        now: u64,
        stop: Option<u64>,
        storage: &mut S,
        group: u64,
    ) -> Result<Ended<S::Snapshot>, S::Fault>
        ensures id { self.new.id ≡ self.old.id }
        ensures heard { (e e' : Running) → self.old.engine ≡ Some e → self.new.engine ≡ Some e'
            → IfOk result (HasHeard message.now (sent_at self.old.sendings message.now.sender) e.leader e'.leader) }
        ensures well { S.is_well storage.old → OnOk result (S.is_well storage.new) }
        ensures ok { (m : Said) (s : GroupState) → Says S.stands message.now m → IsUp (S.is_well storage.old) (S.shows storage.old group) self.old s → IsLawful self.old.id s
            → IfOk result (HasEnded S.stands (S.is_well storage.new) (S.shows storage.new group) self.old.id s (Receive message.now.sender m now) stop self.new) }
        ensures err { (m : Said) (s : GroupState) → Says S.stands message.now m → IsUp (S.is_well storage.old) (S.shows storage.old group) self.old s → IsLawful self.old.id s
            → OnErr result (HasStopped (S.shows storage.new group) (S.fails storage.new) self.old.id s (Receive message.now.sender m now) self.new) }
        ensures down { self.old.engine ≡ None → (result ≡ Ok Skipped) × (self.new ≡ self.old) × KeepsAll (S.shows storage.old) (S.shows storage.new) }
        ensures others { KeepsOthers (S.shows storage.old) (S.shows storage.new) group }
        ensures met { S.meets storage.old storage.new (result_err result) }
    {
        let Some(engine) = &mut self.engine else {
            return Ok(Ended::Skipped);
        };
        let mut beside = Member {
            id: self.id,
            engine: None,
            moment: self.moment,
            sendings: mem::replace(&mut self.sendings, SendingTimes::none()),
        };
        let told = beside.message(alloc, engine, message, now, stop, storage, group);
        self.join(beside, &told);
        told
    }
}
