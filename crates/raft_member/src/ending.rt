//! The end of an event: what the queue asks for is stored and sent.
ghost use Rattle.std.specs.Prelude.{◌≡◌, ℕ, IfOk, None, OnErr, OnOk, Some};
ghost use Rattle.std.specs.Option.{option_copied};
ghost use Rattle.raft_group_step.specs.StoredGroup.{StoredGroup as Stored};
ghost use Rattle.raft_group_step.specs.GroupState.{GroupState};
ghost use Rattle.raft_group_step.specs.StepResult.{StepResult};
ghost use Rattle.raft_engine.specs.Standing.{IsStateOf};
ghost use Rattle.raft_executor.specs.SendingTimes.{sent_at, time_after};
ghost use Rattle.std.specs.Result.{result_err};
ghost use Rattle.raft_group_storage.specs.Keeping.{KeepsOthers};
ghost use Rattle.raft_member.specs.Hearing.{IsOver};
ghost use Rattle.raft_member.specs.Member.{Engine as Running, IsDown, IsIdle};
ghost use Rattle.raft_member.specs.Running.{HasHalted, IsRun, RunsTo, left_at};

use crate::member::{ByteGroup, Ended, Member, let_go};
use raft_engine::Engine;
use raft_executor::{Sender, SendingTimes, messages, store_first};
use raft_group_storage::GroupStorage;
use std::alloc::Global;
use std::mem;

// The engine has nothing left to do.
pub(crate) fn come_to_rest(engine: &mut Engine<ByteGroup>)
    ensures leader { engine.new.leader ≡ engine.old.leader }
    ensures idle { (own : ℕ) (s : GroupState) → IsStateOf own engine.old s → IsIdle own engine.new s }
{
    engine.end_event();
}

impl Member {
    // The engine that was made for an event goes into its place, unless the event stopped or met a
    // fault.
    pub(crate) fn put_back<X, F>(&mut self, engine: Engine<ByteGroup>, told: &Result<Ended<X>, F>)
        ensures { self.new ≡ left_at told.now engine self.old }
    {
        let mut other = Member {
            id: self.id,
            engine: Some(engine),
            moment: 0,
            sendings: SendingTimes::none(),
        };
        match told {
            Ok(Ended::Done(_) | Ended::Refused(_)) => {
                mem::swap(&mut self.engine, &mut other.engine);
            }
            Ok(Ended::Stopped | Ended::Skipped) | Err(_) => {}
        }
        let_go(other);
    }

    // What an event left of the member beside its engine, which stayed in its place, goes back, unless
    // the event stopped or met a fault: then the engine goes, too. So an engine isn't moved for an
    // event.
    pub(crate) fn join<X, F>(&mut self, beside: Member, told: &Result<Ended<X>, F>)
        ensures { (e : Running) → self.old.engine ≡ Some e → beside.id ≡ self.old.id → self.new ≡ left_at told.now e beside }
    {
        let mut beside = beside;
        match told {
            Ok(Ended::Done(_) | Ended::Refused(_)) => {
                self.moment = beside.moment;
                mem::swap(&mut self.sendings, &mut beside.sendings);
            }
            Ok(Ended::Stopped | Ended::Skipped) | Err(_) => mem::swap(self, &mut beside),
        }
        let_go(beside);
    }

    // The step is done: what the queue asks for is stored in its order, and sent. The snapshot is
    // the one that a command stores. It is noted to which peers requests leave at this moment.
    pub(crate) fn end_taken<S: GroupStorage>(
        &mut self,
        alloc: Global,
        engine: &mut Engine<ByteGroup>,
        snapshot: Option<&S::Snapshot>,
        moment: u64,
        stop: Option<u64>,
        storage: &mut S,
        group: u64,
    ) -> Result<Ended<S::Snapshot>, S::Fault>
        ensures id { self.new.id ≡ self.old.id }
        ensures leader { engine.new.leader ≡ engine.old.leader }
        ensures over { IfOk result IsOver }
        ensures sendings { stop ≡ None → OnOk result ((n : ℕ) → sent_at self.new.sendings n ≡ time_after n moment engine.old.output.queue (sent_at self.old.sendings n)) }
        ensures well { S.is_well storage.old → OnOk result (S.is_well storage.new) }
        ensures ok { (old : Stored) (r : StepResult) → IsDown (S.is_well storage.old) (S.shows storage.old group) self.old old
            → IsRun S.stands self.old.id engine.old old r (option_copied snapshot.entry) moment
            → RunsTo S.stands (S.is_well storage.new) (S.shows storage.new group) old r stop engine.new self.new result }
        ensures err { (old : Stored) (r : StepResult) → IsDown (S.is_well storage.old) (S.shows storage.old group) self.old old
            → IsRun S.stands self.old.id engine.old old r (option_copied snapshot.entry) moment
            → OnErr result (HasHalted (S.shows storage.new group) (S.fails storage.new) old r self.new) }
        ensures others { KeepsOthers (S.shows storage.old) (S.shows storage.new) group }
        ensures met { S.meets storage.old storage.new (result_err result) }
    {
        store_first(&engine.output, stop, snapshot, storage, group)?;
        if stop.is_some() {
            return Ok(Ended::Stopped);
        }
        let sender = Sender {
            own: self.id,
            vote: *engine.state.state.vote.get(),
            committed: engine.state.state.committed,
        };
        let sent = messages(alloc, &sender, &engine.output, storage, group)?;
        self.sendings.note_sent(alloc, &engine.output, moment)?;
        self.moment = moment;
        come_to_rest(engine);
        Ok(Ended::Done(sent))
    }

    // The step is done, and none of its commands stores a snapshot.
    pub(crate) fn end_without_snapshot<S: GroupStorage>(
        &mut self,
        alloc: Global,
        engine: &mut Engine<ByteGroup>,
        moment: u64,
        stop: Option<u64>,
        storage: &mut S,
        group: u64,
    ) -> Result<Ended<S::Snapshot>, S::Fault>
        ensures id { self.new.id ≡ self.old.id }
        ensures leader { engine.new.leader ≡ engine.old.leader }
        ensures over { IfOk result IsOver }
        ensures sendings { stop ≡ None → OnOk result ((n : ℕ) → sent_at self.new.sendings n ≡ time_after n moment engine.old.output.queue (sent_at self.old.sendings n)) }
        ensures well { S.is_well storage.old → OnOk result (S.is_well storage.new) }
        ensures ok { (old : Stored) (r : StepResult) → IsDown (S.is_well storage.old) (S.shows storage.old group) self.old old
            → IsRun S.stands self.old.id engine.old old r None moment
            → RunsTo S.stands (S.is_well storage.new) (S.shows storage.new group) old r stop engine.new self.new result }
        ensures err { (old : Stored) (r : StepResult) → IsDown (S.is_well storage.old) (S.shows storage.old group) self.old old
            → IsRun S.stands self.old.id engine.old old r None moment
            → OnErr result (HasHalted (S.shows storage.new group) (S.fails storage.new) old r self.new) }
        ensures others { KeepsOthers (S.shows storage.old) (S.shows storage.new) group }
        ensures met { S.meets storage.old storage.new (result_err result) }
    {
        // Its type says which snapshots there would be.
        let none: Option<S::Snapshot> = None;
        self.end_taken(alloc, engine, none.as_ref(), moment, stop, storage, group)
    }
}
