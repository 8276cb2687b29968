//! What a member is asked for.
ghost use Rattle.std.specs.Prelude.{◌≡◌, ℕ, Ok, IfOk, IfErr, OnOk, OnErr, None, max, true};
ghost use Rattle.std.specs.Option.{option_copied};
ghost use Rattle.raft_group_step.specs.StoredGroup.{Snapshot};
ghost use Rattle.raft_group_step.specs.GroupState.{GroupState};
ghost use Rattle.raft_group_step.specs.GroupEvent.{Call};
ghost use Rattle.raft_group_step.specs.Values.{ChangeMembers};
ghost use Rattle.raft_group_step.specs.declared.group_call.GroupCall.TheVariants.{ChangeMembership, Heartbeat, Initialize, Lost, Propose, TriggerSnapshot};
ghost use Rattle.raft_engine.specs.Events.{HasTaken, MayTake};
ghost use Rattle.raft_group_step.specs.GroupStep.{group_step};
ghost use Rattle.raft_group_step.specs.Refusal.{refusal_of};
ghost use Rattle.std.specs.Result.{result_err};
ghost use Rattle.raft_group_storage.specs.Keeping.{KeepsAll, KeepsOthers};
ghost use Rattle.raft_member.specs.Faults.{fault_met_by_event};
ghost use Rattle.raft_member.specs.Member.{HasBrokenOff, HasEnded, IsBuilt, IsDown, IsIdle, IsLawful, IsUp};
ghost use Rattle.raft_member.specs.Running.{EndsTo, HasHalted, RunsTo};
ghost use Rattle.raft_member.specs.declared.member.Ended.TheVariants.{Skipped};

use crate::facts::{facts_of, membership_in_force};
use crate::member::{Broken, ByteGroup, Ended, Member};
use raft_conditions::{GroupCommand, changed_membership};
use raft_engine::Engine;
use raft_executor::{SendingTimes, meta_of};
use raft_group_step::GroupCall;
use raft_group_storage::GroupStorage;
use raft_state::{BasicNode, Bytes, ChangeMembers, Membership};
use std::alloc::{AllocError, Global};
use std::mem;

// The leader takes what the change makes of the membership in force.
fn change(
    alloc: Global,
    change: &ChangeMembers<u64, BasicNode>,
    engine: &mut Engine<ByteGroup>,
) -> Result<(), AllocError>
    ensures { (x : Snapshot) (own at token : ℕ) (s : GroupState) → MayTake own engine.old s (Call (ChangeMembership change.now token) at)
        → OnOk result (HasTaken x own engine.old engine.new s (Call (ChangeMembership change.now token) at)) }
{
    let Some((_, old)) = membership_in_force(&engine.state) else {
        return Ok(());
    };
    let Some(new) = changed_membership(alloc, old, change)? else {
        return Ok(());
    };
    if !engine.has_room() {
        return Ok(());
    }
    let _answer = engine.change_membership(new)?;
    Ok(())
}

// The group is set up with this membership.
fn initialize(
    membership: &Membership<u64, BasicNode>,
    moment: u64,
    engine: &mut Engine<ByteGroup>,
) -> Result<(), AllocError>
    ensures { (x : Snapshot) (own at : ℕ) (s : GroupState) → moment ≡ max s.now at → MayTake own engine.old s (Call (Initialize membership.now) at)
        → OnOk result (HasTaken x own engine.old engine.new s (Call (Initialize membership.now) at)) }
{
    let copy = membership.clone()?;
    let _answer = engine.initialize(copy, moment)?;
    Ok(())
}

// The leader takes a command.
fn propose(command: &Bytes, engine: &mut Engine<ByteGroup>) -> Result<(), AllocError>
    ensures { (x : Snapshot) (own at token : ℕ) (s : GroupState) → MayTake own engine.old s (Call (Propose command.now token) at)
        → OnOk result (HasTaken x own engine.old engine.new s (Call (Propose command.now token) at)) }
{
    if !engine.has_room() {
        return Ok(());
    }
    let _answer = engine.propose(command.clone()?)?;
    Ok(())
}

// The leader says that it leads on.
fn beat(engine: &mut Engine<ByteGroup>) -> Result<(), AllocError>
    ensures { (x : Snapshot) (own at : ℕ) (s : GroupState) → MayTake own engine.old s (Call Heartbeat at)
        → OnOk result (HasTaken x own engine.old engine.new s (Call Heartbeat at)) }
{
    let _answer = engine.send_heartbeat()?;
    Ok(())
}

// The leader's request to the peer counts as failed.
fn lose(peer: u64, engine: &mut Engine<ByteGroup>) -> Result<(), AllocError>
    ensures { (x : Snapshot) (own at : ℕ) (s : GroupState) → MayTake own engine.old s (Call (Lost peer) at)
        → OnOk result (HasTaken x own engine.old engine.new s (Call (Lost peer) at)) }
{
    let _answer = engine.handle_lost(peer)?;
    Ok(())
}

// The engine does what the call asks, but for a snapshot, at this moment.
fn take_call(
    alloc: Global,
    call: &GroupCommand,
    moment: u64,
    engine: &mut Engine<ByteGroup>,
) -> Result<(), AllocError>
    ensures { (x : Snapshot) (own at : ℕ) (s : GroupState) → moment ≡ max s.now at → (call.now ≡ TriggerSnapshot → ⊥)
        → MayTake own engine.old s (Call call.now at)
        → OnOk result (HasTaken x own engine.old engine.new s (Call call.now at)) }
{
    match call {
        GroupCall::Initialize { membership } => initialize(membership, moment, engine),
        GroupCall::Elect => engine.elect(moment),
        GroupCall::Propose { command, .. } => propose(command, engine),
        GroupCall::ChangeMembership { change, .. } => self::change(alloc, change, engine),
        GroupCall::Heartbeat => beat(engine),
        GroupCall::Lost { peer } => lose(*peer, engine),
        GroupCall::TriggerSnapshot => Ok(()),
        GroupCall::TriggerPurge { place } => engine.trigger_purge_log(*place),
    }
}

impl Member {
    // The snapshot of what is applied, which was built, is stored, where the last one doesn't have
    // that.
    fn snapshot_call<S: GroupStorage>(
        &mut self,
        alloc: Global,
        engine: &mut Engine<ByteGroup>,
        built: Option<&S::Snapshot>,
        moment: u64,
        stop: Option<u64>,
        storage: &mut S,
        group: u64,
    ) -> Result<Ended<S::Snapshot>, S::Fault>
        ensures id { self.new.id ≡ self.old.id }
        ensures well { S.is_well storage.old → OnOk result (S.is_well storage.new) }
        ensures ok { (at : ℕ) (s : GroupState) → IsBuilt S.stands (option_copied built.entry) s
            → IsDown (S.is_well storage.old) (S.shows storage.old group) self.old s.stored → IsIdle self.old.id engine.old s → moment ≡ max s.now at
            → MayTake self.old.id engine.old s (Call TriggerSnapshot at)
            → RunsTo S.stands (S.is_well storage.new) (S.shows storage.new group) s.stored (group_step self.old.id s (Call TriggerSnapshot at)) stop engine.new self.new result }
        ensures err { (at : ℕ) (s : GroupState) → IsBuilt S.stands (option_copied built.entry) s
            → IsDown (S.is_well storage.old) (S.shows storage.old group) self.old s.stored → IsIdle self.old.id engine.old s → moment ≡ max s.now at
            → MayTake self.old.id engine.old s (Call TriggerSnapshot at)
            → OnErr result (HasHalted (S.shows storage.new group) (S.fails storage.new) s.stored (group_step self.old.id s (Call TriggerSnapshot at)) self.new) }
        ensures others { KeepsOthers (S.shows storage.old) (S.shows storage.new) group }
        ensures met { S.meets storage.old storage.new (result_err result) }
    {
        if !engine.trigger_snapshot()? {
            return self.end_without_snapshot(alloc, engine, moment, stop, storage, group);
        }
        let Some(snapshot) = built else {
            return Ok(Ended::Skipped);
        };
        // (it was asked for just now)
        let _answer = engine.finish_building_snapshot(meta_of(alloc, S::head(snapshot))?)?;
        self.end_taken(alloc, engine, Some(snapshot), moment, stop, storage, group)
    }

    // A call that isn't refused.
    fn accepted_call<S: GroupStorage>(
        &mut self,
        alloc: Global,
        engine: &mut Engine<ByteGroup>,
        call: &GroupCommand,
        built: Option<&S::Snapshot>,
        moment: u64,
        stop: Option<u64>,
        storage: &mut S,
        group: u64,
    ) -> Result<Ended<S::Snapshot>, S::Fault>
        ensures id { self.new.id ≡ self.old.id }
        ensures well { S.is_well storage.old → OnOk result (S.is_well storage.new) }
        ensures ok { (at : ℕ) (s : GroupState) → (call.now ≡ TriggerSnapshot → IsBuilt S.stands (option_copied built.entry) s)
            → IsDown (S.is_well storage.old) (S.shows storage.old group) self.old s.stored → IsIdle self.old.id engine.old s → moment ≡ max s.now at
            → MayTake self.old.id engine.old s (Call call.now at)
            → RunsTo S.stands (S.is_well storage.new) (S.shows storage.new group) s.stored (group_step self.old.id s (Call call.now at)) stop engine.new self.new result }
        ensures err { (at : ℕ) (s : GroupState) → (call.now ≡ TriggerSnapshot → IsBuilt S.stands (option_copied built.entry) s)
            → IsDown (S.is_well storage.old) (S.shows storage.old group) self.old s.stored → IsIdle self.old.id engine.old s → moment ≡ max s.now at
            → MayTake self.old.id engine.old s (Call call.now at)
            → OnErr result (HasHalted (S.shows storage.new group) (S.fails storage.new) s.stored (group_step self.old.id s (Call call.now at)) self.new) }
        ensures others { KeepsOthers (S.shows storage.old) (S.shows storage.new) group }
        ensures met { S.meets storage.old storage.new (result_err result) }
    {
        if matches!(call, GroupCall::TriggerSnapshot) {
            return self.snapshot_call(alloc, engine, built, moment, stop, storage, group);
        }
        take_call(alloc, call, moment, engine)?;
        self.end_without_snapshot(alloc, engine, moment, stop, storage, group)
    }

    // A call comes while the engine is taken out.
    fn call<S: GroupStorage>(
        &mut self,
        alloc: Global,
        engine: &mut Engine<ByteGroup>,
        call: &GroupCommand,
        built: Option<&S::Snapshot>,
        now: u64,
        stop: Option<u64>,
        storage: &mut S,
        group: u64,
    ) -> Result<Ended<S::Snapshot>, Broken<S::Fault>>
        ensures id { self.new.id ≡ self.old.id }
        ensures well { S.is_well storage.old → OnOk result (S.is_well storage.new) }
        ensures ok { (s : GroupState) → (call.now ≡ TriggerSnapshot → IsBuilt S.stands (option_copied built.entry) s)
            → IsDown (S.is_well storage.old) (S.shows storage.old group) self.old s.stored → self.old.moment ≡ s.now → IsIdle self.old.id engine.old s → IsLawful self.old.id s
            → EndsTo S.stands (S.is_well storage.new) (S.shows storage.new group) self.old.id s (Call call.now now) stop engine.new self.new result }
        ensures err { (s : GroupState) → (call.now ≡ TriggerSnapshot → IsBuilt S.stands (option_copied built.entry) s)
            → IsDown (S.is_well storage.old) (S.shows storage.old group) self.old s.stored → self.old.moment ≡ s.now → IsIdle self.old.id engine.old s → IsLawful self.old.id s
            → IfErr result (HasBrokenOff (S.is_well storage.new) (S.shows storage.new group) (S.fails storage.new) self.old.id s (Call call.now now) self.new) }
        ensures taken { (s : GroupState) → s.stored.present ≡ true → IsIdle self.old.id engine.old s → IsLawful self.old.id s
            → OnErr result (refusal_of self.old.id s (Call call.now now) ≡ None) }
        ensures others { KeepsOthers (S.shows storage.old) (S.shows storage.new) group }
        ensures met { S.meets storage.old storage.new (fault_met_by_event result) }
    {
        let refusal = match facts_of(self.id, engine).call_refusal(alloc, call, now) {
            Ok(refusal) => refusal,
            Err(refused) => return Err(Broken::Unjudged(refused)),
        };
        if let Some(refusal) = refusal {
            return Ok(Ended::Refused(refusal));
        }
        let moment = self.moment.max(now);
        match self.accepted_call(alloc, engine, call, built, moment, stop, storage, group) {
            Ok(ended) => Ok(ended),
            Err(met) => Err(Broken::Begun(met)),
        }
    }

    /// The member is asked for something at this moment, in ticks (own); one before the last one
    /// counts as the last one. It may stop after so many storing commands, unless it is refused.
    /// Where a snapshot is to be built, that of what is applied is handed in, `built`. At a fault
    /// of the storage, or without memory, the member is down, as it was or with some of the storing
    /// commands done, from the first on; the one that failed is or isn't. A call that is refused
    /// meets neither. Other groups are as they were.
    pub fn ask<S: GroupStorage>(
        &mut self,
        alloc: Global,
        call: &GroupCommand,
        built: Option<&S::Snapshot>,
        now: u64,
        stop: Option<u64>,
        storage: &mut S,
        group: u64,
    ) -> Result<Ended<S::Snapshot>, Broken<S::Fault>>
        ensures id { self.new.id ≡ self.old.id }
        ensures well { S.is_well storage.old → OnOk result (S.is_well storage.new) }
        ensures ok { (s : GroupState) → (call.now ≡ TriggerSnapshot → IsBuilt S.stands (option_copied built.entry) s)
            → IsUp (S.is_well storage.old) (S.shows storage.old group) self.old s → IsLawful self.old.id s
            → IfOk result (HasEnded S.stands (S.is_well storage.new) (S.shows storage.new group) self.old.id s (Call call.now now) stop self.new) }
        ensures err { (s : GroupState) → (call.now ≡ TriggerSnapshot → IsBuilt S.stands (option_copied built.entry) s)
            → IsUp (S.is_well storage.old) (S.shows storage.old group) self.old s → IsLawful self.old.id s
            → IfErr result (HasBrokenOff (S.is_well storage.new) (S.shows storage.new group) (S.fails storage.new) self.old.id s (Call call.now now) self.new) }
        ensures taken { (s : GroupState) → IsUp (S.is_well storage.old) (S.shows storage.old group) self.old s → IsLawful self.old.id s
            → OnErr result (refusal_of self.old.id s (Call call.now now) ≡ None) }
        ensures down { self.old.engine ≡ None → (result ≡ Ok Skipped) × (self.new ≡ self.old) × KeepsAll (S.shows storage.old) (S.shows storage.new) }
        ensures others { KeepsOthers (S.shows storage.old) (S.shows storage.new) group }
        ensures met { S.meets storage.old storage.new (fault_met_by_event result) }
    {
        let Some(engine) = &mut self.engine else {
            return Ok(Ended::Skipped);
        };
        let mut beside = Member {
            id: self.id,
            engine: None,
            moment: self.moment,
            sendings: mem::replace(&mut self.sendings, SendingTimes::none()),
        };
        let told = beside.call(alloc, engine, call, built, now, stop, storage, group);
        self.join(beside, &told);
        told
    }
}
