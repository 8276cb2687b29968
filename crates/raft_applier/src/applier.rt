//! A node's machine of a group, and those that wait for it.
ghost use Rattle.std.specs.Prelude.{◌≡◌, ◌<◌, ◌^◌, ◌++◌, ◌∷◌, [], ℕ, IfOk, OnOk, OnErr, Some, List, drop, length};
ghost use Rattle.raft_values.specs.LogId.{next_place, place_of};
ghost use Rattle.raft_group_step.specs.Values.{Entry};
ghost use Rattle.raft_group_step.specs.StoredGroup.{StoredGroup as Stored, end_place};
ghost use Rattle.raft_group_step.specs.GroupState.{GroupState, Untold as Waiting, state_of};
ghost use Rattle.raft_group_step.specs.GroupEvent.{GroupEvent, Open};
ghost use Rattle.raft_group_step.specs.GroupStep.{group_step};
ghost use Rattle.raft_group_step.specs.Refusal.{refusal_of};
ghost use Rattle.raft_group_step.specs.StepResult.{tokens_of as waiting_tokens};
ghost use Rattle.std.specs.Result.{result_err};
ghost use Rattle.raft_group_storage.specs.Keeping.{FailsAnyhow, KeepsAll};
ghost use Rattle.raft_member.specs.Member.{IsIdle, IsUp};
ghost use Rattle.raft_machines.specs.Fold.{fold_of};
ghost use Rattle.raft_machines.specs.Telling.{AreToldAs, untold_of};
ghost use Rattle.raft_step_laws.specs.Tokens.{RiseFrom};
ghost use Rattle.raft_applier.specs.Applied.{HasGone, IsCaughtUp, answers_of};
ghost use Rattle.raft_applier.specs.Following.{AreOfMachine, HasWholeSnapshot, IsStep, with_brought};
ghost use Rattle.raft_applier.specs.Running.{HasRun, due_at, later_than};

use crate::applied::{Applied, Progress};
use crate::running::{entries_after, restore, run_rest};
use crate::seen::{next_place_of, seen_of};
use crate::waiting::{due_count, leads_on, tokens_of, without_one};
use raft_group_storage::GroupStorage;
use raft_machines::{StateMachine, Untold};
use raft_member::Member;
use raft_messages::{GroupEntry, SnapshotBytes};
use raft_state::{KeptVec, LogId};
use std::alloc::{AllocError, Global};

/// What a node applies of a group (own): the machine that runs the group's entries, how far it has
/// come, and the tokens that are to be told of theirs. What is committed the member knows; entries
/// and the snapshot stand in the storage.
#[derive(Drop)]
pub struct Applier<M: StateMachine> {
    /// The machine.
    pub machine: M,
    /// How far it has run, and who waits.
    pub applied: Applied,
}

impl<M: StateMachine> Applier<M> {
    /// A machine that has run nothing, for which nobody waits (own): of a new group, or of one that
    /// is to be opened. It fails for want of memory alone.
    pub fn new(alloc: Global) -> Result<Applier<M>, AllocError>
        ensures { (st : Stored) → IfOk result (λ a. IsCaughtUp M.rules (M.state a.machine) a.applied (state_of st)) }
    {
        let machine = M::new(alloc)?;
        let applied = Applied {
            last: None,
            lead: None,
            waiting: KeptVec::new(alloc),
        };
        Ok(Applier { machine, applied })
    }

    /// A group that was opened is caught up with: the machine goes to the snapshot and runs what is
    /// committed, and nobody waits (own). It fails for want of memory, and by the storage's fault.
    pub fn open<S: GroupStorage<Snapshot = SnapshotBytes>>(
        alloc: Global,
        member: &Member,
        storage: &mut S,
        group: u64,
    ) -> Result<Applier<M>, S::Fault>
        ensures well { S.is_well storage.old → OnOk result (S.is_well storage.new) }
        ensures ok { (st : Stored) → AreOfMachine M.rules S.stands → refusal_of member.now.id (state_of st) Open ≡ None
            → IsUp (S.is_well storage.old) (S.shows storage.old group) member.now (group_step member.now.id (state_of st) Open).state
            → HasWholeSnapshot (group_step member.now.id (state_of st) Open).state
            → IfOk result (λ a. IsCaughtUp M.rules (M.state a.machine) a.applied (group_step member.now.id (state_of st) Open).state) }
        ensures failed { (s : Stored) → S.is_well storage.old → S.shows storage.old group (s ∷ []) → OnErr result (FailsAnyhow (S.fails storage.new)) }
        ensures kept { KeepsAll (S.shows storage.old) (S.shows storage.new) }
        ensures met { S.meets storage.old storage.new (result_err result) }
    {
        let mut applier = Applier::new(alloc)?;
        let _progress = applier.catch_up(alloc, member, storage, group)?;
        Ok(applier)
    }

    /// The token waits for the group's next place, before the event that is to store its entry there
    /// (own). So a node that stops in that event names it with the others, without memory. It fails
    /// for want of memory alone, and nothing changes then.
    pub fn take_token(&mut self, member: &Member, token: u64) -> Result<(), AllocError>
        ensures ok { (e : _) (s : GroupState) → member.now.engine ≡ Some e → IsIdle member.now.id e s → end_place s.stored < 2 ^ 64
            → IsCaughtUp M.rules (M.state self.old.machine) self.old.applied s
            → OnOk result (IsCaughtUp M.rules (M.state self.new.machine) self.new.applied (record s { untold = s.untold ++ record { token = token; place = end_place s.stored } ∷ [] })) }
        ensures err { (s : GroupState) → IsCaughtUp M.rules (M.state self.old.machine) self.old.applied s
            → OnErr result (IsCaughtUp M.rules (M.state self.new.machine) self.new.applied s) }
    {
        let place = next_place_of(member);
        self.applied.waiting.push(Untold { token, place })?;
        Ok(())
    }

    /// The last token that was taken waits no more (own): its event was refused.
    pub fn give_back_token(&mut self)
        ensures { (s : GroupState) (x : Waiting) → IsCaughtUp M.rules (M.state self.old.machine) self.old.applied (record s { untold = s.untold ++ x ∷ [] })
            → IsCaughtUp M.rules (M.state self.new.machine) self.new.applied s }
    {
        let kept = without_one(self.applied.waiting.len());
        self.applied.waiting.truncate(kept);
    }

    // The node leads on: those that wait for what is run are told, and the others wait on.
    fn tell(
        &mut self,
        alloc: Global,
        last: Option<LogId<u64>>,
        upto: Option<LogId<u64>>,
        entries: &[GroupEntry],
    ) -> Result<Progress, AllocError>
        ensures state { (list : List Entry) → entries.now ≡ drop (next_place last) list → HasRun M.rules (M.state self.old.machine) last list
            → OnOk result (M.state self.new.machine ≡ fold_of M.rules list) }
        ensures told { (list : List Entry) → entries.now ≡ drop (next_place last) list → HasRun M.rules (M.state self.old.machine) last list
            → length list ≡ next_place upto → RiseFrom (next_place last) (untold_of self.old.applied.waiting)
            → IfOk result (λ progress. AreToldAs (answers_of M.rules list) progress.told.items (due_at (place_of upto) (untold_of self.old.applied.waiting))) }
        ensures unknown { IfOk result (λ progress. progress.unknown.items ≡ []) }
        ensures waiting { (place : ℕ) → RiseFrom place (untold_of self.old.applied.waiting)
            → OnOk result (untold_of self.new.applied.waiting ≡ later_than (place_of upto) (untold_of self.old.applied.waiting)) }
        ensures err { OnErr result (self.new.applied.waiting ≡ self.old.applied.waiting) }
    {
        let waiting = self.applied.waiting.as_slice();
        let due = due_count(waiting, &upto);
        let told = run_rest(alloc, &mut self.machine, last, entries, &waiting[..due])?;
        self.applied.waiting.drop_front(due);
        let unknown = Vec::new(alloc);
        Ok(Progress { told, unknown })
    }

    // The node doesn't lead on: nobody is told, and those that wait never will be.
    fn forget(
        &mut self,
        alloc: Global,
        last: Option<LogId<u64>>,
        entries: &[GroupEntry],
    ) -> Result<Progress, AllocError>
        ensures state { (list : List Entry) → entries.now ≡ drop (next_place last) list → HasRun M.rules (M.state self.old.machine) last list
            → OnOk result (M.state self.new.machine ≡ fold_of M.rules list) }
        ensures told { (list : List Entry) → entries.now ≡ drop (next_place last) list → HasRun M.rules (M.state self.old.machine) last list
            → IfOk result (λ progress. progress.told.items ≡ []) }
        ensures unknown { IfOk result (λ progress. progress.unknown.items ≡ waiting_tokens (untold_of self.old.applied.waiting)) }
        ensures waiting { OnOk result (untold_of self.new.applied.waiting ≡ []) }
        ensures err { OnErr result (self.new.applied.waiting ≡ self.old.applied.waiting) }
    {
        let told = run_rest(alloc, &mut self.machine, last, entries, &[])?;
        let unknown = tokens_of(alloc, self.applied.waiting.as_slice())?;
        self.applied.waiting.clear();
        Ok(Progress { told, unknown })
    }

    /// Follows an event of the group that ended `Done` (own). Where a snapshot came that goes past what
    /// the machine has run, the machine is restored from it. Then it runs what is committed, and tells
    /// the tokens that wait for that; where the node's lead has ended, all that wait stay unknown. It
    /// fails for want of memory, and by the storage's fault: the same tokens wait then, for the node to
    /// name them, and the applier is to be given up.
    pub fn catch_up<S: GroupStorage<Snapshot = SnapshotBytes>>(
        &mut self,
        alloc: Global,
        member: &Member,
        storage: &mut S,
        group: u64,
    ) -> Result<Progress, S::Fault>
        ensures well { S.is_well storage.old → OnOk result (S.is_well storage.new) }
        ensures ok { (s : GroupState) (e : GroupEvent) → AreOfMachine M.rules S.stands → IsStep member.now.id s e
            → IsUp (S.is_well storage.old) (S.shows storage.old group) member.now (group_step member.now.id s e).state
            → IsCaughtUp M.rules (M.state self.old.machine) self.old.applied (with_brought s e)
            → OnOk result (IsCaughtUp M.rules (M.state self.new.machine) self.new.applied (group_step member.now.id s e).state) }
        ensures gone { (s : GroupState) (e : GroupEvent) → AreOfMachine M.rules S.stands → IsStep member.now.id s e
            → IsUp (S.is_well storage.old) (S.shows storage.old group) member.now (group_step member.now.id s e).state
            → IsCaughtUp M.rules (M.state self.old.machine) self.old.applied (with_brought s e)
            → IfOk result (HasGone M.rules (group_step member.now.id s e)) }
        ensures err { OnErr result (self.new.applied.waiting ≡ self.old.applied.waiting) }
        ensures failed { (s : Stored) → S.is_well storage.old → S.shows storage.old group (s ∷ []) → OnErr result (FailsAnyhow (S.fails storage.new)) }
        ensures kept { KeepsAll (S.shows storage.old) (S.shows storage.new) }
        ensures met { S.meets storage.old storage.new (result_err result) }
    {
        let Some(engine) = member.engine() else {
            return Ok(Progress::none(alloc));
        };
        let seen = seen_of(engine);
        let machine = &mut self.machine;
        let last = restore(
            alloc,
            machine,
            self.applied.last,
            seen.snapshot,
            storage,
            group,
        )?;
        let entries = entries_after(alloc, last, seen.committed, storage, group)?;
        let progress = if leads_on(self.applied.lead, seen.lead) {
            self.tell(alloc, last, seen.committed, entries.as_slice())?
        } else {
            self.forget(alloc, last, entries.as_slice())?
        };
        self.applied.last = seen.committed;
        self.applied.lead = seen.lead;
        Ok(progress)
    }
}
