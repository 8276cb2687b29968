//! A node is opened over its storage.
ghost use Rattle.std.specs.Prelude.{◌≡◌, [], ◌∷◌, ℕ, IfErr, IfOk, MatchResult, None, OnErr, OnOk, false, true};
ghost use Rattle.std.specs.List.{AllZip};
ghost use Rattle.std.specs.Ordering.{nat_cmp};
ghost use Rattle.std.specs.BTreeMap.{get};
ghost use Rattle.raft_group_step.specs.StoredGroup.{StoredGroup as Stored};
ghost use Rattle.raft_group_step.specs.GroupEvent.{Open};
ghost use Rattle.raft_group_step.specs.GroupState.{state_of};
ghost use Rattle.raft_group_step.specs.GroupStep.{group_step};
ghost use Rattle.std.specs.Result.{result_err};
ghost use Rattle.raft_group_storage.specs.Keeping.{FailsAnyhow, KeepsAll, KeepsOthers};
ghost use Rattle.raft_laws.specs.GroupWorld.{Up};
ghost use Rattle.raft_applier.specs.Following.{AreOfMachine, HasWholeSnapshot};
ghost use Rattle.raft_framed_groups.specs.Answers.{Stands};
ghost use Rattle.raft_framed_groups.specs.Frames.{IsFramed};
ghost use Rattle.raft_wire.specs.Stream.{fresh};
ghost use Rattle.raft_node_faults.specs.Fault.{fault_met_by_node, storage_fault_of};
ghost use Rattle.raft_node.specs.Opening.{AreThere, HasNotOpened, HasOpened, IsBegun, IsReopened, IsUntouched, Keeps, OpensGroup, StopsNaming};
ghost use Rattle.raft_node.specs.Settling.{IsTold};
ghost use Rattle.raft_node.specs.Standing.{IsAt, feeding_of, running_in, value_of};

use crate::machines::Machines;
use crate::node::Node;
use crate::outcome::Outcome;
use raft_applier::Applier;
use raft_framed_groups::frames_of;
use raft_group_storage::GroupStorage;
use raft_machines::StateMachine;
use raft_member::Ended;
use raft_messages::{Message, SnapshotBytes};
use raft_node_faults::{Cause, Fault};
use std::alloc::{AllocError, Global};

/// A node that was opened (own).
#[derive(Drop)]
pub struct Opened<M: StateMachine, S: GroupStorage<Snapshot = SnapshotBytes>> {
    /// The node.
    pub node: Node<M, S>,
    /// What the opening of each group did, by rising group.
    pub outcomes: Vec<Outcome>,
}

/// A node that wasn't opened (own).
#[derive(Drop)]
pub struct NotOpened<S: GroupStorage> {
    /// Why: `Stopped` (16).
    pub fault: Fault<S::Fault>,
    /// The storage, handed back.
    pub storage: S,
}

impl<M: StateMachine, S: GroupStorage<Snapshot = SnapshotBytes>> Node<M, S> {
    // The machine of a group that was opened goes to what is applied.
    fn seat_opened(&mut self, group: u64) -> Result<(), S::Fault>
        ensures ok { (st : Stored) → AreOfMachine M.rules S.stands
            → Stands (value_of M.state S.is_well S.shows S.fails self.old).groups group (Up (group_step self.old.groups.id (state_of st) Open).state)
            → HasWholeSnapshot (group_step self.old.groups.id (state_of st) Open).state
            → OnOk result (IsAt M.rules (value_of M.state S.is_well S.shows S.fails self.new) group (group_step self.old.groups.id (state_of st) Open).state) }
        ensures groups { self.new.groups ≡ record self.old.groups { storage = self.new.groups.storage } }
        ensures feeders { self.new.feeders ≡ self.old.feeders }
        ensures failed { (s : Stored) → S.is_well self.old.groups.storage → S.shows self.old.groups.storage group (s ∷ [])
            → OnErr result (FailsAnyhow (S.fails self.new.groups.storage)) }
        ensures kept { KeepsAll (S.shows self.old.groups.storage) (S.shows self.new.groups.storage) }
        ensures others { (other : ℕ) → (other ≡ group → ⊥) → running_in M.state self.new.machines other ≡ running_in M.state self.old.machines other }
        ensures err { (other : ℕ) → OnErr result (running_in M.state self.new.machines other ≡ running_in M.state self.old.machines other) }
        ensures met { S.meets self.old.groups.storage self.new.groups.storage (result_err result) }
    {
        let Some(member) = self.groups.members.get(&group) else {
            return Ok(());
        };
        let applier = Applier::open(self.alloc, member, &mut self.groups.storage, group)?;
        self.seat(group, applier)?;
        Ok(())
    }

    // What an opening sends.
    fn opened(
        &mut self,
        group: u64,
        messages: Vec<Message<SnapshotBytes>>,
    ) -> Result<Outcome, Fault<S::Fault>>
        ensures group { IfOk result (λ o. o.group ≡ group) }
        ensures frames { IfOk result (λ o. AllZip (IsFramed group) messages.items o.frames.items) }
        ensures told { IfOk result (λ o. o.told.items ≡ []) }
        ensures unknown { IfOk result (λ o. o.unknown.items ≡ []) }
        ensures same { OnOk result (self.new ≡ self.old) }
        ensures id { self.new.groups.id ≡ self.old.groups.id }
        ensures names { IfErr result (StopsNaming (value_of M.state S.is_well S.shows S.fails self.old).running) }
        ensures err { IfErr result (IsTold (self.new ≡ self.old) (value_of M.state S.is_well S.shows S.fails self.old) (value_of M.state S.is_well S.shows S.fails self.new)) }
        ensures cause { fault_met_by_node result ≡ None }
        ensures storage { self.new.groups.storage ≡ self.old.groups.storage }
    {
        match frames_of(self.alloc, group, messages) {
            Ok(frames) => Ok(Outcome {
                group,
                frames,
                told: Vec::new(self.alloc),
                unknown: Vec::new(self.alloc),
            }),
            Err(why) => Err(self.unsent(why)),
        }
    }

    // A group that is stored is opened.
    fn open_group(&mut self, group: u64) -> Result<Outcome, Fault<S::Fault>>
        ensures opened { (st : Stored) → AreOfMachine M.rules S.stands → self.old.groups.has_failed ≡ false → S.is_well self.old.groups.storage
            → IsUntouched (value_of M.state S.is_well S.shows S.fails self.old) group st → st.present ≡ true → IsReopened self.old.groups.id st
            → OpensGroup M.rules S.stands (value_of M.state S.is_well S.shows S.fails self.old) (value_of M.state S.is_well S.shows S.fails self.new) group st result }
        ensures members { (other : ℕ) → (other ≡ group → ⊥) → get nat_cmp self.new.groups.members other ≡ get nat_cmp self.old.groups.members other }
        ensures running { (other : ℕ) → (other ≡ group → ⊥) → OnOk result (running_in M.state self.new.machines other ≡ running_in M.state self.old.machines other) }
        ensures kept { KeepsOthers (S.shows self.old.groups.storage) (S.shows self.new.groups.storage) group }
        ensures id { self.new.groups.id ≡ self.old.groups.id }
        ensures going { OnOk result (self.new.groups.has_failed ≡ self.old.groups.has_failed) }
        ensures feeders { OnOk result (self.new.feeders ≡ self.old.feeders) }
        ensures met { S.meets self.old.groups.storage self.new.groups.storage (fault_met_by_node result) }
    {
        let messages = match self.groups.open_group(group) {
            Ok(Ended::Done(messages)) => messages,
            Ok(_) => return Err(Fault::UnknownGroup),
            Err(fault) => return Err(self.groups_fault(fault)),
        };
        if let Err(met) = self.seat_opened(group) {
            return Err(self.stop(Cause::Storage(met)));
        }
        self.opened(group, messages)
    }

    // The node has room for its groups from now on.
    fn make_machines(&mut self) -> Result<(), AllocError>
        ensures none { (group : ℕ) → OnOk result (running_in M.state self.new.machines group ≡ None) }
        ensures err { OnErr result (self.new.machines ≡ self.old.machines) }
        ensures groups { self.new.groups ≡ self.old.groups }
        ensures feeders { self.new.feeders ≡ self.old.feeders }
    {
        let machines = Machines::new(self.alloc)?;
        self.machines = Some(machines);
        Ok(())
    }

    // The groups that are stored are opened, in the order of these ids.
    fn open_each(&mut self, groups: &[u64]) -> Result<Vec<Outcome>, Fault<S::Fault>>
        ensures opened { (kept : ℕ → Stored) → AreOfMachine M.rules S.stands → IsBegun (value_of M.state S.is_well S.shows S.fails self.old) kept → AreThere kept groups.now
            → IfOk result (λ outcomes. HasOpened M.rules S.stands kept (value_of M.state S.is_well S.shows S.fails self.new) outcomes.items) }
        ensures stopped { (kept : ℕ → Stored) → AreOfMachine M.rules S.stands → IsBegun (value_of M.state S.is_well S.shows S.fails self.old) kept → AreThere kept groups.now
            → IfErr result (HasNotOpened self.old.groups.id kept (S.shows self.new.groups.storage) (S.fails self.new.groups.storage)) }
        ensures id { self.new.groups.id ≡ self.old.groups.id }
        ensures going { OnOk result (self.new.groups.has_failed ≡ self.old.groups.has_failed) }
        ensures feeders { OnOk result (self.new.feeders ≡ self.old.feeders) }
        ensures met { S.meets self.old.groups.storage self.new.groups.storage (fault_met_by_node result) }
    {
        let mut outcomes = Vec::new(self.alloc);
        for group in groups {
            let outcome = match self.open_group(*group) {
                Ok(outcome) => outcome,
                Err(why) => return Err(why),
            };
            if outcomes.push(outcome).is_err() {
                return Err(self.stop(Cause::Memory));
            }
        }
        Ok(outcomes)
    }

    // All groups that are stored are opened, by rising id.
    fn open_groups(&mut self) -> Result<Vec<Outcome>, Fault<S::Fault>>
        ensures opened { (kept : ℕ → Stored) → AreOfMachine M.rules S.stands → IsBegun (value_of M.state S.is_well S.shows S.fails self.old) kept
            → IfOk result (λ outcomes. HasOpened M.rules S.stands kept (value_of M.state S.is_well S.shows S.fails self.new) outcomes.items) }
        ensures stopped { (kept : ℕ → Stored) → AreOfMachine M.rules S.stands → IsBegun (value_of M.state S.is_well S.shows S.fails self.old) kept
            → IfErr result (HasNotOpened self.old.groups.id kept (S.shows self.new.groups.storage) (S.fails self.new.groups.storage)) }
        ensures id { self.new.groups.id ≡ self.old.groups.id }
        ensures going { OnOk result (self.new.groups.has_failed ≡ self.old.groups.has_failed) }
        ensures feeders { OnOk result (self.new.feeders ≡ self.old.feeders) }
        ensures met { S.meets self.old.groups.storage self.new.groups.storage (fault_met_by_node result) }
    {
        if self.make_machines().is_err() {
            return Err(self.stop(Cause::Memory));
        }
        match self.groups.storage.groups(self.alloc) {
            Ok(groups) => self.open_each(groups.as_slice()),
            Err(met) => Err(self.stop(Cause::Storage(met))),
        }
    }

    /// A node with all groups that its storage has (own): each is opened as after a start of the
    /// machine. It leads on under a committed vote of its own, and its machine has run what is
    /// committed. Without success (16) the storage is handed back: it is to be closed and opened anew.
    pub fn open(alloc: Global, id: u64, storage: S) -> Result<Opened<M, S>, NotOpened<S>>
        ensures opened { (kept : ℕ → Stored) → AreOfMachine M.rules S.stands → Keeps id (S.is_well storage) (S.shows storage) kept
            → IfOk result (λ o. HasOpened M.rules S.stands kept (value_of M.state S.is_well S.shows S.fails o.node) o.outcomes.items) }
        ensures stopped { (kept : ℕ → Stored) → AreOfMachine M.rules S.stands → Keeps id (S.is_well storage) (S.shows storage) kept
            → IfErr result (λ n. HasNotOpened id kept (S.shows n.storage) (S.fails n.storage) n.fault) }
        ensures id { IfOk result (λ o. o.node.groups.id ≡ id) }
        ensures going { IfOk result (λ o. o.node.groups.has_failed ≡ false) }
        ensures streams { (peer : ℕ) → IfOk result (λ o. feeding_of (get nat_cmp o.node.feeders peer) ≡ fresh) }
        ensures met { MatchResult result (λ o. S.meets storage o.node.groups.storage None) (λ n. S.meets storage n.storage (storage_fault_of n.fault)) }
    {
        let mut node: Node<M, S> = Node::without_groups(alloc, id, storage);
        match node.open_groups() {
            Ok(outcomes) => Ok(Opened { node, outcomes }),
            Err(fault) => Err(NotOpened {
                fault,
                storage: node.into_storage(),
            }),
        }
    }
}
