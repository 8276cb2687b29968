//! What a node is asked for.
ghost use Rattle.std.specs.Prelude.{◌≡◌, ◌∷◌, [], ℕ, Err, IfErr, None, OnErr, OnOk, true, false, is_some};
ghost use Rattle.std.specs.Ordering.{nat_cmp};
ghost use Rattle.std.specs.BTreeMap.{get};
ghost use Rattle.raft_group_step.specs.StoredGroup.{StoredGroup as Stored};
ghost use Rattle.raft_group_step.specs.GroupState.{state_of};
ghost use Rattle.raft_group_step.specs.GroupEvent.{Call};
ghost use Rattle.raft_group_step.specs.declared.group_call.GroupCall.TheVariants.{ChangeMembership, Elect, Heartbeat, Initialize, Lost, Propose, TriggerPurge, TriggerSnapshot};
ghost use Rattle.raft_machines.specs.MembershipFault.{membership_fault_of};
ghost use Rattle.raft_laws.specs.GroupWorld.{Absent};
ghost use Rattle.raft_framed_groups.specs.Answers.{Stands};
ghost use Rattle.raft_node_faults.specs.Fault.{fault_met_by_node, storage_fault_of};
ghost use Rattle.raft_node_faults.specs.declared.fault.Cause.TheVariants.{Memory};
ghost use Rattle.raft_node_faults.specs.declared.fault.Fault.TheVariants.{Failed, GroupExists};
ghost use Rattle.raft_node.specs.Adding.{IsAdded, IsRefusedOrStops};
ghost use Rattle.raft_node.specs.Asking.{HasItsWhy, HasWhy, without_its_why, without_why};
ghost use Rattle.raft_node.specs.Ending.{IsEvent, IsTurnedDown, NamesWaiting, StaysAll, StaysElse};
ghost use Rattle.raft_node.specs.Running.{RunsAt};
ghost use Rattle.raft_node.specs.Settling.{IsStoppedBy, IsTold};
ghost use Rattle.raft_node.specs.Standing.{running_in, value_of};

use crate::node::Node;
use crate::outcome::Outcome;
use raft_applier::Applier;
use raft_conditions::GroupCommand;
use raft_group_step::GroupCall;
use raft_group_storage::GroupStorage;
use raft_machines::{StateMachine, membership_fault};
use raft_messages::SnapshotBytes;
use raft_node_faults::{Cause, Fault};
use raft_state::{BasicNode, Bytes, ChangeMembers, Membership};
use std::alloc::AllocError;

impl<M: StateMachine, S: GroupStorage<Snapshot = SnapshotBytes>> Node<M, S> {
    // A new group gets its machine.
    fn seat_new(&mut self, group: u64) -> Result<(), AllocError>
        ensures ok { (st : Stored) → OnOk result (RunsAt M.rules (running_in M.state self.new.machines group) (state_of st)) }
        ensures others { (other : ℕ) → (other ≡ group → ⊥) → running_in M.state self.new.machines other ≡ running_in M.state self.old.machines other }
        ensures err { (other : ℕ) → OnErr result (running_in M.state self.new.machines other ≡ running_in M.state self.old.machines other) }
        ensures groups { self.new.groups ≡ self.old.groups }
        ensures feeders { self.new.feeders ≡ self.old.feeders }
    {
        let applier = Applier::new(self.alloc)?;
        self.seat(group, applier)
    }

    /// The node has a new group from now on, with nothing in it (own). Refused as `Failed` (11),
    /// `GroupExists` (3).
    pub fn add_group(&mut self, group: u64) -> Result<Outcome, Fault<S::Fault>>
        ensures failed { self.old.groups.has_failed ≡ true → (result ≡ Err Failed) × (self.new ≡ self.old) }
        ensures exists { self.old.groups.has_failed ≡ false → is_some (get nat_cmp self.old.groups.members group) ≡ true
            → (result ≡ Err GroupExists) × (self.new ≡ self.old) }
        ensures stored { (st : Stored) → self.old.groups.has_failed ≡ false → get nat_cmp self.old.groups.members group ≡ None
            → S.is_well self.old.groups.storage → S.shows self.old.groups.storage group (st ∷ []) → st.present ≡ true → IsRefusedOrStops GroupExists result }
        ensures added { self.old.groups.has_failed ≡ false → Stands (value_of M.state S.is_well S.shows S.fails self.old).groups group Absent
            → IsAdded M.rules S.stands (value_of M.state S.is_well S.shows S.fails self.new) group result }
        ensures elsewhere { StaysElse (value_of M.state S.is_well S.shows S.fails self.old) (value_of M.state S.is_well S.shows S.fails self.new) group result }
        ensures refused { IsTurnedDown result → StaysAll (value_of M.state S.is_well S.shows S.fails self.old) (value_of M.state S.is_well S.shows S.fails self.new) }
        ensures names { NamesWaiting (value_of M.state S.is_well S.shows S.fails self.old).running result }
        ensures met { S.meets self.old.groups.storage self.new.groups.storage (fault_met_by_node result) }
    {
        if let Err(fault) = self.groups.add_group(group) {
            return Err(self.groups_fault(fault));
        }
        match self.seat_new(group) {
            Ok(()) => Ok(Outcome::nothing(self.alloc, group)),
            Err(_) => Err(self.stop(Cause::Memory)),
        }
    }

    /// The group is asked for this at this moment, in ticks (own). Refused as the call of that name is.
    pub fn call(
        &mut self,
        group: u64,
        call: &GroupCommand,
        now: u64,
    ) -> Result<Outcome, Fault<S::Fault>>
        ensures event { IsEvent M.rules S.stands (self.new ≡ self.old) (value_of M.state S.is_well S.shows S.fails self.old)
            (value_of M.state S.is_well S.shows S.fails self.new) group (Call call.now now) (without_its_why call.now result) }
        ensures why { IfErr result (HasItsWhy call.now) }
        ensures met { S.meets self.old.groups.storage self.new.groups.storage (fault_met_by_node result) }
    {
        match call {
            GroupCall::Propose { token, .. } | GroupCall::ChangeMembership { token, .. } => {
                self.ask_with_token(group, call, *token, now)
            }
            GroupCall::TriggerSnapshot => self.ask_snapshot(group, now),
            GroupCall::Initialize { membership } => match self.ask(group, call, now) {
                Err(Fault::Membership { .. }) => Err(Fault::Membership {
                    why: membership_fault(membership),
                }),
                answered => answered,
            },
            _ => self.ask(group, call, now),
        }
    }

    /// The node stops for want of memory outside of it (own): all tokens that wait stay unknown.
    pub fn fail(&mut self) -> Fault<S::Fault>
        ensures why { IsStoppedBy Memory result }
        ensures told { IsTold ⊥ (value_of M.state S.is_well S.shows S.fails self.old) (value_of M.state S.is_well S.shows S.fails self.new) result }
        ensures met { S.meets self.old.groups.storage self.new.groups.storage (storage_fault_of result) }
    {
        self.stop(Cause::Memory)
    }

    /// The group is set up with its first membership, and the node stands for election (own).
    /// Refused as `Failed` (11), `UnknownGroup` (2), `Membership` (6), `NumberAtEnd` (10), `NotVoter`
    /// (5), `NotAllowed` (4).
    pub fn initialize(
        &mut self,
        group: u64,
        membership: Membership<u64, BasicNode>,
        now: u64,
    ) -> Result<Outcome, Fault<S::Fault>>
        ensures event { IsEvent M.rules S.stands (self.new ≡ self.old) (value_of M.state S.is_well S.shows S.fails self.old)
            (value_of M.state S.is_well S.shows S.fails self.new) group (Call (Initialize membership) now) (without_why result) }
        ensures why { IfErr result (HasWhy (membership_fault_of membership)) }
        ensures met { S.meets self.old.groups.storage self.new.groups.storage (fault_met_by_node result) }
    {
        let why = membership_fault(&membership);
        match self.ask(group, &GroupCall::Initialize { membership }, now) {
            Err(Fault::Membership { .. }) => Err(Fault::Membership { why }),
            answered => answered,
        }
    }

    /// The group's leader takes a command; its token is told once the command's place is applied
    /// (own). Refused as `Failed` (11), `UnknownGroup` (2), `CommandTooLong` (9), `NumberAtEnd` (10),
    /// `NotLeader` (1).
    pub fn propose(
        &mut self,
        group: u64,
        command: Bytes,
        token: u64,
        now: u64,
    ) -> Result<Outcome, Fault<S::Fault>>
        ensures event { IsEvent M.rules S.stands (self.new ≡ self.old) (value_of M.state S.is_well S.shows S.fails self.old)
            (value_of M.state S.is_well S.shows S.fails self.new) group (Call (Propose command token) now) result }
        ensures met { S.meets self.old.groups.storage self.new.groups.storage (fault_met_by_node result) }
    {
        let call = GroupCall::Propose { command, token };
        self.ask_with_token(group, &call, token, now)
    }

    /// The node stands for election (own). Refused as `Failed` (11), `UnknownGroup` (2),
    /// `NumberAtEnd` (10), `NotVoter` (5).
    pub fn elect(&mut self, group: u64, now: u64) -> Result<Outcome, Fault<S::Fault>>
        ensures event { IsEvent M.rules S.stands (self.new ≡ self.old) (value_of M.state S.is_well S.shows S.fails self.old)
            (value_of M.state S.is_well S.shows S.fails self.new) group (Call Elect now) result }
        ensures met { S.meets self.old.groups.storage self.new.groups.storage (fault_met_by_node result) }
    {
        self.ask(group, &GroupCall::Elect, now)
    }

    /// The group's leader says to each other node that it leads on (own). Refused as `Failed` (11),
    /// `UnknownGroup` (2), `NumberAtEnd` (10), `NotLeader` (1).
    pub fn heartbeat(&mut self, group: u64, now: u64) -> Result<Outcome, Fault<S::Fault>>
        ensures event { IsEvent M.rules S.stands (self.new ≡ self.old) (value_of M.state S.is_well S.shows S.fails self.old)
            (value_of M.state S.is_well S.shows S.fails self.new) group (Call Heartbeat now) result }
        ensures met { S.meets self.old.groups.storage self.new.groups.storage (fault_met_by_node result) }
    {
        self.ask(group, &GroupCall::Heartbeat, now)
    }

    /// The outstanding request of the group's leader to the peer counts as failed (own). Refused as
    /// `heartbeat` is.
    pub fn lost(&mut self, group: u64, peer: u64, now: u64) -> Result<Outcome, Fault<S::Fault>>
        ensures event { IsEvent M.rules S.stands (self.new ≡ self.old) (value_of M.state S.is_well S.shows S.fails self.old)
            (value_of M.state S.is_well S.shows S.fails self.new) group (Call (Lost peer) now) result }
        ensures met { S.meets self.old.groups.storage self.new.groups.storage (fault_met_by_node result) }
    {
        self.ask(group, &GroupCall::Lost { peer }, now)
    }

    /// A snapshot of what is applied is stored, if that is past the last one (own). Refused as
    /// `Failed` (11), `UnknownGroup` (2), `NumberAtEnd` (10).
    pub fn trigger_snapshot(&mut self, group: u64, now: u64) -> Result<Outcome, Fault<S::Fault>>
        ensures event { IsEvent M.rules S.stands (self.new ≡ self.old) (value_of M.state S.is_well S.shows S.fails self.old)
            (value_of M.state S.is_well S.shows S.fails self.new) group (Call TriggerSnapshot now) result }
        ensures met { S.meets self.old.groups.storage self.new.groups.storage (fault_met_by_node result) }
    {
        self.ask_snapshot(group, now)
    }

    /// The log is purged up to the place, no further than the snapshot goes (own). Refused as
    /// `trigger_snapshot` is.
    pub fn trigger_purge_log(
        &mut self,
        group: u64,
        place: u64,
        now: u64,
    ) -> Result<Outcome, Fault<S::Fault>>
        ensures event { IsEvent M.rules S.stands (self.new ≡ self.old) (value_of M.state S.is_well S.shows S.fails self.old)
            (value_of M.state S.is_well S.shows S.fails self.new) group (Call (TriggerPurge place) now) result }
        ensures met { S.meets self.old.groups.storage self.new.groups.storage (fault_met_by_node result) }
    {
        self.ask(group, &GroupCall::TriggerPurge { place }, now)
    }

    /// The group's leader takes a change of the membership; its token is told once the change's place
    /// is applied (own). Refused as `Failed` (11), `UnknownGroup` (2), `NumberAtEnd` (10), `NotLeader`
    /// (1), `InProgress` (8), `Membership` (6), `VoterChange` (7).
    pub fn change_membership(
        &mut self,
        group: u64,
        change: ChangeMembers<u64, BasicNode>,
        token: u64,
        now: u64,
    ) -> Result<Outcome, Fault<S::Fault>>
        ensures event { IsEvent M.rules S.stands (self.new ≡ self.old) (value_of M.state S.is_well S.shows S.fails self.old)
            (value_of M.state S.is_well S.shows S.fails self.new) group (Call (ChangeMembership change token) now) result }
        ensures met { S.meets self.old.groups.storage self.new.groups.storage (fault_met_by_node result) }
    {
        let call = GroupCall::ChangeMembership { change, token };
        self.ask_with_token(group, &call, token, now)
    }
}
