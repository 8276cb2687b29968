//! A node.
use crate::machines::Machines;
use raft_applier::Applier;
use raft_group_storage::GroupStorage;
use raft_groups::Groups;
use raft_machines::{StateMachine, UnknownTokens, Untold};
use raft_messages::SnapshotBytes;
use raft_node_faults::{Cause, Fault};
use raft_wire::Feeder;
use std::alloc::{AllocError, Global};
use std::collections::BTreeMap;

/// A node (own): its groups over one storage, the machine of each group with the tokens that wait to
/// be told, and the peers' streams. Once an event has stopped, the node has failed and takes nothing
/// more: it is opened again with its storage.
#[derive(Drop)]
pub struct Node<M: StateMachine, S: GroupStorage<Snapshot = SnapshotBytes>> {
    pub(crate) alloc: Global,
    // The members of the groups, and where they are kept.
    pub(crate) groups: Groups<S>,
    // What is applied of each group. A node that has failed has none.
    pub(crate) machines: Option<Machines<M>>,
    // The streams of the peers, by their ids.
    pub(crate) feeders: BTreeMap<u64, Feeder>,
}

impl<M: StateMachine, S: GroupStorage<Snapshot = SnapshotBytes>> Node<M, S> {
    ghost use Rattle.std.specs.Prelude.{◌≡◌, ◌++◌, ℕ, None, Some, true, false, OnOk, OnErr};
    ghost use Rattle.std.specs.Option.{option_copied};
    ghost use Rattle.std.specs.Ordering.{nat_cmp};
    ghost use Rattle.std.specs.BTreeMap.{get};
    ghost use Rattle.raft_node_faults.specs.Fault.{storage_fault_in, storage_fault_of};
    ghost use Rattle.raft_node_faults.specs.declared.fault.Cause.TheVariants.{Memory};
    ghost use Rattle.raft_node.specs.Settling.{IsStopFor};
    ghost use Rattle.raft_node.specs.Standing.{applier_in, one_more_in, running_in};
    ghost use Rattle.raft_node.specs.Waiting.{waiting_of};

    // A node that has opened none of its groups yet, and has no room for them.
    pub(crate) fn without_groups(alloc: Global, id: u64, storage: S) -> Node<M, S>
        ensures id { result.groups.id ≡ id }
        ensures storage { result.groups.storage ≡ storage }
        ensures going { result.groups.has_failed ≡ false }
        ensures none { (group : ℕ) → get nat_cmp result.groups.members group ≡ None }
        ensures no_machines { result.machines ≡ None }
        ensures streams { (peer : ℕ) → get nat_cmp result.feeders peer ≡ None }
    {
        Node {
            alloc,
            groups: Groups::new(alloc, id, storage),
            machines: None,
            feeders: BTreeMap::new(alloc),
        }
    }

    /// The storage, handed back as it is (own): also after a failure. The node goes.
    pub fn into_storage(self) -> S
        ensures { result ≡ self.groups.storage }
    {
        self.groups.into_storage()
    }

    /// The storage, lent for reading (own).
    pub fn storage(&self) -> &S
        ensures { result.now ≡ self.now.groups.storage }
    {
        &self.groups.storage
    }

    // What is applied of the group, lent.
    pub(crate) fn applier(&self, group: u64) -> Option<&Applier<M>>
        ensures { option_copied result ≡ applier_in self.now.machines group }
    {
        match &self.machines {
            Some(machines) => machines.get(group),
            None => None,
        }
    }

    // The group's applier is this one from now on. A node without room has failed.
    pub(crate) fn seat(&mut self, group: u64, applier: Applier<M>) -> Result<(), AllocError>
        ensures ok { OnOk result (applier_in self.new.machines group ≡ Some applier) }
        ensures others { (other : ℕ) → (other ≡ group → ⊥) → applier_in self.new.machines other ≡ applier_in self.old.machines other }
        ensures err { (other : ℕ) → OnErr result (applier_in self.new.machines other ≡ applier_in self.old.machines other) }
        ensures groups { self.new.groups ≡ self.old.groups }
        ensures feeders { self.new.feeders ≡ self.old.feeders }
    {
        match &mut self.machines {
            Some(machines) => machines.seat(group, applier),
            None => Err(AllocError),
        }
    }

    // The node has failed for this cause: all tokens that wait stay unknown.
    pub(crate) fn stop(&mut self, cause: Cause<S::Fault>) -> Fault<S::Fault>
        ensures stops { IsStopFor cause (λ group. waiting_of (running_in M.state self.old.machines group)) result }
        ensures groups { self.new.groups ≡ record self.old.groups { has_failed = true } }
        ensures feeders { self.new.feeders ≡ self.old.feeders }
        ensures no_machines { self.new.machines ≡ None }
        ensures fault { storage_fault_of result ≡ storage_fault_in cause }
    {
        self.groups.has_failed = true;
        let unknown = match self.machines.take() {
            Some(machines) => machines.into_unknown(),
            None => Vec::new(self.alloc),
        };
        Fault::Stopped { cause, unknown }
    }

    // The node has failed for want of memory: all tokens that wait stay unknown, and this one of this
    // group, that there was no room for.
    pub(crate) fn stop_with(&mut self, group: u64, token: Untold) -> Fault<S::Fault>
        ensures stops { IsStopFor Memory (λ other. waiting_of (running_in M.state self.old.machines other) ++ one_more_in self.old.machines other group token) result }
        ensures groups { self.new.groups ≡ record self.old.groups { has_failed = true } }
        ensures feeders { self.new.feeders ≡ self.old.feeders }
        ensures fault { storage_fault_of result ≡ None }
    {
        self.groups.has_failed = true;
        let unknown = match self.machines.take() {
            Some(machines) => machines.into_unknown_with(group, token),
            None => Vec::new(self.alloc),
        };
        Fault::Stopped {
            cause: Cause::Memory,
            unknown,
        }
    }
}
