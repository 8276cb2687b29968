//! A node's log is cleaned.
ghost use Rattle.std.specs.Prelude.{◌≡◌, true, false, None, Err, IfErr, IfOk, OnErr, OnOk};
ghost use Rattle.std.specs.List.Sorted.{IsStrictlySortedBy};
ghost use Rattle.std.specs.Ordering.{nat_cmp};
ghost use Rattle.raft_group_storage.specs.Keeping.{KeepsAll};
ghost use Rattle.raft_node.specs.Settling.{IsStorageStop};
ghost use Rattle.raft_node.specs.Standing.{running_in};
ghost use Rattle.raft_node.specs.Waiting.{waiting_of};
ghost use Rattle.raft_node_faults.specs.Fault.{fault_met_by_node};
ghost use Rattle.raft_node_faults.specs.declared.fault.Fault.TheVariants.{Failed};

use crate::node::Node;
use raft_group_storage::GroupStorage;
use raft_machines::StateMachine;
use raft_messages::SnapshotBytes;
use raft_node_faults::{Cause, Fault};
use raft_storage_cleaning::CleanStorage;

impl<M: StateMachine, S: GroupStorage<Snapshot = SnapshotBytes> + CleanStorage> Node<M, S> {
    /// Cleans the log of the node's storage, where it is time for that (own, over raft-engine's
    /// `purge_expired_files`): to be called now and then, between events. Answers the groups that hold
    /// old files back, rising: a snapshot and a purge of each of them let these go. What is stored of
    /// each group stays, whatever the call answers. A node that has failed answers `Failed`. Where the
    /// storage fails the node stops, and names all tokens that waited.
    pub fn clean_files(&mut self) -> Result<Vec<u64>, Fault<S::Fault>>
        ensures rising { IfOk result (λ groups. IsStrictlySortedBy nat_cmp groups.items) }
        ensures same { OnOk result (self.new ≡ record self.old { groups = record self.old.groups { storage = self.new.groups.storage } }) }
        ensures well { S.GroupStorage.is_well self.old.groups.storage → OnOk result (S.GroupStorage.is_well self.new.groups.storage) }
        ensures kept { KeepsAll (S.GroupStorage.shows self.old.groups.storage) (S.GroupStorage.shows self.new.groups.storage) }
        ensures failed { self.old.groups.has_failed ≡ true → (result ≡ Err Failed) × (self.new ≡ self.old) }
        ensures stops { self.old.groups.has_failed ≡ false → IfErr result (IsStorageStop (λ group. waiting_of (running_in M.state self.old.machines group))) }
        ensures stopped { self.old.groups.has_failed ≡ false
            → OnErr result ((self.new.groups ≡ record self.old.groups { storage = self.new.groups.storage; has_failed = true })
            × (self.new.machines ≡ None) × (self.new.feeders ≡ self.old.feeders)) }
        ensures met { S.GroupStorage.meets self.old.groups.storage self.new.groups.storage (fault_met_by_node result) }
    {
        if self.groups.has_failed {
            return Err(Fault::Failed);
        }
        match self.groups.storage.clean_files() {
            Ok(groups) => Ok(groups),
            Err(fault) => Err(self.stop(Cause::Storage(fault))),
        }
    }
}
