//! What comes to a node for one of its groups.
ghost use Rattle.std.specs.Prelude.{◌≡◌, ℕ, Err, IfOk, IfErr, OnOk, OnErr, Some, None, true, false, [], ◌∷◌, is_some};
ghost use Rattle.std.specs.Option.{option_copied};
ghost use Rattle.std.specs.Ordering.{nat_cmp};
ghost use Rattle.std.specs.BTreeMap.{get};
ghost use Rattle.raft_group_step.specs.StoredGroup.{MakeGroup, StoredGroup as Stored, after_storing};
ghost use Rattle.raft_group_step.specs.GroupState.{GroupState, no_group, state_of};
ghost use Rattle.raft_group_step.specs.GroupEvent.{Call, Receive};
ghost use Rattle.raft_group_step.specs.Message.{Message as Said};
ghost use Rattle.raft_group_step.specs.declared.group_call.GroupCall.TheVariants.{TriggerSnapshot};
ghost use Rattle.raft_executor.specs.Said.{Says};
ghost use Rattle.std.specs.Result.{result_err};
ghost use Rattle.raft_group_storage.specs.Keeping.{KeepsAll, KeepsOthers};
ghost use Rattle.raft_laws.specs.GroupWorld.{NodeState, Absent, Up};
ghost use Rattle.raft_member.specs.Member.{HasBrokenOff, HasEnded, HasStopped, IsBuilt, IsLawful};
ghost use Rattle.raft_groups.specs.Faults.{GoesOn, HasBegun, HasMet, IsRefusedAs, IsTurnedAway, fault_met_by_groups};
ghost use Rattle.raft_groups.specs.Standing.{HasMember, StandsAs};
ghost use Rattle.raft_groups.specs.declared.fault.GroupsFault.TheVariants.{Failed, GroupExists, UnknownGroup};

use crate::fault::GroupsFault;
use raft_conditions::GroupCommand;
use raft_group_storage::GroupStorage;
use raft_member::{Broken, Ended, Member};
use raft_messages::Message;
use std::alloc::{AllocError, Global};
use std::collections::BTreeMap;

/// The groups of a node: a member of each, over one storage (own). Once an event has met a fault
/// nothing more is taken.
#[derive(Drop)]
pub struct Groups<S: GroupStorage> {
    pub(crate) alloc: Global,
    /// The node's id.
    pub id: u64,
    /// Where all groups are kept.
    pub storage: S,
    /// The node's member of each group, by the group's id.
    pub members: BTreeMap<u64, Member>,
    /// Whether an event has met a fault.
    pub has_failed: bool,
}

impl<S: GroupStorage> Groups<S> {
    /// No group yet, over this storage (own). Takes no memory.
    pub fn new(alloc: Global, id: u64, storage: S) -> Groups<S>
        ensures id { result.id ≡ id }
        ensures storage { result.storage ≡ storage }
        ensures none { (group : ℕ) → get nat_cmp result.members group ≡ None }
        ensures going { result.has_failed ≡ false }
    {
        Groups {
            alloc,
            id,
            storage,
            members: BTreeMap::new(alloc),
            has_failed: false,
        }
    }

    /// The storage, as it is; the members go (own). A node that has failed is opened again with it.
    pub fn into_storage(self) -> S
        ensures { result ≡ self.storage }
    {
        self.storage
    }

    /// The node's member of a group, lent (own).
    pub fn member(&self, group: u64) -> Option<&Member>
        ensures { option_copied result ≡ get nat_cmp self.now.members group }
    {
        self.members.get(&group)
    }

    /// The node has a new group from now on, with nothing in it (own). A group that the storage has
    /// is there already, also where it wasn't opened. At a fault, want of memory included, the group
    /// is stored or not, and the node has failed.
    pub fn add_group(&mut self, group: u64) -> Result<(), GroupsFault<S::Fault>>
        ensures failed { self.old.has_failed ≡ true → (result ≡ Err Failed) × (self.new ≡ self.old) }
        ensures exists { self.old.has_failed ≡ false → is_some (get nat_cmp self.old.members group) ≡ true
            → (result ≡ Err GroupExists) × (self.new ≡ self.old) }
        ensures stored { (st : Stored) → self.old.has_failed ≡ false → get nat_cmp self.old.members group ≡ None
            → S.is_well self.old.storage → S.shows self.old.storage group (st ∷ []) → st.present ≡ true → IsRefusedAs GroupExists result }
        ensures refused { (other : ℕ) (x : NodeState) → IsTurnedAway result
            → StandsAs self.old.id (get nat_cmp self.old.members) (S.is_well self.old.storage) (S.shows self.old.storage) other x
            → StandsAs self.old.id (get nat_cmp self.new.members) (S.is_well self.new.storage) (S.shows self.new.storage) other x }
        ensures ok { self.old.has_failed ≡ false → StandsAs self.old.id (get nat_cmp self.old.members) (S.is_well self.old.storage) (S.shows self.old.storage) group Absent
            → OnOk result (StandsAs self.old.id (get nat_cmp self.new.members) (S.is_well self.new.storage) (S.shows self.new.storage) group (Up (state_of (record no_group { present = true })))) }
        ensures err { self.old.has_failed ≡ false → StandsAs self.old.id (get nat_cmp self.old.members) (S.is_well self.old.storage) (S.shows self.old.storage) group Absent
            → IfErr result (HasMet (λ met. S.shows self.new.storage group (no_group ∷ after_storing MakeGroup no_group ∷ []) × S.fails self.new.storage MakeGroup no_group)) }
        ensures others { (other : ℕ) (x : NodeState) → (other ≡ group → ⊥)
            → StandsAs self.old.id (get nat_cmp self.old.members) (S.is_well self.old.storage) (S.shows self.old.storage) other x
            → OnOk result (StandsAs self.old.id (get nat_cmp self.new.members) (S.is_well self.new.storage) (S.shows self.new.storage) other x) }
        ensures kept { KeepsOthers (S.shows self.old.storage) (S.shows self.new.storage) group }
        ensures id { self.new.id ≡ self.old.id }
        ensures goes_on { GoesOn self.old.has_failed result self.new.has_failed }
        ensures met { S.meets self.old.storage self.new.storage (fault_met_by_groups result) }
    {
        if self.has_failed {
            return Err(GroupsFault::Failed);
        }
        if self.members.contains_key(&group) {
            return Err(GroupsFault::GroupExists);
        }
        match self.make_if_new(group) {
            Ok(true) => Ok(()),
            Ok(false) => Err(GroupsFault::GroupExists),
            Err(met) => {
                self.has_failed = true;
                Err(GroupsFault::Stopped(Broken::Begun(met)))
            }
        }
    }

    // The group is made, unless it is stored already: whether it was.
    fn make_if_new(&mut self, group: u64) -> Result<bool, S::Fault>
        ensures ok { S.is_well self.old.storage → S.shows self.old.storage group (no_group ∷ [])
            → IfOk result (λ made. (made ≡ true)
            × StandsAs self.old.id (get nat_cmp self.new.members) (S.is_well self.new.storage) (S.shows self.new.storage) group (Up (state_of (record no_group { present = true })))) }
        ensures stored { (st : Stored) → S.is_well self.old.storage → S.shows self.old.storage group (st ∷ []) → st.present ≡ true → IfOk result (λ made. made ≡ false) }
        ensures err { S.is_well self.old.storage → S.shows self.old.storage group (no_group ∷ [])
            → OnErr result (S.shows self.new.storage group (no_group ∷ after_storing MakeGroup no_group ∷ []) × S.fails self.new.storage MakeGroup no_group) }
        ensures well { S.is_well self.old.storage → OnOk result (S.is_well self.new.storage) }
        ensures same { (other : ℕ) → IfOk result (λ made. made ≡ false → get nat_cmp self.new.members other ≡ get nat_cmp self.old.members other) }
        ensures kept_all { IfOk result (λ made. made ≡ false → KeepsAll (S.shows self.old.storage) (S.shows self.new.storage)) }
        ensures others { (other : ℕ) → (other ≡ group → ⊥) → get nat_cmp self.new.members other ≡ get nat_cmp self.old.members other }
        ensures kept { KeepsOthers (S.shows self.old.storage) (S.shows self.new.storage) group }
        ensures id { self.new.id ≡ self.old.id }
        ensures flag { self.new.has_failed ≡ self.old.has_failed }
        ensures met { S.meets self.old.storage self.new.storage (result_err result) }
    {
        if self.storage.load(self.alloc, group)?.present {
            return Ok(false);
        }
        self.make_member(group)?;
        Ok(true)
    }

    // The group is stored, and its member is there.
    fn make_member(&mut self, group: u64) -> Result<(), S::Fault>
        ensures ok { S.is_well self.old.storage → S.shows self.old.storage group (no_group ∷ [])
            → OnOk result (StandsAs self.old.id (get nat_cmp self.new.members) (S.is_well self.new.storage) (S.shows self.new.storage) group (Up (state_of (record no_group { present = true })))) }
        ensures err { S.is_well self.old.storage → S.shows self.old.storage group (no_group ∷ [])
            → OnErr result (S.shows self.new.storage group (no_group ∷ after_storing MakeGroup no_group ∷ []) × S.fails self.new.storage MakeGroup no_group) }
        ensures well { S.is_well self.old.storage → OnOk result (S.is_well self.new.storage) }
        ensures others { (other : ℕ) → (other ≡ group → ⊥) → get nat_cmp self.new.members other ≡ get nat_cmp self.old.members other }
        ensures kept { KeepsOthers (S.shows self.old.storage) (S.shows self.new.storage) group }
        ensures id { self.new.id ≡ self.old.id }
        ensures flag { self.new.has_failed ≡ self.old.has_failed }
        ensures met { S.meets self.old.storage self.new.storage (result_err result) }
    {
        // The member's place comes first, so that nothing is stored where there is no memory for it.
        self.seat(group, Member::down(self.id))?;
        let member = Member::new(self.alloc, self.id, &mut self.storage, group)?;
        self.seat(group, member)?;
        Ok(())
    }

    // This is the node's member of the group.
    pub(crate) fn seat(&mut self, group: u64, member: Member) -> Result<(), AllocError>
        ensures ok { OnOk result (get nat_cmp self.new.members group ≡ Some member) }
        ensures others { (other : ℕ) → (other ≡ group → ⊥) → get nat_cmp self.new.members other ≡ get nat_cmp self.old.members other }
        ensures storage { self.new.storage ≡ self.old.storage }
        ensures id { self.new.id ≡ self.old.id }
        ensures flag { self.new.has_failed ≡ self.old.has_failed }
    {
        match self.members.insert(group, member) {
            Ok(_) => Ok(()),
            Err(refused) => Err(AllocError::from(refused)),
        }
    }

    /// One of the groups is asked for something at this moment, in ticks (own). Where a snapshot is
    /// to be built, that of what is applied is handed in, `built`. At a fault, want of memory
    /// included, the group's member is down and the node has failed; of the other groups the
    /// storage shows what it showed.
    pub fn ask(
        &mut self,
        group: u64,
        call: &GroupCommand,
        built: Option<&S::Snapshot>,
        now: u64,
    ) -> Result<Ended<S::Snapshot>, GroupsFault<S::Fault>>
        ensures failed { self.old.has_failed ≡ true → (result ≡ Err Failed) × (self.new ≡ self.old) }
        ensures unknown { self.old.has_failed ≡ false → get nat_cmp self.old.members group ≡ None → (result ≡ Err UnknownGroup) × (self.new ≡ self.old) }
        ensures ok { (s : GroupState) → self.old.has_failed ≡ false → (call.now ≡ TriggerSnapshot → IsBuilt S.stands (option_copied built.entry) s)
            → StandsAs self.old.id (get nat_cmp self.old.members) (S.is_well self.old.storage) (S.shows self.old.storage) group (Up s) → IsLawful self.old.id s
            → IfOk result (λ ended. HasMember self.old.id (get nat_cmp self.new.members) group
            (λ m. HasEnded S.stands (S.is_well self.new.storage) (S.shows self.new.storage group) self.old.id s (Call call.now now) None m ended)) }
        ensures err { (s : GroupState) → self.old.has_failed ≡ false → (call.now ≡ TriggerSnapshot → IsBuilt S.stands (option_copied built.entry) s)
            → StandsAs self.old.id (get nat_cmp self.old.members) (S.is_well self.old.storage) (S.shows self.old.storage) group (Up s) → IsLawful self.old.id s
            → IfErr result (HasMet (λ met. HasMember self.old.id (get nat_cmp self.new.members) group
            (λ m. HasBrokenOff (S.is_well self.new.storage) (S.shows self.new.storage group) (S.fails self.new.storage) self.old.id s (Call call.now now) m met))) }
        ensures others { (other : ℕ) (x : NodeState) → (other ≡ group → ⊥)
            → StandsAs self.old.id (get nat_cmp self.old.members) (S.is_well self.old.storage) (S.shows self.old.storage) other x
            → OnOk result (StandsAs self.old.id (get nat_cmp self.new.members) (S.is_well self.new.storage) (S.shows self.new.storage) other x) }
        ensures kept { KeepsOthers (S.shows self.old.storage) (S.shows self.new.storage) group }
        ensures same { IsTurnedAway result → self.new ≡ self.old }
        ensures id { self.new.id ≡ self.old.id }
        ensures goes_on { GoesOn self.old.has_failed result self.new.has_failed }
        ensures met { S.meets self.old.storage self.new.storage (fault_met_by_groups result) }
    {
        if self.has_failed {
            return Err(GroupsFault::Failed);
        }
        let Some(member) = self.members.get_mut(&group) else {
            return Err(GroupsFault::UnknownGroup);
        };
        match member.ask(self.alloc, call, built, now, None, &mut self.storage, group) {
            Ok(ended) => Ok(ended),
            Err(met) => {
                self.has_failed = true;
                Err(GroupsFault::Stopped(met))
            }
        }
    }

    /// A message of a peer comes to one of the groups at this moment, in ticks (own). At a fault,
    /// want of memory included, the group's member is down and the node has failed; of the other
    /// groups the storage shows what it showed.
    pub fn receive(
        &mut self,
        group: u64,
        message: &Message<S::Snapshot>,
        now: u64,
    ) -> Result<Ended<S::Snapshot>, GroupsFault<S::Fault>>
        ensures failed { self.old.has_failed ≡ true → (result ≡ Err Failed) × (self.new ≡ self.old) }
        ensures unknown { self.old.has_failed ≡ false → get nat_cmp self.old.members group ≡ None → (result ≡ Err UnknownGroup) × (self.new ≡ self.old) }
        ensures ok { (m : Said) (s : GroupState) → self.old.has_failed ≡ false → Says S.stands message.now m
            → StandsAs self.old.id (get nat_cmp self.old.members) (S.is_well self.old.storage) (S.shows self.old.storage) group (Up s) → IsLawful self.old.id s
            → IfOk result (λ ended. HasMember self.old.id (get nat_cmp self.new.members) group
            (λ member. HasEnded S.stands (S.is_well self.new.storage) (S.shows self.new.storage group) self.old.id s (Receive message.now.sender m now) None member ended)) }
        ensures err { (m : Said) (s : GroupState) → self.old.has_failed ≡ false → Says S.stands message.now m
            → StandsAs self.old.id (get nat_cmp self.old.members) (S.is_well self.old.storage) (S.shows self.old.storage) group (Up s) → IsLawful self.old.id s
            → IfErr result (HasMet (λ met. HasMember self.old.id (get nat_cmp self.new.members) group
            (λ member. HasBegun (HasStopped (S.shows self.new.storage group) (S.fails self.new.storage) self.old.id s (Receive message.now.sender m now) member) met))) }
        ensures others { (other : ℕ) (x : NodeState) → (other ≡ group → ⊥)
            → StandsAs self.old.id (get nat_cmp self.old.members) (S.is_well self.old.storage) (S.shows self.old.storage) other x
            → OnOk result (StandsAs self.old.id (get nat_cmp self.new.members) (S.is_well self.new.storage) (S.shows self.new.storage) other x) }
        ensures kept { KeepsOthers (S.shows self.old.storage) (S.shows self.new.storage) group }
        ensures same { IsTurnedAway result → self.new ≡ self.old }
        ensures id { self.new.id ≡ self.old.id }
        ensures goes_on { GoesOn self.old.has_failed result self.new.has_failed }
        ensures met { S.meets self.old.storage self.new.storage (fault_met_by_groups result) }
    {
        if self.has_failed {
            return Err(GroupsFault::Failed);
        }
        let Some(member) = self.members.get_mut(&group) else {
            return Err(GroupsFault::UnknownGroup);
        };
        match member.receive(self.alloc, message, now, None, &mut self.storage, group) {
            Ok(ended) => Ok(ended),
            Err(met) => {
                self.has_failed = true;
                Err(GroupsFault::Stopped(Broken::Begun(met)))
            }
        }
    }
}
