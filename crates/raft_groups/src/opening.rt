//! A node's groups are opened with what is stored of them.
ghost use Rattle.std.specs.Prelude.{◌≡◌, ℕ, Err, IfOk, IfErr, OnOk, OnErr, IfSome, IfNone, None, true, false, [], ◌∷◌, is_some};
ghost use Rattle.std.specs.Ordering.{nat_cmp};
ghost use Rattle.std.specs.BTreeMap.{get};
ghost use Rattle.raft_group_step.specs.StoredGroup.{StoredGroup as Stored};
ghost use Rattle.raft_group_step.specs.GroupState.{state_of};
ghost use Rattle.raft_group_step.specs.GroupEvent.{Open};
ghost use Rattle.std.specs.Result.{result_err};
ghost use Rattle.raft_group_storage.specs.Keeping.{KeepsOthers};
ghost use Rattle.raft_laws.specs.GroupWorld.{NodeState};
ghost use Rattle.raft_member.specs.Member.{HasEnded};
ghost use Rattle.raft_member.specs.Opening.{IsOpenable};
ghost use Rattle.raft_groups.specs.Faults.{GoesOn, HasMet, IsRefusedAs, fault_met_by_groups};
ghost use Rattle.raft_groups.specs.Opening.{IsLeftByOpening};
ghost use Rattle.raft_groups.specs.Standing.{HasMember, StandsAs};
ghost use Rattle.raft_groups.specs.declared.fault.GroupsFault.TheVariants.{Failed, GroupExists, UnknownGroup};

use crate::fault::GroupsFault;
use crate::groups::Groups;
use raft_group_storage::GroupStorage;
use raft_member::{Broken, Ended, Member};

impl<S: GroupStorage> Groups<S> {
    // The member of a group that is stored is there and opened; none of one that isn't.
    fn open_member(&mut self, group: u64) -> Result<Option<Ended<S::Snapshot>>, S::Fault>
        ensures ok { (st : Stored) → S.is_well self.old.storage → S.shows self.old.storage group (st ∷ []) → st.present ≡ true → IsOpenable self.old.id st
            → IfOk result (λ found. IfSome found (λ ended. HasMember self.old.id (get nat_cmp self.new.members) group
            (λ m. HasEnded S.stands (S.is_well self.new.storage) (S.shows self.new.storage group) self.old.id (state_of st) Open None m ended))) }
        ensures found { (st : Stored) → S.is_well self.old.storage → S.shows self.old.storage group (st ∷ []) → IfOk result (λ found. is_some found ≡ st.present) }
        ensures none { get nat_cmp self.old.members group ≡ None → IfOk result (λ found. IfNone found (get nat_cmp self.new.members group ≡ None)) }
        ensures err { (st : Stored) → S.is_well self.old.storage → S.shows self.old.storage group (st ∷ []) → st.present ≡ true → IsOpenable self.old.id st
            → OnErr result (IsLeftByOpening (S.shows self.new.storage group) (S.fails self.new.storage) self.old.id st) }
        ensures well { S.is_well self.old.storage → OnOk result (S.is_well self.new.storage) }
        ensures others { (other : ℕ) → (other ≡ group → ⊥) → get nat_cmp self.new.members other ≡ get nat_cmp self.old.members other }
        ensures kept { KeepsOthers (S.shows self.old.storage) (S.shows self.new.storage) group }
        ensures id { self.new.id ≡ self.old.id }
        ensures flag { self.new.has_failed ≡ self.old.has_failed }
        ensures met { S.meets self.old.storage self.new.storage (result_err result) }
    {
        if !self.storage.load(self.alloc, group)?.present {
            return Ok(None);
        }
        self.seat(group, Member::down(self.id))?;
        let Some(member) = self.members.get_mut(&group) else {
            return Ok(None);
        };
        let ended = member.open(self.alloc, None, &mut self.storage, group)?;
        Ok(Some(ended))
    }

    /// A group that is stored is opened, as after a start of the node (own): what its snapshot has is
    /// committed, and the node leads on under a committed vote of its own. At a fault, want of memory
    /// included, the node has failed; of the other groups the storage shows what it showed.
    pub fn open_group(&mut self, group: u64) -> Result<Ended<S::Snapshot>, GroupsFault<S::Fault>>
        ensures failed { self.old.has_failed ≡ true → (result ≡ Err Failed) × (self.new ≡ self.old) }
        ensures exists { self.old.has_failed ≡ false → is_some (get nat_cmp self.old.members group) ≡ true
            → (result ≡ Err GroupExists) × (self.new ≡ self.old) }
        ensures ok { (st : Stored) → self.old.has_failed ≡ false → get nat_cmp self.old.members group ≡ None
            → S.is_well self.old.storage → S.shows self.old.storage group (st ∷ []) → st.present ≡ true → IsOpenable self.old.id st
            → IfOk result (λ ended. HasMember self.old.id (get nat_cmp self.new.members) group
            (λ m. HasEnded S.stands (S.is_well self.new.storage) (S.shows self.new.storage group) self.old.id (state_of st) Open None m ended)) }
        ensures unknown { (st : Stored) → self.old.has_failed ≡ false → get nat_cmp self.old.members group ≡ None
            → S.is_well self.old.storage → S.shows self.old.storage group (st ∷ []) → st.present ≡ false → IsRefusedAs UnknownGroup result }
        ensures err { (st : Stored) → self.old.has_failed ≡ false → get nat_cmp self.old.members group ≡ None
            → S.is_well self.old.storage → S.shows self.old.storage group (st ∷ []) → st.present ≡ true → IsOpenable self.old.id st
            → IfErr result (HasMet (λ met. IsLeftByOpening (S.shows self.new.storage group) (S.fails self.new.storage) self.old.id st)) }
        ensures others { (other : ℕ) (x : NodeState) → (other ≡ group → ⊥)
            → StandsAs self.old.id (get nat_cmp self.old.members) (S.is_well self.old.storage) (S.shows self.old.storage) other x
            → OnOk result (StandsAs self.old.id (get nat_cmp self.new.members) (S.is_well self.new.storage) (S.shows self.new.storage) other x) }
        ensures members { (other : ℕ) → (other ≡ group → ⊥) → get nat_cmp self.new.members other ≡ get nat_cmp self.old.members other }
        ensures kept { KeepsOthers (S.shows self.old.storage) (S.shows self.new.storage) group }
        ensures id { self.new.id ≡ self.old.id }
        ensures goes_on { GoesOn self.old.has_failed result self.new.has_failed }
        ensures met { S.meets self.old.storage self.new.storage (fault_met_by_groups result) }
    {
        if self.has_failed {
            return Err(GroupsFault::Failed);
        }
        if self.members.contains_key(&group) {
            return Err(GroupsFault::GroupExists);
        }
        match self.open_member(group) {
            Ok(Some(ended)) => Ok(ended),
            Ok(None) => Err(GroupsFault::UnknownGroup),
            Err(met) => {
                self.has_failed = true;
                Err(GroupsFault::Stopped(Broken::Begun(met)))
            }
        }
    }
}
