//! The machines of a node's groups, and room for the tokens that wait for them.
ghost use Rattle.std.specs.Prelude.{◌≡◌, ◌≤◌, ◌+◌, vec_len, vec_capacity};
ghost use Rattle.std.specs.BTreeMap.{btree_map_len};

use crate::naming::{waiting_tokens, with_one};
use raft_applier::{Applier, Progress};
use raft_group_storage::GroupStorage;
use raft_machines::{StateMachine, UnknownTokens, Untold};
use raft_member::Member;
use raft_messages::SnapshotBytes;
use std::alloc::{AllocError, Global};
use std::collections::BTreeMap;

/// What is applied of each group, by the group's id (own). It has room to name all tokens that wait,
/// each with its group, and one more, so that a node stops without memory.
#[derive(Drop)]
pub(crate) struct Machines<M: StateMachine> {
    pub(crate) appliers: BTreeMap<u64, Applier<M>>,
    // A place for each group, and one for a token that there was no room for.
    pub(crate) places: Vec<UnknownTokens>,
    // Room for that token.
    pub(crate) spare: Vec<Untold>,
    ghost places_free: { vec_len places ≡ 0 },
    ghost places_suffice: { btree_map_len appliers + 1 ≤ vec_capacity places },
    ghost spare_free: { vec_len spare ≡ 0 },
    ghost spare_suffices: { 1 ≤ vec_capacity spare },
}

impl<M: StateMachine> Machines<M> {
    ghost use Rattle.std.specs.Prelude.{◌<◌, ◌^◌, ◌++◌, ◌∷◌, [], ℕ, IfOk, OnOk, OnErr, IfNone, IfSome, Some, None, is_some, option_and_then};
    ghost use Rattle.std.specs.Option.{option_copied};
    ghost use Rattle.std.specs.Ordering.{nat_cmp};
    ghost use Rattle.std.specs.BTreeMap.{get};
    ghost use Rattle.raft_group_step.specs.StoredGroup.{StoredGroup as Stored, end_place};
    ghost use Rattle.raft_group_step.specs.GroupState.{GroupState, Untold as Waiting};
    ghost use Rattle.raft_group_step.specs.GroupEvent.{GroupEvent};
    ghost use Rattle.raft_group_step.specs.GroupStep.{group_step};
    ghost use Rattle.std.specs.Result.{result_err};
    ghost use Rattle.raft_group_storage.specs.Keeping.{FailsAnyhow, KeepsAll};
    ghost use Rattle.raft_member.specs.Member.{IsIdle, IsUp};
    ghost use Rattle.raft_machines.specs.Telling.{untold_of};
    ghost use Rattle.raft_applier.specs.Applied.{HasGone};
    ghost use Rattle.raft_applier.specs.Following.{AreOfMachine, IsStep, with_brought};
    ghost use Rattle.raft_node.specs.Running.{RunsAt, running_at};
    ghost use Rattle.raft_node.specs.Waiting.{named_of, one_more, waiting_of};

    /// Of no group (own). It fails for want of memory alone.
    pub(crate) fn new(alloc: Global) -> Result<Machines<M>, AllocError>
        ensures { (group : ℕ) → IfOk result (λ m. get nat_cmp m.appliers group ≡ None) }
    {
        Ok(Machines {
            appliers: BTreeMap::new(alloc),
            places: Vec::with_capacity(alloc, 1)?,
            spare: Vec::with_capacity(alloc, 1)?,
        })
    }

    /// What is applied of the group, lent (own).
    pub(crate) fn get(&self, group: u64) -> Option<&Applier<M>>
        ensures { option_copied result ≡ get nat_cmp self.now.appliers group }
    {
        self.appliers.get(&group)
    }

    /// The group's applier is this one from now on (own). It fails for want of memory alone.
    pub(crate) fn seat(&mut self, group: u64, applier: Applier<M>) -> Result<(), AllocError>
        ensures ok { OnOk result (get nat_cmp self.new.appliers group ≡ Some applier) }
        ensures others { (other : ℕ) → (other ≡ group → ⊥) → get nat_cmp self.new.appliers other ≡ get nat_cmp self.old.appliers other }
        ensures err { (other : ℕ) → OnErr result (get nat_cmp self.new.appliers other ≡ get nat_cmp self.old.appliers other) }
    {
        // One for this group, and one for a token that there was no room for.
        self.places.reserve(self.appliers.len() + 2)?;
        match self.appliers.insert(group, applier) {
            Ok(_) => Ok(()),
            Err(refused) => Err(AllocError::from(refused)),
        }
    }

    /// The token waits for the group's next place, if the group is there (own). It fails for want of
    /// memory alone.
    pub(crate) fn take_token(
        &mut self,
        member: &Member,
        group: u64,
        token: u64,
    ) -> Result<(), AllocError>
        ensures ok { (e : _) (s : GroupState) → member.now.engine ≡ Some e → IsIdle member.now.id e s → end_place s.stored < 2 ^ 64
            → RunsAt M.rules (running_at M.state self.old.appliers group) s
            → OnOk result (RunsAt M.rules (running_at M.state self.new.appliers group)
            (record s { untold = s.untold ++ record { token = token; place = end_place s.stored } ∷ [] })) }
        ensures err { (s : GroupState) → RunsAt M.rules (running_at M.state self.old.appliers group) s
            → OnErr result (RunsAt M.rules (running_at M.state self.new.appliers group) s) }
        ensures others { (other : ℕ) → (other ≡ group → ⊥) → get nat_cmp self.new.appliers other ≡ get nat_cmp self.old.appliers other }
    {
        match self.appliers.get_mut(&group) {
            Some(applier) => applier.take_token(member, token),
            None => Ok(()),
        }
    }

    /// The token that the group took last waits no more (own).
    pub(crate) fn give_back_token(&mut self, group: u64)
        ensures back { (s : GroupState) (x : Waiting) → RunsAt M.rules (running_at M.state self.old.appliers group) (record s { untold = s.untold ++ x ∷ [] })
            → RunsAt M.rules (running_at M.state self.new.appliers group) s }
        ensures others { (other : ℕ) → (other ≡ group → ⊥) → get nat_cmp self.new.appliers other ≡ get nat_cmp self.old.appliers other }
    {
        if let Some(applier) = self.appliers.get_mut(&group) {
            applier.give_back_token();
        }
    }

    /// The group's machine follows an event that its member has done, if the group is there (own). At
    /// a fault of the storage the same tokens wait.
    pub(crate) fn catch_up<S: GroupStorage<Snapshot = SnapshotBytes>>(
        &mut self,
        alloc: Global,
        member: &Member,
        storage: &mut S,
        group: u64,
    ) -> Option<Result<Progress, S::Fault>>
        ensures there { is_some result ≡ is_some (get nat_cmp self.old.appliers group) }
        ensures well { S.is_well storage.old → IfSome result (λ r. OnOk r (S.is_well storage.new)) }
        ensures ok { (s : GroupState) (e : GroupEvent) → AreOfMachine M.rules S.stands → IsStep member.now.id s e
            → IsUp (S.is_well storage.old) (S.shows storage.old group) member.now (group_step member.now.id s e).state
            → RunsAt M.rules (running_at M.state self.old.appliers group) (with_brought s e)
            → IfSome result (λ r. OnOk r (RunsAt M.rules (running_at M.state self.new.appliers group) (group_step member.now.id s e).state)) }
        ensures gone { (s : GroupState) (e : GroupEvent) → AreOfMachine M.rules S.stands → IsStep member.now.id s e
            → IsUp (S.is_well storage.old) (S.shows storage.old group) member.now (group_step member.now.id s e).state
            → RunsAt M.rules (running_at M.state self.old.appliers group) (with_brought s e)
            → IfSome result (λ r. IfOk r (HasGone M.rules (group_step member.now.id s e))) }
        ensures err { IfSome result (λ r. OnErr r
            (waiting_of (running_at M.state self.new.appliers group) ≡ waiting_of (running_at M.state self.old.appliers group))) }
        ensures others { (other : ℕ) → (other ≡ group → ⊥) → get nat_cmp self.new.appliers other ≡ get nat_cmp self.old.appliers other }
        ensures failed { (s : Stored) → S.is_well storage.old → S.shows storage.old group (s ∷ []) → IfSome result (λ r. OnErr r (FailsAnyhow (S.fails storage.new))) }
        ensures kept { KeepsAll (S.shows storage.old) (S.shows storage.new) }
        ensures absent { S.is_well storage.old → IfNone result (S.is_well storage.new) }
        ensures met { S.meets storage.old storage.new (option_and_then result_err result) }
    {
        match self.appliers.get_mut(&group) {
            Some(applier) => Some(applier.catch_up(alloc, member, storage, group)),
            None => None,
        }
    }

    /// The tokens that wait, each with its group (own). Takes no memory.
    pub(crate) fn into_unknown(self) -> Vec<UnknownTokens>
        ensures { (group : ℕ) → named_of result.items group ≡ waiting_of (running_at M.state self.appliers group) }
    {
        let Machines {
            appliers,
            places,
            spare: _,
        } = self;
        waiting_tokens(places, appliers)
    }

    /// The tokens that wait, each with its group, and this one of this group, that there was no room
    /// for (own). Takes no memory.
    pub(crate) fn into_unknown_with(self, group: u64, token: Untold) -> Vec<UnknownTokens>
        ensures { (other : ℕ) → named_of result.items other ≡ waiting_of (running_at M.state self.appliers other) ++ one_more other group token }
    {
        let Machines {
            appliers,
            places,
            spare,
        } = self;
        let unknown = waiting_tokens(places, appliers);
        let tokens = with_one(spare, token);
        with_one(unknown, UnknownTokens { group, tokens })
    }
}
