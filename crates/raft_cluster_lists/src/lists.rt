//! What a cluster keeps of all its groups.
ghost use Rattle.std.specs.Prelude.{◌≡◌, ◌↔◌, ℕ, suc, [], length, slice_get, IfOk, IsTrue, OnOk};
ghost use Rattle.std.specs.Option.{option_copied};
ghost use Rattle.raft_cluster_lists.specs.Groups.{BringsTo, IsHeard, IsPreparedFor, IsReadyFor, KeepReady, entries_of, kept_in};

use crate::brought::{Brought, group_of, is_opening, nothing};
use crate::each::{Places, hear_at, hear_openings, make_room_in, prepare_group};
use crate::kept::KeptGroup;
use raft_cluster_events::{Acceptance, ClusterEvent, ClusterNode, EventOutcome, Leading};
use raft_state::{BasicNode, Bytes, Entry};
use std::alloc::{AllocError, Global};
use std::collections::BTreeMap;
use std::marker::Model;

/// What a cluster keeps of each of its groups (own). Contracts see the groups, in the order in which they came to be kept.
#[derive(Drop)]
pub struct ClusterLists {
    alloc: Global,
    groups: Vec<KeptGroup>,
    places: Places,
}

impl Model for ClusterLists {
    ghost use Rattle.std.specs.Prelude.{List};
    ghost use Rattle.std.specs.BTreeMap.{get};
    ghost use Rattle.std.specs.Ordering.{nat_cmp};
    ghost use Rattle.raft_cluster_lists.specs.declared.kept.KeptGroup.{KeptGroup};
    ghost use Rattle.raft_cluster_lists.specs.Places.{ArePlaces};

    ghost Value = { List KeptGroup };

    ghost view = { λ x. x.groups.items };

    ghost invariant = { λ x. ArePlaces (get nat_cmp x.places) x.groups.items };
}

impl ClusterLists {
    /// Nothing is kept. Takes no memory.
    pub fn new(alloc: Global) -> ClusterLists
        ensures { result ≡ [] }
    {
        ClusterLists {
            alloc,
            groups: Vec::new(alloc),
            places: BTreeMap::new(alloc),
        }
    }

    /// How many groups are kept.
    pub fn len(&self) -> usize
        ensures { result ≡ length self.now }
    {
        self.groups.len()
    }

    /// Whether no group is kept.
    pub fn is_empty(&self) -> bool
        ensures { IsTrue result ↔ (self.now ≡ []) }
    {
        self.groups.is_empty()
    }

    /// What is kept of the group, lent, if anything is.
    pub fn get(&self, group: u64) -> Option<&KeptGroup>
        ensures { option_copied result ≡ kept_in self.now group }
    {
        match self.places.get(&group) {
            Some(at) => Some(&self.groups[*at]),
            None => None,
        }
    }

    /// How many entries the group's list has. One that isn't kept has none.
    pub fn list_len(&self, group: u64) -> usize
        ensures { result ≡ length (entries_of (kept_in self.now group)) }
    {
        match self.get(group) {
            Some(kept) => kept.list.len(),
            None => 0,
        }
    }

    /// The entry at this place of the group's list, lent; none past its end.
    pub fn entry(&self, group: u64, place: usize) -> Option<&Entry<u64, BasicNode, Bytes>>
        ensures { option_copied result ≡ slice_get (entries_of (kept_in self.now group)) place }
    {
        match self.get(group) {
            Some(kept) => kept.list.get(place),
            None => None,
        }
    }

    /// Before an event, which is one of so many that come at once: finds memory for what it may bring to groups, and copies what it
    /// brings to its own one, which its node leads with this. From now on that is kept. What was prepared for as many stays so. An
    /// `Err` is want of memory: the same is kept, and maybe the event's group, with nothing noted of it.
    pub fn prepare(
        &mut self,
        leading: &Option<Leading>,
        event: &ClusterEvent,
        events: usize,
    ) -> Result<Brought, AllocError>
        ensures groups { IsPreparedFor event.now self.old self.new }
        ensures ready { OnOk result (IsReadyFor event.now events self.new) }
        ensures keep { OnOk result (KeepReady events events self.old self.new) }
        ensures brings { IfOk result (BringsTo self.new leading.now event.now) }
    {
        match group_of(event) {
            Some(group) => prepare_group(
                self.alloc,
                &mut self.groups,
                &mut self.places,
                group,
                leading,
                event,
                events,
            ),
            None if is_opening(event) => {
                make_room_in(self.groups.as_mut_slice(), events)?;
                Ok(nothing())
            }
            None => Ok(nothing()),
        }
    }

    /// Behind an event that came to this node: its group's list goes on with it, or with an opening each group's, by what the node
    /// leads them with now. It was prepared, so it can't fail; what was prepared for more events stays so for one less.
    pub fn hear_event<N: ClusterNode>(
        &mut self,
        node: &N,
        event: &ClusterEvent,
        outcome: &EventOutcome,
        accepted: Option<Acceptance>,
        brought: Brought,
    )
        requires { IsReadyFor event.now 1 self.old }
        ensures room { (n : ℕ) → KeepReady (suc n) n self.old self.new }
        ensures heard { IsHeard (N.acts.id node.now) (N.acts.leads node.now) event.now outcome.now accepted brought self.old self.new }
    {
        match group_of(event) {
            Some(group) => {
                if let Some(at) = self.places.get(&group) {
                    let groups = self.groups.as_mut_slice();
                    hear_at(groups, *at, node, outcome, accepted, brought);
                }
            }
            None if is_opening(event) => {
                hear_openings(self.groups.as_mut_slice(), node, outcome);
            }
            None => {}
        }
    }
}
