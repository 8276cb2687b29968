//! All groups that are kept, one after the other, and the place of each.
ghost use Rattle.std.specs.Prelude.{◌≡◌, ◌<◌, ℕ, length, slice_get, Some, IfOk, OnOk};
ghost use Rattle.std.specs.BTreeMap.{get};
ghost use Rattle.std.specs.Ordering.{nat_cmp};
ghost use Rattle.raft_cluster_lists.specs.Groups.{BringsTo, GoesOnByCall, GoesOnByOpening, IsPreparedFor, IsReadyFor, KeepReady};
ghost use Rattle.raft_cluster_lists.specs.Hearing.{group_of};
ghost use Rattle.raft_cluster_lists.specs.Lists.{IsReady, TakesOne};
ghost use Rattle.raft_cluster_lists.specs.declared.kept.KeptGroup.{KeptGroup};
ghost use Rattle.raft_cluster_lists.specs.Places.{AreKeptSo, ArePlaces, AreReady, EachGoesOn, GoesOnAlone, IsKeptAt, IsNoLess, IsPreparedAt};

use crate::brought::{Brought, brought_by};
use crate::kept::KeptGroup;
use raft_cluster_events::{Acceptance, ClusterEvent, ClusterNode, EventOutcome, Leading};
use std::alloc::{AllocError, Global};
use std::collections::BTreeMap;

/// Where each group stands, by its id.
pub(crate) type Places = BTreeMap<u64, usize>;

// Where the group stands; it is kept from now on, if it wasn't.
pub(crate) fn keep(
    alloc: Global,
    groups: &mut Vec<KeptGroup>,
    places: &mut Places,
    group: u64,
) -> Result<usize, AllocError>
    requires { ArePlaces (get nat_cmp places.old) groups.old.items }
    ensures places { ArePlaces (get nat_cmp places.new) groups.new.items }
    ensures there { IfOk result (IsKeptAt groups.new.items group) }
    ensures others { AreKeptSo group groups.old.items groups.new.items }
{
    if let Some(at) = places.get(&group) {
        return Ok(*at);
    }
    let at = groups.len();
    groups.reserve(1)?;
    places.insert(group, at)?;
    groups.push_reserved(KeptGroup::new(alloc, group));
    Ok(at)
}

// Finds memory for so many events of the group that stands there, and copies what this event brings to it.
fn prepare_at(
    alloc: Global,
    groups: &mut [KeptGroup],
    at: usize,
    leading: &Option<Leading>,
    event: &ClusterEvent,
    events: usize,
) -> Result<Brought, AllocError>
    requires { at < length groups.old }
    ensures same { EachGoesOn (λ h. IsNoLess) groups.old groups.new }
    ensures there { IfOk result (IsPreparedAt groups.new at leading.now event.now events) }
{
    let kept = &mut groups[at];
    kept.make_room(events)?;
    brought_by(alloc, &kept.list, leading, event)
}

// The event's group is kept from now on, and prepared.
pub(crate) fn prepare_group(
    alloc: Global,
    groups: &mut Vec<KeptGroup>,
    places: &mut Places,
    group: u64,
    leading: &Option<Leading>,
    event: &ClusterEvent,
    events: usize,
) -> Result<Brought, AllocError>
    requires places { ArePlaces (get nat_cmp places.old) groups.old.items }
    requires of_group { group_of event.now ≡ Some group }
    ensures places { ArePlaces (get nat_cmp places.new) groups.new.items }
    ensures groups { IsPreparedFor event.now groups.old.items groups.new.items }
    ensures ready { OnOk result (IsReadyFor event.now events groups.new.items) }
    ensures keep { OnOk result (KeepReady events events groups.old.items groups.new.items) }
    ensures brings { IfOk result (BringsTo groups.new.items leading.now event.now) }
{
    let at = keep(alloc, groups, places, group)?;
    prepare_at(alloc, groups.as_mut_slice(), at, leading, event, events)
}

// The group that stands there hears of a call or message of it.
pub(crate) fn hear_at<N: ClusterNode>(
    groups: &mut [KeptGroup],
    at: usize,
    node: &N,
    outcome: &EventOutcome,
    accepted: Option<Acceptance>,
    brought: Brought,
)
    requires within { at < length groups.old }
    requires ready { (kept : KeptGroup) → slice_get groups.old at ≡ Some kept → IsReady kept 1 }
    ensures room { EachGoesOn (λ h. TakesOne) groups.old groups.new }
    ensures heard { GoesOnAlone (λ h. GoesOnByCall (N.acts.id node.now) (N.acts.leads node.now) h outcome.now accepted brought) at groups.old groups.new }
{
    let kept = &mut groups[at];
    let leading = node.leading(kept.group);
    kept.hear_call(node.id(), leading, outcome, accepted, brought);
}

// Finds memory for so many events of each group.
pub(crate) fn make_room_in(groups: &mut [KeptGroup], events: usize) -> Result<(), AllocError>
    ensures ok { OnOk result (AreReady groups.new events) }
    ensures same { EachGoesOn (λ h. IsNoLess) groups.old groups.new }
{
    for kept in groups.iter_mut() {
        kept.make_room(events)?;
    }
    Ok(())
}

// Each group hears of the opening of the node.
pub(crate) fn hear_openings<N: ClusterNode>(
    groups: &mut [KeptGroup],
    node: &N,
    outcome: &EventOutcome,
)
    requires { AreReady groups.old 1 }
    ensures room { EachGoesOn (λ h. TakesOne) groups.old groups.new }
    ensures heard { EachGoesOn (λ h. GoesOnByOpening (N.acts.id node.now) (N.acts.leads node.now) h outcome.now) groups.old groups.new }
{
    let id = node.id();
    for kept in groups.iter_mut() {
        let leading = node.leading(kept.group);
        kept.hear_opening(id, leading, outcome);
    }
}
