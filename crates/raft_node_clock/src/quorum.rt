//! When a quorum of a group was heard of.
ghost use Rattle.std.specs.Prelude.{◌≡◌, ◌∷◌, [], IfOk, map};
ghost use Rattle.raft_node_clock.specs.Heard.{heard_at};
ghost use Rattle.raft_node_clock.specs.Quorum.{IsLatestQuorum, earlier};

use crate::heard::{Heard, heard_at};
use raft_quorums::id_set::IdSet;
use raft_timers::majority_heard;
use std::alloc::{AllocError, Global};

// When each of these was heard of.
fn moments_of(
    alloc: Global,
    own: u64,
    now: u64,
    heards: &[Heard],
    voters: &[u64],
) -> Result<Vec<Option<u64>>, AllocError>
    ensures { IfOk result (λ moments. moments.items ≡ map (heard_at own now heards.now) voters.now) }
{
    voters
        .iter()
        .map(|id| heard_at(own, now, heards, *id))
        .collect(alloc)
}

// The latest moment at or after which more than half of the voter group were heard of.
fn latest_of_group(
    alloc: Global,
    own: u64,
    now: u64,
    heards: &[Heard],
    voters: &IdSet<u64>,
) -> Result<Option<u64>, AllocError>
    ensures { IfOk result (IsLatestQuorum (voters.now ∷ []) (heard_at own now heards.now)) }
{
    let moments = moments_of(alloc, own, now, heards, voters.as_slice())?;
    Ok(majority_heard(moments.as_slice()))
}

// The earlier one of both moments, if there are both.
fn earlier(a: Option<u64>, b: Option<u64>) -> Option<u64>
    ensures { result ≡ earlier a b }
{
    match (a, b) {
        (Some(a), Some(b)) => Some(a.min(b)),
        _ => None,
    }
}

// The latest moment at or after which more than half of each of these were heard of.
fn latest_of_groups(
    alloc: Global,
    own: u64,
    now: u64,
    heards: &[Heard],
    first: &IdSet<u64>,
    others: &[IdSet<u64>],
) -> Result<Option<u64>, AllocError>
    ensures { IfOk result (IsLatestQuorum (first.now ∷ others.now) (heard_at own now heards.now)) }
{
    let mut latest = latest_of_group(alloc, own, now, heards, first)?;
    for group in others {
        let more = latest_of_group(alloc, own, now, heards, group)?;
        latest = earlier(latest, more);
    }
    Ok(latest)
}

/// The latest moment at or after which more than half of each voter group were heard of; none where
/// no such quorum was, or where there is no voter group.
#[tactic(auto, using(crate::proofs::Quorums::of_nobody))]
pub(crate) fn latest_quorum(
    alloc: Global,
    own: u64,
    now: u64,
    heards: &[Heard],
    configs: &[IdSet<u64>],
) -> Result<Option<u64>, AllocError>
    ensures { IfOk result (IsLatestQuorum configs.now (heard_at own now heards.now)) }
{
    match configs.split_first() {
        Some((first, others)) => latest_of_groups(alloc, own, now, heards, first, others),
        None => Ok(None),
    }
}
