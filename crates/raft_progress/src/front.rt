//! The voters in falling order of their values, and the search for a quorum in front of them.
ghost use Rattle.std.specs.Prelude.{◌≡◌, ◌<◌, ◌≤◌, ◌&&◌, ◌+◌, ◌-◌, true, false, IfSome, IfNone, OnOk};
ghost use Rattle.std.specs.Prelude.{◌++◌, ◌∷◌, [], length, slice_set, slice_index_or, take, IsPermutation};
ghost use Rattle.std.specs.Ordering.{is_le, is_lt};
ghost use Rattle.raft_quorums.specs.Nodes.{has_node};
ghost use Rattle.raft_progress.specs.Granted.{IsFalling, IsGranted, IsFallingBut};
ghost use Rattle.raft_progress.specs.Search.{EndsQuorum, HasNoQuorum};

use crate::borrow::Borrow;
use raft_quorums::{HasId, QuorumSet};
use raft_values::NodeId;
use std::alloc::AllocError;

// The ids of these entries, as a set.
#[derive(Drop)]
struct Front<'a, ID, V> {
    entries: &'a [(ID, V)],
}

impl<'a, ID: NodeId, V> HasId<ID> for Front<'a, ID, V> {
    ghost has = { λ f. has_node ID.eq f.entries.now };

    fn has_id(&self, id: &ID) -> bool {
        self.entries.iter().any(|entry| entry.0 == *id)
    }
}

// Whether a is below b.
pub(crate) fn is_below<P: Ord>(a: &P, b: &P) -> bool
    ensures { result ≡ is_lt (P.cmp a.now b.now) }
{
    a < b
}

// Whether the entry at the index is above the one before it.
fn rises_at<ID: NodeId, V: Borrow<P>, P: Ord>(voters: &[(ID, V)], at: usize) -> bool
    requires after_one { 0 < at }
    requires within { at < length voters.now }
    ensures { (d : ID × V) → result ≡ is_lt (P.cmp (V.borrowed (slice_index_or voters.now (at - 1) d).1) (V.borrowed (slice_index_or voters.now at d).1)) }
{
    is_below(voters[at - 1].1.borrow(), voters[at].1.borrow())
}

// Moves the entry at the index up past the lesser ones, and answers its new index.
fn move_up<ID: NodeId, V: Copy + Borrow<P>, P: Copy + Ord>(
    voters: &mut [(ID, V)],
    index: usize,
) -> usize
    requires { index < length voters.old }
    ensures permutation { IsPermutation voters.old voters.new }
    ensures place { result ≤ index }
    ensures front { take result voters.new ≡ take result voters.old }
    ensures entry { (d : ID × V) → slice_index_or voters.new result d ≡ slice_index_or voters.old index d }
    ensures falling { IsFallingBut P.cmp V.borrowed index voters.old → IsFalling P.cmp V.borrowed voters.new }
{
    let mut at = index;
    while at > 0 && rises_at(voters, at) {
        voters.swap(at - 1, at);
        at -= 1;
    }
    at
}

// Whether an entry stands at the index, above what is granted.
fn is_above_at<ID: NodeId, V: Borrow<P>, P: Ord>(voters: &[(ID, V)], at: usize, granted: &P) -> bool
    requires { at ≤ length voters.now }
    ensures above { result ≡ true → (at < length voters.now) × ((x : ID × V) → is_lt (P.cmp granted.now (V.borrowed (slice_index_or voters.now at x).1)) ≡ true) }
    ensures rests { result ≡ false → (x : ID × V) → at < length voters.now → is_lt (P.cmp granted.now (V.borrowed (slice_index_or voters.now at x).1)) ≡ false }
{
    if at == voters.len() {
        return false;
    }
    is_below(granted, voters[at].1.borrow())
}

// Whether the entry at the index and those in front of it are a quorum.
fn is_quorum_to<ID: NodeId, V, QS: QuorumSet<ID>>(
    quorum_set: &QS,
    voters: &[(ID, V)],
    at: usize,
) -> bool
    requires { at < length voters.now }
    ensures { result ≡ QS.accepts quorum_set.now (has_node ID.eq (take (at + 1) voters.now)) }
{
    let front = Front {
        entries: &voters[..at + 1],
    };
    quorum_set.is_quorum(&front)
}

// The first index from `from` on where the entry and those in front of it are a quorum, or the end.
// It is found by halving: where they are a quorum, they are one with those behind them too.
fn quorum_end<ID: NodeId, V, QS: QuorumSet<ID>>(
    quorum_set: &QS,
    voters: &[(ID, V)],
    from: usize,
) -> usize
    requires { from ≤ length voters.now }
    ensures within { result ≤ length voters.now }
    ensures first { (0 < from → QS.accepts quorum_set.now (has_node ID.eq (take from voters.now)) ≡ false)
        → 0 < result → QS.accepts quorum_set.now (has_node ID.eq (take result voters.now)) ≡ false }
    ensures quorum { result < length voters.now → QS.accepts quorum_set.now (has_node ID.eq (take (result + 1) voters.now)) ≡ true }
{
    let mut reached = from;
    let mut end = voters.len();
    'halving: while reached < end {
        let at = reached + (end - reached) / 2;
        if is_quorum_to(quorum_set, voters, at) {
            end = at;
        } else {
            reached = at + 1;
        }
    }
    end
}

// The first index from `from` on where the entry and those in front of it are a quorum, if it is
// above what is granted; where the entries fall, none behind it is above otherwise.
fn find_quorum<ID: NodeId, V: Borrow<P>, P: Ord, QS: QuorumSet<ID>>(
    quorum_set: &QS,
    voters: &[(ID, V)],
    from: usize,
    granted: &P,
) -> Option<usize>
    requires { from ≤ length voters.now }
    ensures found { IfSome result (EndsQuorum ID.eq P.cmp V.borrowed (QS.accepts quorum_set.now) voters.now from granted.now) }
    ensures none { IfNone result (HasNoQuorum ID.eq P.cmp V.borrowed (QS.accepts quorum_set.now) voters.now from granted.now) }
{
    let starts_above = is_above_at(voters, from, granted);
    if !starts_above {
        return None;
    }
    let end = quorum_end(quorum_set, voters, from);
    let ends_above = is_above_at(voters, end, granted);
    if !ends_above {
        return None;
    }
    Some(end)
}

// Sets the value at the index, which is no less than the one there, and answers what is granted
// from then on.
pub(crate) fn raise<ID: NodeId, V: Copy + Borrow<P>, P: Copy + Ord, QS: QuorumSet<ID>>(
    quorum_set: &QS,
    granted: P,
    voters: &mut [(ID, V)],
    index: usize,
    value: V,
) -> P
    requires within { index < length voters.old }
    requires rises { (x : ID × V) → is_le (P.cmp (V.borrowed (slice_index_or voters.old index x).1) (V.borrowed value)) ≡ true }
    ensures values { (x : ID × V) → IsPermutation (slice_set voters.old index ((slice_index_or voters.old index x).0, value)) voters.new }
    ensures falling { IsFalling P.cmp V.borrowed voters.old → IsFalling P.cmp V.borrowed voters.new }
    ensures grows { is_le (P.cmp granted result) ≡ true }
    ensures granted { (default : P) → IsFalling P.cmp V.borrowed voters.old
        → IsGranted ID.eq P.cmp V.borrowed (QS.accepts quorum_set.now) default granted voters.old
        → IsGranted ID.eq P.cmp V.borrowed (QS.accepts quorum_set.now) default result voters.new }
{
    let (id, before) = voters[index];
    voters[index] = (id, value);
    let at = move_up(voters, index);
    let was_above = is_below(&granted, before.borrow());
    if was_above || !is_below(&granted, value.borrow()) {
        return granted;
    }
    match find_quorum(quorum_set, voters, at, &granted) {
        Some(end) => *voters[end].1.borrow(),
        None => granted,
    }
}

// Puts the entry among voters in falling order.
pub(crate) fn push_falling<ID: NodeId, V: Copy + Borrow<P>, P: Copy + Ord>(
    voters: &mut Vec<(ID, V)>,
    entry: (ID, V),
) -> Result<(), AllocError>
    ensures entries { OnOk result (IsPermutation (voters.old.items ++ entry ∷ []) voters.new.items) }
    ensures falling { OnOk result (IsFalling P.cmp V.borrowed voters.old.items → IsFalling P.cmp V.borrowed voters.new.items) }
{
    voters.push(entry)?;
    let last = voters.len() - 1;
    move_up(voters.as_mut_slice(), last);
    Ok(())
}

// What these voters, in falling order, grant over the default.
pub(crate) fn granted_by<ID: NodeId, V: Copy + Borrow<P>, P: Copy + Ord, QS: QuorumSet<ID>>(
    quorum_set: &QS,
    voters: &[(ID, V)],
    default: P,
) -> P
    ensures { IsFalling P.cmp V.borrowed voters.now
        → IsGranted ID.eq P.cmp V.borrowed (QS.accepts quorum_set.now) default result voters.now }
{
    match find_quorum(quorum_set, voters, 0, &default) {
        Some(end) => *voters[end].1.borrow(),
        None => default,
    }
}
