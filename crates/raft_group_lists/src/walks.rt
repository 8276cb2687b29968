//! Walks from an entry to those before it in its leader's list.
ghost use Rattle.std.specs.Prelude.{◌≡◌, ◌<◌, ◌≤◌, drop, length, take, MatchOption, Some};
ghost use Rattle.std.specs.Option.{option_copied};
ghost use Rattle.raft_group_lists.specs.Notes.{AreJoined, AreWithin, HasNoId, IsNotedAt, IsWithin, count_to, entries_at, list_to, membership_in, passes, settled_by};

use crate::judge::Judge;
use crate::notes::Noted;
use raft_state::{BasicNode, EntryPayload, LogId, Membership};

// How many entries the list has that ends there.
pub(crate) fn count_to(noted: &[Noted], at: Option<usize>) -> usize
    requires { IsWithin noted.now at }
    ensures { result ≡ count_to noted.now at }
{
    match at {
        Some(k) => noted[k].count,
        None => 0,
    }
}

// Where the last settled entry of the list is noted that ends there, if more is settled than the floor.
pub(crate) fn settled_at(
    noted: &[Noted],
    last: Option<usize>,
    judge: &Judge<'_>,
    floor: usize,
) -> Option<usize>
    requires joined { AreJoined noted.now }
    requires within { IsWithin noted.now last }
    ensures { let settled = settled_by (passes judge.now.voters.now judge.now.leader judge.now.reached.now judge.now.node judge.now.place) (list_to noted.now last) in
        MatchOption result (length settled ≤ floor) (λ k. (k < length noted.now) × (floor < count_to noted.now (Some k)) × (settled ≡ list_to noted.now (Some k))) }
{
    let mut at = last;
    while let Some(k) = at {
        let item = &noted[k];
        if item.count <= floor {
            return None;
        }
        if judge.passes(&item.entry) {
            return Some(k);
        }
        at = item.before;
    }
    None
}

// Puts where the entries past the floor of the list that ends there are noted at their places.
pub(crate) fn fill_above(noted: &[Noted], listed: &mut [usize], last: usize, floor: usize)
    requires joined { AreJoined noted.now }
    requires within { last < length noted.now }
    requires above { floor ≤ count_to noted.now (Some last) }
    requires size { length listed.old ≡ count_to noted.now (Some last) }
    ensures entries { entries_at noted.now (drop floor listed.new) ≡ drop floor (list_to noted.now (Some last)) }
    ensures within { AreWithin noted.now (drop floor listed.new) }
    ensures before { take floor listed.new ≡ take floor listed.old }
    ensures size { length listed.new ≡ length listed.old }
{
    let mut at = Some(last);
    while let Some(k) = at {
        let item = &noted[k];
        if item.count <= floor {
            break;
        }
        listed[item.count - 1] = k;
        at = item.before;
    }
}

// Where an entry of this log id was noted last.
pub(crate) fn find_noted(noted: &[Noted], id: &LogId<u64>) -> Option<usize>
    ensures { MatchOption result (HasNoId noted.now id.now) (IsNotedAt noted.now id.now) }
{
    let mut left = noted.len();
    while left > 0 {
        left -= 1;
        if noted[left].entry.log_id == *id {
            return Some(left);
        }
    }
    None
}

// The last membership of the list that ends there.
pub(crate) fn membership_to(
    noted: &[Noted],
    last: Option<usize>,
) -> Option<&Membership<u64, BasicNode>>
    requires joined { AreJoined noted.now }
    requires within { IsWithin noted.now last }
    ensures { option_copied result ≡ membership_in (list_to noted.now last) }
{
    let mut at = last;
    while let Some(k) = at {
        let item = &noted[k];
        if let EntryPayload::Membership(membership) = &item.entry.payload {
            return Some(membership);
        }
        at = item.before;
    }
    None
}
