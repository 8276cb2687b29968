//! What a leader may commit.
ghost use Rattle.std.specs.Prelude.{◌≡◌, ℕ, ◌<◌, ◌≤◌, ◌^◌, max};
ghost use Rattle.std.specs.List.{AllByRecursion};
ghost use Rattle.raft_log_ids.specs.LogIdList.{IsBelowNext, end_of_key, leader_ids};
ghost use Rattle.raft_leaders.specs.Accepted.{IsAcceptedEnd, WroteNoneWithin, greatest_accepted, has_accepted, last_own_within};
ghost use Rattle.raft_leaders.specs.Leader.{end_of};

use crate::leader::Leader;
use raft_state::{HasId, LeaderId, LogId, LogIdList, QuorumSet};

// Who has accepted all up to a place.
#[derive(Drop)]
struct Acceptors<'a, QS: QuorumSet<u64>> {
    leader: &'a Leader<u64, QS>,
    own: u64,
    end: u64,
    place: u64,
}

impl<'a, QS: QuorumSet<u64> + Drop> HasId<u64> for Acceptors<'a, QS> {
    ghost has = { λ a. has_accepted a.own a.leader.now a.end a.place };

    fn has_id(&self, id: &u64) -> bool {
        if *id == self.own {
            return self.place < self.end;
        }
        match self.leader.peer(id).matching {
            None => false,
            Some(last) => self.place <= last.index,
        }
    }
}

// Whether a quorum has accepted all up to the place.
fn is_accepted<QS: QuorumSet<u64> + Drop, VS: QuorumSet<u64>>(
    leader: &Leader<u64, QS>,
    own: u64,
    end: u64,
    place: u64,
    voters: &VS,
) -> bool
    ensures { result ≡ VS.accepts voters.now (has_accepted own leader.now end place) }
{
    let acceptors = Acceptors {
        leader,
        own,
        end,
        place,
    };
    voters.is_quorum(&acceptors)
}

// The place behind the greatest one below the end, from a place on, that a quorum has accepted; that
// place if there is none. It is found by halving: who has accepted all up to a place has accepted all
// up to a lower one.
fn accepted_end<QS: QuorumSet<u64> + Drop, VS: QuorumSet<u64>>(
    leader: &Leader<u64, QS>,
    own: u64,
    from: u64,
    end: u64,
    voters: &VS,
) -> u64
    ensures { IsAcceptedEnd own leader.now (VS.accepts voters.now) from end result }
{
    let mut reached = from;
    let mut refused = end;
    'halving: while reached < refused {
        let place = reached + (refused - reached) / 2;
        if is_accepted(leader, own, end, place, voters) {
            reached = place + 1;
        } else {
            refused = place;
        }
    }
    reached
}

// The last log id below the place of those that the key tells: they end at the next key, or right
// behind the last one.
fn last_under(key: &LogId<u64>, rest: &[LogId<u64>], below: u64) -> LogId<u64>
    requires next { IsBelowNext key.now rest.now }
    requires some { key.now.index < below }
    ensures leader { result.leader_id ≡ key.now.leader_id }
    ensures within { (key.now.index ≤ result.index) × (result.index < end_of_key key.now rest.now) × (result.index < below) }
    ensures last { (place : ℕ) → result.index < place → place < end_of_key key.now rest.now → below ≤ place }
{
    match rest {
        [] => *key,
        [next, ..] if next.index < below => LogId::new(key.leader_id, next.index - 1),
        [_, ..] => LogId::new(key.leader_id, below - 1),
    }
}

// The same, if the leader wrote what the key tells, and the log id stands from the place on.
fn own_within(
    key: &LogId<u64>,
    rest: &[LogId<u64>],
    from: u64,
    below: u64,
    leader_id: LeaderId<u64>,
) -> Option<LogId<u64>>
    requires { IsBelowNext key.now rest.now }
    ensures { result ≡ last_own_within leader_id from below (leader_ids key.now.leader_id key.now.index (end_of_key key.now rest.now)) }
{
    if key.leader_id != leader_id {
        return None;
    }
    if below <= key.index {
        return None;
    }
    let last = last_under(key, rest, below);
    if last.index < from {
        return None;
    }
    Some(last)
}

// The last of the leader's own log ids from the one place on and below the other, found from the last
// key on. No key before one that stands no higher than the first place is read.
fn last_own_within(
    log_ids: &LogIdList<u64>,
    from: u64,
    below: u64,
    leader_id: LeaderId<u64>,
) -> Option<LogId<u64>>
    ensures { result ≡ last_own_within leader_id from below log_ids.now }
{
    let keys = log_ids.key_log_ids();
    for back in 0..keys.len() {
        let at = keys.len() - 1 - back;
        let own = own_within(&keys[at], &keys[at + 1..], from, below, leader_id);
        if own.is_some() {
            return own;
        }
        if keys[at].index <= from {
            return None;
        }
    }
    None
}

// The place behind the last log id, below which all stand.
fn end_of_log(log_ids: &LogIdList<u64>) -> u64
    requires { end_of log_ids.now < 2 ^ 64 }
    ensures end { result ≡ end_of log_ids.now }
    ensures below { AllByRecursion (λ id. id.index < result) log_ids.now }
{
    match log_ids.key_log_ids().last() {
        None => 0,
        Some(last) => last.index + 1,
    }
}

/// The greatest of these log ids, from a place on, that a leader may commit: its own ones, up to which
/// a quorum has accepted its log; none if there is no such one (openraft, which compares log ids in
/// place of places). The leader has accepted what it has, and a peer up to where it matches. `own` is
/// the leader's node id, the log ids are its log's, and the voters those of the membership in force.
/// What stands below the leader's first entry isn't read: in a log that it was made over, and has only
/// appended to, it wrote nothing there. Nor does the cost depend on what stands below the place.
pub fn greatest_accepted<QS: QuorumSet<u64> + Drop, VS: QuorumSet<u64>>(
    leader: &Leader<u64, QS>,
    own: u64,
    log_ids: &LogIdList<u64>,
    from: u64,
    voters: &VS,
) -> Option<LogId<u64>>
    requires { end_of log_ids.now < 2 ^ 64 }
    ensures of_log { WroteNoneWithin leader.now.vote.leader_id from leader.now.noop_log_id.index log_ids.now
        → result ≡ greatest_accepted own leader.now (VS.accepts voters.now) from log_ids.now }
    ensures of_any { result ≡ greatest_accepted own leader.now (VS.accepts voters.now) (max from leader.now.noop_log_id.index) log_ids.now }
{
    let lowest = from.max(leader.noop_log_id().index);
    let end = end_of_log(log_ids);
    let reached = accepted_end(leader, own, lowest, end, voters);
    if reached <= lowest {
        return None;
    }
    last_own_within(log_ids, lowest, reached, leader.vote_ref().leader_id)
}
