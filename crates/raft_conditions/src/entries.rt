//! The conditions under which a leader sends entries.
ghost use Rattle.std.specs.Prelude.{◌≡◌, ◌+◌, ◌==◌};
ghost use Rattle.raft_group_step.specs.Refusal.{do_follow, has_known_configs, has_known_voters, keep_voters};
ghost use Rattle.raft_group_step.specs.Values.{leader_lt};
ghost use Rattle.raft_conditions.specs.ByFacts.{follows};
ghost use Rattle.raft_messages.specs.Memberships.{logged_or_none};

use raft_messages::{GroupEntry, GroupPayload, LoggedPair, membership_after};
use raft_state::{
    BasicNode, EntryPayload, LeaderId, LogId, Membership, Vote, leader_ids_by_term_and_node,
};
use std::cmp::Ordering;

// Whether the first leader is below the second.
fn is_leader_below(a: &LeaderId<u64>, b: &LeaderId<u64>) -> bool
    ensures { result ≡ leader_lt a.now b.now }
{
    matches!(leader_ids_by_term_and_node(a, b), Ordering::Less)
}

// Whether the place is the one behind the last.
fn is_behind(last: u64, index: u64) -> bool
    ensures { result ≡ (index == last + 1) }
{
    last < index && index - last == 1
}

// Whether the entry with this log id may stand behind the last one under the vote.
fn follows(vote: &Vote<u64>, last: Option<LogId<u64>>, id: LogId<u64>) -> bool
    ensures { result ≡ follows vote.now last id }
{
    let is_granted = !is_leader_below(&vote.leader_id, &id.leader_id);
    match last {
        None => id.index == 0 && is_granted,
        Some(last) => {
            is_behind(last.index, id.index)
                && !is_leader_below(&id.leader_id, &last.leader_id)
                && is_granted
        }
    }
}

/// Whether each entry follows the one before, its leader is none lower, and none is above the
/// vote's.
pub(crate) fn do_follow(
    vote: &Vote<u64>,
    previous: Option<LogId<u64>>,
    entries: &[GroupEntry],
) -> bool
    ensures { result ≡ do_follow vote.now previous entries.now }
{
    let mut last = previous;
    for entry in entries {
        if !follows(vote, last, entry.log_id) {
            return false;
        }
        last = Some(entry.log_id);
    }
    true
}

/// Whether the voter groups are the known ones, where some are known.
pub(crate) fn has_known_configs(
    known: Option<LoggedPair>,
    membership: &Membership<u64, BasicNode>,
) -> bool
    ensures { result ≡ has_known_configs (logged_or_none known.entry) membership.now }
{
    match known {
        None => true,
        Some((_, known)) => known.get_joint_config() == membership.get_joint_config(),
    }
}

// The same of a membership that an entry may have.
fn has_known_voters(known: Option<LoggedPair>, payload: &GroupPayload) -> bool
    ensures { result ≡ has_known_voters (logged_or_none known.entry) payload.now }
{
    match payload {
        EntryPayload::Membership(membership) => has_known_configs(known, membership),
        _ => true,
    }
}

/// Whether all memberships among the entries have the known voter groups, or else those of the
/// first one.
pub(crate) fn keep_voters<'a>(known: Option<LoggedPair<'a>>, entries: &'a [GroupEntry]) -> bool
    ensures { result ≡ keep_voters (logged_or_none known.entry) entries.now }
{
    let mut last = known;
    for entry in entries {
        if !has_known_voters(last, &entry.payload) {
            return false;
        }
        last = membership_after(last, entry);
    }
    true
}
