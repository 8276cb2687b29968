//! What a leader tells of its list.
ghost use Rattle.std.specs.Prelude.{◌≡◌};
ghost use Rattle.raft_group_step.specs.StoredGroup.{StoredGroup};
ghost use Rattle.raft_known_state.specs.KnownState.{Knows};
ghost use Rattle.raft_log_ids.specs.LogIdList.{PlacesRise, ids_of};
ghost use Rattle.raft_list_facts.specs.Leads.{base_of, before_all, before_own};

use raft_known_state::KnownState;
use raft_state::{BasicNode, LeaderId, LogId, Vote};

/// What a leader took over (own): the list before its first own entry.
#[derive(Clone, Copy, PartialEq, Eq)]
pub enum Base {
    /// Nothing: its first entry is the first of all.
    Nothing,
    /// All up to this log id.
    UpTo(LogId<u64>),
    /// It can't be told: the leader's first own entry is purged.
    Unknown,
}

/// A node that leads a group (own).
#[derive(Clone, Copy, PartialEq, Eq)]
pub struct Leading {
    /// Its vote.
    pub vote: Vote<u64>,
    /// The last log id of its log, purged or not.
    pub last: Option<LogId<u64>>,
    /// What it took over.
    pub base: Base,
}

// What stands before the leader's first log id among those that the keys tell, where this stands
// before all of them; all that they tell, if none is its own.
fn base_among(keys: &[LogId<u64>], leader: &LeaderId<u64>, first: Base) -> Base
    requires { PlacesRise keys.now }
    ensures { result ≡ before_own leader.now first (ids_of keys.now) }
{
    let mut before = first;
    for (at, key) in keys.iter().enumerate() {
        if key.leader_id == *leader {
            return before;
        }
        let last = if at + 1 < keys.len() {
            keys[at + 1].index - 1
        } else {
            key.index
        };
        before = Base::UpTo(LogId::new(key.leader_id, last));
    }
    before
}

// What stands before all log ids that are known.
fn before_all(known: &KnownState<u64, BasicNode>) -> Base
    ensures { (s : StoredGroup) → Knows known.now s → result ≡ before_all s.purged }
{
    if known.first_place() == 0 {
        Base::Nothing
    } else {
        Base::Unknown
    }
}

/// What the leader of the vote took over, of a stored group of which this is known.
pub fn base_of(known: &KnownState<u64, BasicNode>) -> Base
    ensures { (s : StoredGroup) → Knows known.now s → result ≡ base_of s }
{
    let leader = known.state.vote.get().leader_id;
    let keys = known.state.log_ids.key_log_ids();
    base_among(keys, &leader, before_all(known))
}
