//! Leaders among the log ids that keys tell.
ghost use Rattle.std.specs.Prelude.{◌≡◌};
ghost use Rattle.std.specs.Option.{option_copied};
ghost use Rattle.std.specs.List.{list_any};
ghost use Rattle.raft_log_ids.specs.LogIdList.{PlacesRise, ids_of};
ghost use Rattle.raft_known_state.specs.KnownState.{is_of_leader_from, stands_under};

use raft_state::{LeaderId, LogId};

// Whether one of the log ids that the key tells stands at the place or above it: its leader ends
// at the next key, or right behind the last one.
fn goes_up_to(key: &LogId<u64>, next: Option<&LogId<u64>>, place: u64) -> bool
    ensures { result ≡ stands_under place key.now (option_copied next.entry) }
{
    match next {
        Some(next) => place < next.index,
        None => place <= key.index,
    }
}

// Whether the leader has a log id at the place or above it, among those that the keys tell.
pub(crate) fn has_leader_from(keys: &[LogId<u64>], place: u64, leader: &LeaderId<u64>) -> bool
    requires { PlacesRise keys.now }
    ensures { result ≡ list_any (is_of_leader_from leader.now place) (ids_of keys.now) }
{
    for (at, key) in keys.iter().enumerate() {
        if key.leader_id == *leader && goes_up_to(key, keys.get(at + 1), place) {
            return true;
        }
    }
    false
}
