//! Log ids that may be none.
ghost use Rattle.std.specs.Prelude.{◌≡◌, ◌<◌, ◌^◌, Option, ℕ};
ghost use Rattle.std.specs.Option.{option_map};
ghost use Rattle.raft_values.specs.LogIndex.{next_of};
ghost use Rattle.raft_values.specs.LogId.{is_past, place_of, reaches, stands_before};

use crate::log_id::LogId;
use crate::node::NodeId;

/// The index of a log id that may be none, and the index behind it (openraft).
pub trait LogIdOptionExt {
    // Its index, if there is one.
    ghost place: { Self → Option ℕ };

    /// The index, if there is one.
    fn index(&self) -> Option<u64>
        ensures { result ≡ place self.now };

    /// The index behind it; 0 behind none.
    fn next_index(&self) -> u64
        requires { next_of (place self.now) < 2 ^ 64 }
        ensures { result ≡ next_of (place self.now) };
}

impl<NID: NodeId> LogIdOptionExt for Option<LogId<NID>> {
    ghost place = { place_of };

    fn index(&self) -> Option<u64> {
        match self {
            None => None,
            Some(log_id) => Some(log_id.index),
        }
    }

    fn next_index(&self) -> u64 {
        match self {
            None => 0,
            Some(log_id) => log_id.index + 1,
        }
    }
}

impl<NID: NodeId> LogIdOptionExt for Option<&LogId<NID>> {
    ghost place = { λ id. option_map (λ x. x.now.index) id };

    fn index(&self) -> Option<u64> {
        match self {
            None => None,
            Some(id) => Some(id.index),
        }
    }

    fn next_index(&self) -> u64 {
        match self {
            None => 0,
            Some(id) => id.index + 1,
        }
    }
}

/// Whether the place isn't past the log id; none reaches no place (own).
pub fn reaches<NID: NodeId>(log_id: &Option<LogId<NID>>, index: u64) -> bool
    ensures { result ≡ reaches log_id.now index }
{
    match log_id {
        None => false,
        Some(log_id) => index <= log_id.index,
    }
}

/// Whether the first stands at a lower index than the second; none stands below all.
pub fn stands_before<NID: NodeId>(first: &Option<LogId<NID>>, second: &Option<LogId<NID>>) -> bool
    ensures { result ≡ stands_before first.now second.now }
{
    match (first, second) {
        (_, None) => false,
        (None, Some(_)) => true,
        (Some(a), Some(b)) => a.index < b.index,
    }
}

/// Whether the first comes after the second; none comes before all (own).
pub fn is_past<NID: NodeId>(first: &Option<LogId<NID>>, second: &Option<LogId<NID>>) -> bool
    ensures { result ≡ is_past NID.cmp first.now second.now }
{
    match (first, second) {
        (None, _) => false,
        (Some(_), None) => true,
        (Some(a), Some(b)) => a.cmp(b).is_gt(),
    }
}
