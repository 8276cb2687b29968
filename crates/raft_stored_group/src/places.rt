//! Places above a purge point, and how many entries stand between two of them.
ghost use Rattle.std.specs.Prelude.{◌≡◌, ◌+◌, ◌-◌, ◌^◌, length, min, nat_lt, take, drop};
ghost use Rattle.raft_values.specs.LogId.{next_place};

use raft_messages::GroupEntry;
use raft_state::LogId;

// Whether the place is at the purge point or below it.
pub(crate) fn is_purged(purged: &Option<LogId<u64>>, place: u64) -> bool
    ensures { result ≡ nat_lt place (next_place purged.now) }
{
    match purged {
        None => false,
        Some(purged) => place <= purged.index,
    }
}

// How many places stand above the purge point and below the place.
pub(crate) fn places_below(purged: &Option<LogId<u64>>, place: u64) -> u64
    ensures { result ≡ place - next_place purged.now }
{
    match purged {
        None => place,
        Some(purged) => place.saturating_sub(purged.index).saturating_sub(1),
    }
}

// How many places stand above the first log id, up to the second: 2^64 - 1 in place of 2^64.
fn places_between(from: &Option<LogId<u64>>, to: &Option<LogId<u64>>) -> u64
    ensures { result ≡ min (next_place to.now - next_place from.now) (2 ^ 64 - 1) }
{
    match (from, to) {
        (_, None) => 0,
        (None, Some(to)) => to.index.saturating_add(1),
        (Some(from), Some(to)) => to.index.saturating_sub(from.index),
    }
}

// How many entries a list of so many lacks to go up to the place: 2^64 - 1 in place of 2^64.
pub(crate) fn room_up_to(count: usize, place: u64) -> u64
    ensures { result ≡ min (place + 1 - count) (2 ^ 64 - 1) }
{
    match count {
        0 => place.saturating_add(1),
        _ => place.saturating_sub(count as u64 - 1),
    }
}

// How many of the entries stand up to the second log id, where their first one stands right above
// the first.
pub(crate) fn count_up_to(
    entries: &[GroupEntry],
    from: &Option<LogId<u64>>,
    to: &Option<LogId<u64>>,
) -> usize
    ensures { result ≡ min (next_place to.now - next_place from.now) (length entries.now) }
{
    let count = places_between(from, to) as usize;
    count.min(entries.len())
}

// The entries above the second log id, lent, where their first one stands right above the first.
pub(crate) fn behind<'a>(
    entries: &'a [GroupEntry],
    from: &Option<LogId<u64>>,
    to: &Option<LogId<u64>>,
) -> &'a [GroupEntry]
    ensures { result.now ≡ drop (next_place to.now - next_place from.now) entries.now }
{
    &entries[count_up_to(entries, from, to)..]
}

// The entries up to the second log id, lent, where their first one stands right above the first.
pub(crate) fn up_to<'a>(
    entries: &'a [GroupEntry],
    from: &Option<LogId<u64>>,
    to: &Option<LogId<u64>>,
) -> &'a [GroupEntry]
    ensures { result.now ≡ take (next_place to.now - next_place from.now) entries.now }
{
    &entries[..count_up_to(entries, from, to)]
}
