//! Where a stored log begins and ends.
ghost use Rattle.std.specs.Prelude.{◌≡◌, ◌⊎◌, ◌<◌, ◌≤◌, ◌+◌, ◌-◌, ◌^◌, List, IfErr, IfOk, OnOk, OnErr, max, min, length, take, drop};
ghost use Rattle.raft_store.specs.declared.fault.StoreRefusal.TheVariants as refusal;
ghost use Rattle.raft_values.specs.LogId.{next_place};
ghost use Rattle.raft_group_step.specs.Values.{Entry};

use crate::fault::StoreRefusal;
use raft_state::LogId;
use std::ops::Range;

/// Where a log begins and ends.
#[derive(Clone, Copy)]
pub struct Bounds {
    /// The log id up to which it is purged, if it is.
    pub purged: Option<LogId<u64>>,
    /// The place of its first entry.
    pub first: u64,
    /// The place behind its last one.
    pub end: u64,
}

// How many places stand above the first log id, up to the second: 2^64 - 1 in place of 2^64.
fn places_between(from: Option<LogId<u64>>, to: Option<LogId<u64>>) -> u64
    ensures { result ≡ min (next_place to - next_place from) (2 ^ 64 - 1) }
{
    match (from, to) {
        (_, None) => 0,
        (None, Some(to)) => to.index.saturating_add(1),
        (Some(from), Some(to)) => to.index.saturating_sub(from.index),
    }
}

impl Bounds {
    /// Those of a log that is purged up to the log id and ends before the place. Refuses an end
    /// below the first place.
    pub fn new(purged: Option<LogId<u64>>, end: u64) -> Result<Bounds, StoreRefusal>
        ensures purged { IfOk result (λ b. b.purged ≡ purged) }
        ensures first { IfOk result (λ b. b.first ≡ next_place purged) }
        ensures end { IfOk result (λ b. b.end ≡ end) }
        ensures ordered { OnOk result (next_place purged ≤ end) }
        ensures refused { OnErr result (end < next_place purged) }
    {
        let first = match purged {
            None => 0,
            Some(id) if id.index < end => id.index + 1,
            Some(_) => return Err(StoreRefusal::BadEnd),
        };
        Ok(Bounds { purged, first, end })
    }

    /// Refuses entries that would begin at a place below the log's first one, or past its end.
    pub fn check_place(&self, place: u64) -> Result<(), StoreRefusal>
        ensures low { OnOk result (self.now.first ≤ place) }
        ensures high { OnOk result (place ≤ self.now.end) }
        ensures refused { IfErr result (λ why. (why ≡ refusal.Gap) × ((place < self.now.first) ⊎ (self.now.end < place))) }
    {
        if place < self.first || self.end < place {
            return Err(StoreRefusal::Gap);
        }
        Ok(())
    }

    /// Refuses a purge point below the one that is there.
    pub fn check_purge(&self, id: LogId<u64>) -> Result<(), StoreRefusal>
        ensures low { OnOk result (self.now.first ≤ id.index + 1) }
        ensures refused { IfErr result (λ why. (why ≡ refusal.BelowPurge) × (id.index + 1 < self.now.first)) }
    {
        if id.index < self.first && self.first - id.index > 1 {
            return Err(StoreRefusal::BelowPurge);
        }
        Ok(())
    }

    /// The end of a log that is cut from the place on.
    pub fn cut_end(&self, place: u64) -> u64
        ensures { result ≡ max self.now.first (min self.now.end place) }
    {
        self.first.max(self.end.min(place))
    }

    /// The places of the log's entries.
    pub fn all(&self) -> Range<u64>
        ensures { result ≡ record { start = self.now.first; end = self.now.end } }
    {
        self.first..self.end
    }

    /// The places of the log's entries above the first log id, up to the second. Where the first is
    /// below the purge point, they are as many of the log's first places.
    pub fn between(&self, prev: Option<LogId<u64>>, last: Option<LogId<u64>>) -> Range<u64>
        ensures low { self.now.first ≤ result.start }
        ensures high { result.end ≤ max self.now.end result.start }
        // The entries there are those that are asked for.
        ensures these { (log : List Entry) → self.now.end ≡ self.now.first + length log
            → take (result.end - result.start) (drop (result.start - self.now.first) log)
            ≡ take (next_place last - next_place prev) (drop (next_place prev - self.now.first) log) }
    {
        let start = match prev {
            None => self.first,
            Some(prev) => self.first.max(prev.index.saturating_add(1)),
        };
        let room = self.end.saturating_sub(start);
        let count = places_between(prev, last).min(room);
        start..start + count
    }
}
