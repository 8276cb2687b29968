//! The entries that were put last, as a store remembers them.
ghost use Rattle.std.specs.Prelude.{◌≡◌, ◌+◌, ◌-◌, ◌<◌, ◌≤◌, ◌^◌, IfSome, drop, length, take};
ghost use Rattle.raft_values.specs.LogId.{next_place};

use raft_state::LogId;

/// The entries that were put last. They are the end of their group's log.
#[derive(Drop)]
pub struct Recent {
    /// The group.
    pub group: u64,
    /// The place of the first one.
    pub place: u64,
    /// The bytes of each.
    pub entries: Vec<Vec<u8>>,
}

// The place behind the log id, if it has a number.
fn place_behind(id: Option<LogId<u64>>) -> Option<u64>
    ensures { IfSome result (λ place. (place ≡ next_place id) × (place < 2 ^ 64)) }
{
    match id {
        None => Some(0),
        Some(id) => id.index.checked_add(1),
    }
}

impl Recent {
    // The bytes at these places, if they are all here.
    fn at(&self, begin: u64, end: u64) -> Option<&[Vec<u8>]>
        ensures low { IfSome result (λ _. self.now.place ≤ begin) }
        ensures some { IfSome result (λ _. begin < end) }
        ensures high { IfSome result (λ _. end ≤ self.now.place + length self.now.entries.items) }
        ensures these { IfSome result (λ found. found.now ≡ take (end - begin) (drop (begin - self.now.place) self.now.entries.items)) }
    {
        if begin < self.place || end <= begin {
            return None;
        }
        let skipped = begin - self.place;
        let count = end - begin;
        let there = self.entries.len() as u64;
        if there < skipped || there - skipped < count {
            return None;
        }
        let rest = &self.entries[skipped as usize..];
        Some(&rest[..count as usize])
    }

    /// The bytes of the group's entries above the first log id, up to the second, if there are any
    /// and they are all here.
    pub fn between(
        &self,
        group: u64,
        prev: Option<LogId<u64>>,
        last: Option<LogId<u64>>,
    ) -> Option<&[Vec<u8>]>
        ensures group { IfSome result (λ _. self.now.group ≡ group) }
        ensures low { IfSome result (λ _. self.now.place ≤ next_place prev) }
        ensures some { IfSome result (λ _. next_place prev < next_place last) }
        ensures high { IfSome result (λ _. next_place last ≤ self.now.place + length self.now.entries.items) }
        ensures these { IfSome result (λ found. found.now
            ≡ take (next_place last - next_place prev) (drop (next_place prev - self.now.place) self.now.entries.items)) }
    {
        if self.group != group {
            return None;
        }
        let begin = place_behind(prev)?;
        let end = place_behind(last)?;
        self.at(begin, end)
    }
}
