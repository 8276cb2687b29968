//! How high the terms of a log go.
ghost use Rattle.std.specs.Prelude.{◌≤◌};
ghost use Rattle.raft_known_state.specs.KnownState.{AreUpToTerm, entry_ids};

use raft_state::{BasicNode, Bytes, Entry};

// The highest of the term and those of the entries.
pub(crate) fn highest_term(term: u64, entries: &[Entry<u64, BasicNode, Bytes>]) -> u64
    ensures least { term ≤ result }
    ensures above { AreUpToTerm result (entry_ids entries.now) }
{
    let mut highest = term;
    for entry in entries {
        highest = highest.max(entry.log_id.leader_id.term);
    }
    highest
}
