//! What cleaning writes of a group.

ghost use Rattle.std.specs.Prelude.{ℕ, List};
ghost use Rattle.raft_log_covers.specs.Marks.{MarksSettle, CleansSettle, EntriesSettle, KeysSettle};
ghost use Rattle.raft_log_covers.specs.Marks.{BatchesJoin};

/// After the marks of a group its account names entries and keys that are there, and what lies
/// past the last entry; all else that was removed stands in the rewrite queue as removed.
pub fn marks_settle_what_was_removed()
    ensures there { MarksSettle (List ℕ) }
    ensures gone { CleansSettle (List ℕ) }
{}

/// Entries and keys that were rewritten are named no more, and with the last entry nothing behind
/// it.
pub fn rewritten_entries_and_keys_are_settled()
    ensures entries { EntriesSettle (List ℕ) }
    ensures keys { KeysSettle (List ℕ) }
    ensures joined { BatchesJoin (List ℕ) }
{}
