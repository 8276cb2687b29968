//! Entries seen in another way.

ghost use Rattle.std.specs.Prelude.{ℕ, List};
ghost use Rattle.raft_log_marks.specs.Mapped.{MapsCleanable, MapsTaken};
ghost use Rattle.raft_log_records.specs.declared.item.EntryIndex.{EntryIndex};

/// Which batches memtables take and what can be cleaned is the same of entries as they lie and of
/// their bytes.
pub fn entries_may_be_seen_otherwise()
    ensures taken { MapsTaken EntryIndex (List ℕ) }
    ensures cleanable { MapsCleanable EntryIndex (List ℕ) }
{}
