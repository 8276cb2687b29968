//! What is written together.

ghost use Rattle.std.specs.Prelude.{ℕ, List};
ghost use Rattle.raft_log_covers.specs.Joined.{PartsCount, PartsKeep, FrontsKeep, ChunksCount};
ghost use Rattle.raft_log_covers.specs.Joined.{ChunksAreRun};

/// Batches of one group or of several may be written one by one, as one record, or as one atomic
/// group of records: they count the same, and the invariant of the two queues holds the same. Of
/// one atomic group a crash leaves all or nothing.
pub fn what_is_written_together_counts_as_its_parts()
    ensures count { PartsCount (List ℕ) }
    ensures kept { PartsKeep (List ℕ) }
    ensures fronts { FrontsKeep (List ℕ) }
{}

/// The entries of a list may be written in chunks, if all of them count together.
pub fn chunks_count_as_one_list()
    ensures count { ChunksCount (List ℕ) }
    ensures run { ChunksAreRun (List ℕ) }
{}
