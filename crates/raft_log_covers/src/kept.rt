//! The invariant of two queues.

ghost use Rattle.std.specs.Prelude.{ℕ, List};
ghost use Rattle.raft_log_covers.specs.Kept.{WritesKeep, MarksKeep, EntriesKeep, KeysKeep};
ghost use Rattle.raft_log_covers.specs.Kept.{KeptFilesCover};
ghost use Rattle.raft_log_covers.specs.Kept.{OpeningsKeep, NewQueuesAreKept, CleansKeep, FilesStay};
ghost use Rattle.raft_log_covers.specs.Kept.{KeptQueuesReadAsTheContent, ReplaysKeep};
ghost use Rattle.raft_log_covers.specs.Kept.{OldRecordsMayGo, WholeGroupsGiveAll};
ghost use Rattle.raft_log_covers.specs.Placed.{PlacesTellFiles, TracesTellKeys};
ghost use Rattle.raft_log_records.specs.declared.item.EntryIndex.{EntryIndex};

/// What memtables keep of each group tells, over all writes and all that cleaning writes, which
/// append files may go: those before the least file that they keep.
pub fn kept_queues_stay_kept()
    ensures writes { WritesKeep (List ℕ) }
    ensures marks { MarksKeep (List ℕ) }
    ensures entries { EntriesKeep (List ℕ) }
    ensures keys { KeysKeep (List ℕ) }
    ensures cleans { CleansKeep (List ℕ) }
    ensures files { KeptFilesCover (List ℕ) }
{}

/// While memtables keep no file before one, the append files before that one may go, in any order:
/// what is left, from whichever file on, reads as the content over the rewrite queue.
pub fn kept_queues_read_as_the_content()
    ensures { KeptQueuesReadAsTheContent (List ℕ) }
{}

/// The invariant holds of new queues, and of every rewrite queue as it is read.
pub fn opened_queues_are_kept()
    ensures opened { OpeningsKeep (List ℕ) }
    ensures new { NewQueuesAreKept (List ℕ) }
    ensures replayed { ReplaysKeep (List ℕ) }
{}

/// Whichever record of a cleaning is the last that a crash leaves, the append files that were kept
/// stay covered.
pub fn cleaning_names_no_earlier_file()
    ensures { FilesStay (List ℕ) }
{}

/// The rewrite queue was written anew: its old records may go, where the new ones give all. They
/// do where they have of each group what memtables say stands in the rewrite queue.
pub fn old_records_may_go()
    ensures go { OldRecordsMayGo (List ℕ) }
    ensures given { WholeGroupsGiveAll (List ℕ) }
{}

/// After a replay the file that an account names is told by what is there: of an entry by its place,
/// of a key by traces that were kept over the batches of the append queue.
pub fn replays_tell_files()
    ensures entries { PlacesTellFiles EntryIndex }
    ensures keys { TracesTellKeys EntryIndex }
{}
