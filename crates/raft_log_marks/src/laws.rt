//! What the marks of a group are for.

ghost use Rattle.std.specs.Prelude.{ℕ, List};
ghost use Rattle.raft_log_marks.specs.MarkLaws.{MarksOfAGroupKeep, ChangesNameBehind};
ghost use Rattle.raft_log_marks.specs.MarkLaws.{RewritesNameBehind};
ghost use Rattle.raft_log_marks.specs.Cleaning.{NewQueuesAreCleanable, WritesKeepCleanable};
ghost use Rattle.raft_log_marks.specs.Cleaning.{MarksKeepCleanable, EntriesKeepCleanable};
ghost use Rattle.raft_log_marks.specs.Cleaning.{KeysKeepCleanable, FilesBeforeTheLeastMayGo};
ghost use Rattle.raft_log_marks.specs.Whole.{TakenChangesGoOn, ChangesLeaveLast};
ghost use Rattle.raft_log_marks.specs.Whole.{RewritesLeaveLast, ChangesLeaveWhole};
ghost use Rattle.raft_log_marks.specs.Standing.{CleanedQueuesReadAsTheContent};
ghost use Rattle.raft_log_marks.specs.Standing.{NewQueuesCanBeCleaned, WritesLeaveCleanable};
ghost use Rattle.raft_log_marks.specs.Standing.{FilesThatGoLeaveCleanable};
ghost use Rattle.raft_log_marks.specs.Opened.{ReplaysAreCleanable, SettledGroupsKeepNoFile};
ghost use Rattle.raft_log_marks.specs.Opened.{OpenedQueuesCanBeCleaned, OpenedQueuesTellPlaces};

/// Once the marks of a group stand in the rewrite queue and its trace says so, the invariant of the
/// two queues holds as before.
pub fn marks_keep_queues()
    ensures { MarksOfAGroupKeep (List ℕ) }
{}

/// What stands behind an entry of an append file stands in append files too, so a list may be
/// rewritten from its lowest such entry on, in chunks.
pub fn entries_have_files_behind_them()
    ensures changes { ChangesNameBehind (List ℕ) }
    ensures rewrites { RewritesNameBehind (List ℕ) }
{}

/// New queues can be cleaned, and stay so: over writes, and over each step of a cleaning that was
/// written to the rewrite queue and noted in the traces.
pub fn queues_stay_cleanable()
    ensures new { NewQueuesAreCleanable (List ℕ) }
    ensures writes { WritesKeepCleanable (List ℕ) }
    ensures marks { MarksKeepCleanable (List ℕ) }
    ensures entries { EntriesKeepCleanable (List ℕ) }
    ensures keys { KeysKeepCleanable (List ℕ) }
{}

/// Of queues that can be cleaned the append files before the least one that a group keeps may go, in
/// any order.
pub fn files_before_the_least_may_go()
    ensures { FilesBeforeTheLeastMayGo (List ℕ) }
{}

/// Queues that are opened can be cleaned, whatever append files were left over, by traces of replayed
/// batches and of the places of the entries that are there. Groups of which all stands in the rewrite
/// queue keep no file.
pub fn opened_queues_are_cleanable()
    ensures replayed { ReplaysAreCleanable (List ℕ) }
    ensures opened { OpenedQueuesCanBeCleaned (List ℕ) }
    ensures placed { OpenedQueuesTellPlaces (List ℕ) }
    ensures settled { SettledGroupsKeepNoFile (List ℕ) }
{}

/// What memtables take goes on where the trace has led, if the list has its last entry, also where it
/// has holes. Each change, and what cleaning writes, leaves the last entry there; a list without a
/// hole gets none.
pub fn taken_changes_go_on()
    ensures taken { TakenChangesGoOn (List ℕ) }
    ensures last { ChangesLeaveLast (List ℕ) }
    ensures rewrites { RewritesLeaveLast (List ℕ) }
    ensures whole { ChangesLeaveWhole (List ℕ) }
{}

/// Queues that can be cleaned, as a log engine keeps them from call to call, read as the content. New
/// ones can be cleaned; writes of batches that memtables take, and append files that go of which no
/// trace keeps one, leave them so.
pub fn cleaned_queues_stand()
    ensures read { CleanedQueuesReadAsTheContent (List ℕ) }
    ensures new { NewQueuesCanBeCleaned (List ℕ) }
    ensures writes { WritesLeaveCleanable (List ℕ) }
    ensures gone { FilesThatGoLeaveCleanable (List ℕ) }
{}
