//! Laws and worked rows.

ghost use Rattle.std.specs.Prelude.{◌≡◌, ℕ, List};
ghost use Rattle.raft_log_purge.specs.StepLaws.{StepsKeepCleanable, BatchesOfStepsKeepCleanable};
ghost use Rattle.raft_log_purge.specs.StepLaws.{StepsKeepFiles, StepsLeaveCleanable};
ghost use Rattle.raft_log_purge.specs.Watermarks.{mark_at};

/// Marks, entries and keys of groups that are written to the rewrite queue, one by one or several in
/// one record, keep the invariant of the two queues; and no file is kept behind them that wasn't
/// kept before.
pub fn cleaning_steps_keep_queues()
    ensures steps { StepsKeepCleanable (List ℕ) }
    ensures batches { BatchesOfStepsKeepCleanable (List ℕ) }
    ensures files { StepsKeepFiles (List ℕ) }
    ensures leave { StepsLeaveCleanable (List ℕ) }
{}

/// The marks of short spans of files: of those from 1 to 11, and of 1 and 2.
pub fn worked_marks()
    ensures eleven_compact { mark_at 1 11 20 ≡ 3 }
    ensures eleven_rewrite { mark_at 1 11 70 ≡ 8 }
    ensures two_compact { mark_at 1 2 20 ≡ 1 }
    ensures two_rewrite { mark_at 1 2 70 ≡ 1 }
{}
