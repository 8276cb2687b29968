//! What is asked of a log that can be cleaned.
ghost use Rattle.std.specs.Prelude.{◌≡◌, ℕ, List, IfOk, OnOk};
ghost use Rattle.std.specs.List.Sorted.{IsStrictlySortedBy};
ghost use Rattle.std.specs.Ordering.{nat_cmp};
ghost use Rattle.std.specs.Result.{result_err};
ghost use Rattle.raft_content_log.specs.Leaving.{LeavesNoMore};

use crate::content_log::ContentLog;

/// A log that lets go of what counts no more (own).
pub trait CleanLog: ContentLog {
    /// Writes anew what still counts in old files and lets these go, where it is time for that
    /// (raft-engine's `purge_expired_files`). Answers the groups that hold old files back, rising: each
    /// of them is to be compacted. The content stays, whatever the call answers; behind one that failed
    /// the log is to be opened again.
    fn clean(&mut self) -> Result<Vec<u64>, Self::Fault>
        ensures rising { IfOk result (λ groups. IsStrictlySortedBy nat_cmp groups.items) }
        ensures sound { Self.ContentLog.is_sound self.old → OnOk result (Self.ContentLog.is_sound self.new) }
        ensures kept { Self.ContentLog.is_sound self.new → Self.ContentLog.is_sound self.old × (Self.ContentLog.answers self.new ≡ Self.ContentLog.answers self.old) }
        ensures left { LeavesNoMore (Self.ContentLog.leaves self.old) (Self.ContentLog.leaves self.new) }
        ensures met { Self.ContentLog.meets self.old self.new (result_err result) };
}
