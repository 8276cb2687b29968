//! The append queue over the rewrite queue.

ghost use Rattle.std.specs.Prelude.{ℕ, List};
ghost use Rattle.raft_log_covers.specs.Queues.{ReadAsTheContent, WritesKeepCovers};

/// Where the rewrite queue covers the content for the append files from one on, opening gives the
/// content: from that file on, and from any earlier one on, in which files that were let go still
/// stand.
pub fn covered_queues_read_as_the_content()
    ensures { ReadAsTheContent (List ℕ) }
{}

/// A write to the append queue keeps the cover.
pub fn writes_keep_covers()
    ensures { WritesKeepCovers (List ℕ) }
{}
