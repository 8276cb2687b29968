//! What is written to the rewrite queue.

ghost use Rattle.std.specs.Prelude.{ℕ, List};
ghost use Rattle.raft_log_covers.specs.Written.{FrontsCount, BehindsCount, RewritesKeepCovers};

/// Of records and atomic groups, a crash leaves a front that counts; of those whose first files
/// are gone, what comes after some place counts.
pub fn parts_of_a_queue_count()
    ensures fronts { FrontsCount (List ℕ) }
    ensures behinds { BehindsCount (List ℕ) }
{}

/// Batches that set each cell to what the content has, or that set cells which kept append batches
/// set, may be written to the rewrite queue: however many of their records a crash leaves, the
/// queue covers the content as before.
pub fn right_rewrites_keep_covers()
    ensures { RewritesKeepCovers (List ℕ) }
{}
