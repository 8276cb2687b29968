//! Which queues are due.

ghost use Rattle.std.specs.Bool.{OnFalse, OnTrue};
ghost use Rattle.std.specs.Prelude.{◌≡◌, false, IfOk, IsOkAnd, MatchOption, None};
ghost use Rattle.raft_log_cleaner.specs.Facts.{TellEntries};
ghost use Rattle.raft_log_cleaner.specs.Told.{queue_of};
ghost use Rattle.raft_log_cleaning.specs.Due.{AreDue, IsRewriteDue, IsRewriteSpared, NoneIsDue};
ghost use Rattle.raft_log_memtables.specs.MemTables.{content_in};
ghost use Rattle.raft_log_purge.specs.Due.{IsLarge};
ghost use Rattle.raft_log_traces.specs.GroupTraces.{traces_in};

use raft_log_cleaner::{PurgeManager, live_of};
use raft_log_pipes::DualPipes;
use raft_log_purge::{QueueFiles, Rewritten, files_of, is_large};
use raft_log_records::LogQueue;
use raft_log_rewriter::is_due;
use raft_log_traced::TracedTables;
use std::alloc::AllocError;

/// Which queues are due.
#[derive(Clone, Copy, PartialEq, Eq)]
pub struct Due {
    /// The rewrite queue is to be written anew.
    pub rewrites: bool,
    /// The append queue is large.
    pub appends: bool,
}

/// Whether the rewrite queue, which is large, has so much that counts no more.
fn has_due_garbage(
    manager: &PurgeManager,
    files: QueueFiles,
    pipes: &DualPipes,
    log: &TracedTables,
) -> Result<bool, AllocError>
    requires entries { TellEntries (traces_in log.now.traces) (content_in log.now.tables) }
    requires files { files ≡ queue_of pipes.now.rewrite }
    requires together { log.now.is_parted ≡ false }
    ensures { IfOk result (λ due. OnTrue due (IsRewriteDue manager.now pipes.now log.now) × OnFalse due (IsRewriteSpared manager.now pipes.now log.now)) }
{
    let live = live_of(log)?;
    let counts = Rewritten {
        written: log.written,
        live,
    };
    let threshold = manager.rewrite_threshold();
    let percent = manager.garbage_percent();
    Ok(is_due(files, counts, threshold, percent))
}

/// Whether the rewrite queue is to be written anew. What counts in it is counted only where it is large.
fn is_rewrite_due(
    manager: &PurgeManager,
    pipes: &DualPipes,
    log: &TracedTables,
) -> Result<bool, AllocError>
    requires { TellEntries (traces_in log.now.traces) (content_in log.now.tables) }
    ensures due { IfOk result (λ due. OnTrue due (IsRewriteDue manager.now pipes.now log.now) × OnFalse due (IsRewriteSpared manager.now pipes.now log.now)) }
    ensures small { (IsLarge (queue_of pipes.now.rewrite) manager.now.rewrite_threshold → ⊥) → IsOkAnd result (λ due. due ≡ false) }
{
    let files = files_of(pipes, LogQueue::Rewrite);
    if log.is_parted {
        return Ok(false);
    }
    let threshold = manager.rewrite_threshold();
    if !is_large(files, threshold) {
        return Ok(false);
    }
    has_due_garbage(manager, files, pipes, log)
}

/// Which queues are due, each by itself.
fn both_due(
    manager: &PurgeManager,
    pipes: &DualPipes,
    log: &TracedTables,
) -> Result<Due, AllocError>
    requires { TellEntries (traces_in log.now.traces) (content_in log.now.tables) }
    ensures due { IfOk result (AreDue manager.now pipes.now log.now) }
    ensures small { (IsLarge (queue_of pipes.now.rewrite) manager.now.rewrite_threshold → ⊥) → IsOkAnd result (λ due. due.rewrites ≡ false) }
{
    let rewrites = is_rewrite_due(manager, pipes, log)?;
    Ok(Due {
        rewrites,
        appends: manager.needs_rewrite_log_files(pipes),
    })
}

/// Which queues of a log are due, if one is (raft-engine's `needs_rewrite_log_files`, of both). The
/// rewrite queue is where it has old files and may have more bytes than a threshold, and more per cent
/// than the settings say of the entries and keys that were written to it, or of these with its marks
/// (own), count no more; but not where an opening found records of an atomic group in it that stand
/// apart. The append queue is where it is large.
/// Neither is where an opening found a batch of the append queue that belongs to an atomic group. The
/// only error is want of memory, and it comes only where the rewrite queue is large.
pub fn due_of(
    manager: &PurgeManager,
    pipes: &DualPipes,
    log: &TracedTables,
) -> Result<Option<Due>, AllocError>
    requires { log.now.has_marked ≡ false → TellEntries (traces_in log.now.traces) (content_in log.now.tables) }
    ensures due { IfOk result (λ due. MatchOption due (NoneIsDue manager.now pipes.now log.now) (AreDue manager.now pipes.now log.now)) }
    ensures small { (IsLarge (queue_of pipes.now.rewrite) manager.now.rewrite_threshold → ⊥) → (IsLarge (queue_of pipes.now.append) manager.now.purge_threshold → ⊥)
        → IsOkAnd result (λ due. due ≡ None) }
{
    if log.has_marked {
        return Ok(None);
    }
    let due = both_due(manager, pipes, log)?;
    if due.rewrites || due.appends {
        Ok(Some(due))
    } else {
        Ok(None)
    }
}
