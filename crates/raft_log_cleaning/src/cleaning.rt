//! How much of the log is cleaned.

ghost use Rattle.std.specs.List.Sorted.{IsStrictlySortedBy};
ghost use Rattle.std.specs.Ordering.{nat_cmp};
ghost use Rattle.std.specs.Prelude.{◌≡◌, ◌+◌, ◌↔◌, ℕ, true, false, IfErr, IfOk, IsTrue, OnErr, OnOk, Option};
ghost use Rattle.raft_log_cleaner.specs.Caused.{IsCleaningFault};
ghost use Rattle.raft_log_cleaner.specs.Cleaning.{CanCleanSome, Cleans, IsLeftStanding, KeepsFromBarrier};
ghost use Rattle.raft_log_cleaner.specs.Live.{AreLive};
ghost use Rattle.raft_log_cleaner.specs.Pipes.{KeepBoth, KeepsRewrites};
ghost use Rattle.raft_log_cleaner.specs.Told.{AreTold, is_among, marks_of_pipe, queue_of};
ghost use Rattle.raft_log_cleaning.specs.Extents.{HasNewRewrites, HasOnlyNew, MayClean, writes_anew};
ghost use Rattle.raft_log_cleaning.specs.Told.{IsCleanedAnew};
ghost use Rattle.raft_log_cleaning.specs.Stale.{IsPurged};
ghost use Rattle.raft_log_cleaning.specs.declared.cleaning.Extent.TheVariants.{All, Expired, Rewrites, Stale};
ghost use Rattle.raft_log_cleaning.specs.declared.due.Due.{Due};
ghost use Rattle.raft_log_disk.specs.Cause.{RefusesNoMore};
ghost use Rattle.raft_log_memtables.specs.MemTables.{content_in};
ghost use Rattle.raft_log_pipe.specs.Pipe.{first_of};
ghost use Rattle.raft_log_purge.specs.Due.{IsLarge};
ghost use Rattle.raft_log_purge.specs.Going.{GoesToNeeded};
ghost use Rattle.raft_log_traces.specs.GroupTraces.{traces_in};

use crate::due::Due;
use crate::expired::{purge_expired, write_anew};
use raft_log_cleaner::{PurgeManager, RewriteStep};
use raft_log_files::{Error, FileSystem};
use raft_log_pipes::DualPipes;
use raft_log_records::FileSeq;
use raft_log_traced::TracedTables;
use std::alloc::Global;

/// How much of the log is cleaned.
#[derive(Clone, Copy, PartialEq, Eq)]
pub enum Extent {
    /// All that is written to the append queue.
    All,
    /// What is due: the rewrite queue, which is written anew, and the oldest files of an append queue
    /// that is large.
    Expired(Due),
    /// The rewrite queue, which is written anew.
    Rewrites,
    /// All files of both queues that nothing needs, whatever they hold.
    Stale,
}

/// What a cleaning did.
#[derive(Drop)]
pub struct Cleaned {
    /// So many append files went, where all was to be cleaned or all that is stale was to go.
    pub went: u64,
    /// These groups are told to compact.
    pub told: Vec<u64>,
}

/// Whether so much of a log may be cleaned, by what an opening found of atomic groups.
pub fn may_clean(extent: Extent, log: &TracedTables) -> bool
    ensures { IsTrue result ↔ MayClean extent log.now }
{
    match extent {
        Extent::All => !log.has_marked,
        Extent::Expired(due) => !log.has_marked && !(due.rewrites && log.is_parted),
        Extent::Rewrites | Extent::Stale => !log.has_marked && !log.is_parted,
    }
}

/// Writes to the rewrite queue what this step does of the append files, up to the last one that is
/// written, and lets those go that are needed no more. Answers how many went.
fn clean_all<F: FileSystem>(
    manager: &PurgeManager,
    files: &mut F,
    pipes: &mut DualPipes,
    log: &mut TracedTables,
    step: RewriteStep,
    barrier: Option<FileSeq>,
) -> Result<u64, Error>
    requires { CanCleanSome (F.disk files.old) pipes.old log.old }
    ensures cleans { Cleans (F.disk files.old) pipes.old log.old (F.disk files.new) pipes.new log.new result }
    ensures both { OnOk result (KeepBoth (F.disk files.old) pipes.old (F.disk files.new) pipes.new) }
    ensures stands { OnErr result (IsLeftStanding (F.disk files.old) pipes.old log.old (F.disk files.new) pipes.new) }
    ensures barrier { OnOk result (KeepsFromBarrier barrier pipes.old pipes.new) }
    ensures gone { OnOk result (GoesToNeeded (traces_in log.new.traces) barrier pipes.old.append pipes.new.append) }
    ensures count { IfOk result (λ n. first_of pipes.old.append + n ≡ first_of pipes.new.append) }
    ensures held { OnOk result (KeepsRewrites pipes.old pipes.new) }
    ensures later { RefusesNoMore (F.is_bounded files.old) (F.is_bounded files.new) (F.meter files.old) (F.meter files.new) }
    ensures cause { IfErr result (λ e. IsCleaningFault (F.meter files.old) (F.meter files.new) e) }
{
    if let Err(error) = manager.must_rewrite_append_queue(files, pipes, log, None, step) {
        return Err(error);
    }
    manager.purge_append_files(files, pipes, log, barrier)
}

/// Lets all files of both queues go that nothing needs, whatever they hold. The rewrite queue is
/// written anew, so none of its files of before is needed. Then groups get their marks, so that no
/// append file stays for their sake. Answers how many append files went.
fn purge_stale<F: FileSystem>(
    alloc: Global,
    manager: &PurgeManager,
    files: &mut F,
    pipes: &mut DualPipes,
    log: &mut TracedTables,
    barrier: Option<FileSeq>,
) -> Result<u64, Error>
    requires can { CanCleanSome (F.disk files.old) pipes.old log.old }
    requires together { log.old.is_parted ≡ false }
    ensures cleans { Cleans (F.disk files.old) pipes.old log.old (F.disk files.new) pipes.new log.new result }
    ensures both { OnOk result (KeepBoth (F.disk files.old) pipes.old (F.disk files.new) pipes.new) }
    ensures stands { OnErr result (IsLeftStanding (F.disk files.old) pipes.old log.old (F.disk files.new) pipes.new) }
    ensures barrier { OnOk result (KeepsFromBarrier barrier pipes.old pipes.new) }
    ensures purged { OnOk result (IsPurged (F.disk files.old) pipes.old log.old barrier (F.disk files.new) pipes.new log.new) }
    ensures count { IfOk result (λ n. first_of pipes.old.append + n ≡ first_of pipes.new.append) }
    ensures replaced { OnOk result (HasNewRewrites pipes.old pipes.new) }
    ensures later { RefusesNoMore (F.is_bounded files.old) (F.is_bounded files.new) (F.meter files.old) (F.meter files.new) }
    ensures cause { IfErr result (λ e. IsCleaningFault (F.meter files.old) (F.meter files.new) e) }
{
    if let Err(error) = write_anew(alloc, files, pipes, log) {
        return Err(error);
    }
    clean_all(manager, files, pipes, log, RewriteStep::Marks, barrier)
}

/// Cleans as much of the log as is asked for, and no append file goes from the barrier on. After an
/// `Err` the log is to be opened again.
pub fn clean<F: FileSystem>(
    alloc: Global,
    manager: &mut PurgeManager,
    files: &mut F,
    pipes: &mut DualPipes,
    log: &mut TracedTables,
    extent: Extent,
    barrier: Option<FileSeq>,
) -> Result<Cleaned, Error>
    requires can { CanCleanSome (F.disk files.old) pipes.old log.old }
    requires may { MayClean extent log.old }
    ensures cleans { Cleans (F.disk files.old) pipes.old log.old (F.disk files.new) pipes.new log.new result }
    ensures both { OnOk result (KeepBoth (F.disk files.old) pipes.old (F.disk files.new) pipes.new) }
    ensures stands { OnErr result (IsLeftStanding (F.disk files.old) pipes.old log.old (F.disk files.new) pipes.new) }
    ensures barrier { OnOk result (KeepsFromBarrier barrier pipes.old pipes.new) }
    ensures gone { extent ≡ All → OnOk result (GoesToNeeded (traces_in log.new.traces) barrier pipes.old.append pipes.new.append) }
    ensures expired { (due : Due) → extent ≡ Expired due → IsLarge (queue_of pipes.old.append) manager.old.purge_threshold
        → OnOk result (GoesToNeeded (traces_in log.new.traces) barrier pipes.old.append pipes.new.append) }
    ensures stale { extent ≡ Stale → OnOk result (IsPurged (F.disk files.old) pipes.old log.old barrier (F.disk files.new) pipes.new log.new) }
    ensures count { extent ≡ All → IfOk result (λ done. first_of pipes.old.append + done.went ≡ first_of pipes.new.append) }
    ensures stale_count { extent ≡ Stale → IfOk result (λ done. first_of pipes.old.append + done.went ≡ first_of pipes.new.append) }
    ensures held { writes_anew extent ≡ false → OnOk result (KeepsRewrites pipes.old pipes.new) }
    ensures replaced { writes_anew extent ≡ true → OnOk result (HasNewRewrites pipes.old pipes.new) }
    ensures anew { extent ≡ Rewrites → OnOk result (HasOnlyNew pipes.old pipes.new) }
    ensures begins_again { extent ≡ Rewrites → OnOk result (AreLive log.old log.new.written) }
    ensures told { (due : Due) → extent ≡ Expired due → due.rewrites ≡ false → IsLarge (queue_of pipes.old.append) manager.old.purge_threshold
        → IfOk result (λ done. AreTold log.old (marks_of_pipe pipes.old.append) manager.old.reports manager.new.reports done.told.items) }
    ensures both_queues { (due : Due) → extent ≡ Expired due → due.rewrites ≡ true → IfOk result (λ done. IsCleanedAnew (F.disk files.old) pipes.old log.old manager.old
        (F.disk files.new) pipes.new log.new manager.new.reports done.told.items) }
    ensures rising { IfOk result (λ done. IsStrictlySortedBy nat_cmp done.told.items) }
    ensures there { IfOk result (λ done. (group : ℕ) → is_among done.told.items group ≡ true → (content_in log.old.tables group).there ≡ true) }
    ensures threshold { manager.new.purge_threshold ≡ manager.old.purge_threshold }
    ensures later { RefusesNoMore (F.is_bounded files.old) (F.is_bounded files.new) (F.meter files.old) (F.meter files.new) }
    ensures cause { IfErr result (λ e. IsCleaningFault (F.meter files.old) (F.meter files.new) e) }
{
    match extent {
        Extent::All => match clean_all(manager, files, pipes, log, RewriteStep::Rewrites, barrier) {
            Ok(went) => Ok(Cleaned {
                went,
                told: Vec::new(alloc),
            }),
            Err(error) => Err(error),
        },
        Extent::Expired(due) => match purge_expired(
            alloc, manager, files, pipes, log, due, barrier,
        ) {
            Ok(told) => Ok(Cleaned { went: 0, told }),
            Err(error) => Err(error),
        },
        Extent::Rewrites => match write_anew(alloc, files, pipes, log) {
            Ok(()) => Ok(Cleaned {
                went: 0,
                told: Vec::new(alloc),
            }),
            Err(error) => Err(error),
        },
        Extent::Stale => match purge_stale(alloc, manager, files, pipes, log, barrier) {
            Ok(went) => Ok(Cleaned {
                went,
                told: Vec::new(alloc),
            }),
            Err(error) => Err(error),
        },
    }
}
