//! Both queues, cleaned where they are due.

ghost use Rattle.std.specs.List.Sorted.{IsStrictlySortedBy};
ghost use Rattle.std.specs.Ordering.{nat_cmp};
ghost use Rattle.std.specs.Prelude.{◌≡◌, ◌+◌, ℕ, false, true, IfErr, IfOk, OnErr, OnOk, Option};
ghost use Rattle.raft_log_cleaner.specs.Caused.{IsCleaningFault};
ghost use Rattle.raft_log_cleaner.specs.Cleaning.{CanCleanSome, Cleans, IsLeftStanding, KeepsFromBarrier};
ghost use Rattle.raft_log_cleaner.specs.Live.{AreLive};
ghost use Rattle.raft_log_cleaner.specs.Pipes.{KeepBoth, KeepsRewrites};
ghost use Rattle.raft_log_cleaner.specs.Told.{AreTold, is_among, marks_of_pipe, queue_of};
ghost use Rattle.raft_log_cleaning.specs.Extents.{HasNewRewrites, HasOnlyNew};
ghost use Rattle.raft_log_cleaning.specs.Told.{AreMany, IsCleanedAnew, IsToldBehind, is_named};
ghost use Rattle.raft_log_disk.specs.Cause.{RefusesNoMore};
ghost use Rattle.raft_log_memtables.specs.MemTables.{content_in};
ghost use Rattle.raft_log_purge.specs.Due.{IsLarge};
ghost use Rattle.raft_log_purge.specs.Going.{GoesToNeeded};
ghost use Rattle.raft_log_traces.specs.GroupTraces.{traces_in};

use crate::due::Due;
use crate::told::{Named, groups_of, many_rewritten, name_all};
use raft_log_cleaner::{PurgeManager, live_of};
use raft_log_files::{Error, FileSystem};
use raft_log_pipes::DualPipes;
use raft_log_records::FileSeq;
use raft_log_rewriter::must_rewrite_rewrite_queue;
use raft_log_traced::TracedTables;
use std::alloc::Global;

/// Writes the rewrite queue anew, and lets its old files go.
fn write_queue<F: FileSystem>(
    alloc: Global,
    files: &mut F,
    pipes: &mut DualPipes,
    log: &mut TracedTables,
) -> Result<(), Error>
    requires can { CanCleanSome (F.disk files.old) pipes.old log.old }
    requires together { log.old.is_parted ≡ false }
    ensures cleans { Cleans (F.disk files.old) pipes.old log.old (F.disk files.new) pipes.new log.new result }
    ensures both { OnOk result (KeepBoth (F.disk files.old) pipes.old (F.disk files.new) pipes.new) }
    ensures stands { OnErr result (IsLeftStanding (F.disk files.old) pipes.old log.old (F.disk files.new) pipes.new) }
    ensures anew { OnOk result (HasOnlyNew pipes.old pipes.new) }
    ensures append { pipes.new.append ≡ pipes.old.append }
    ensures barrier { (barrier : Option ℕ) → OnOk result (KeepsFromBarrier barrier pipes.old pipes.new) }
    ensures later { RefusesNoMore (F.is_bounded files.old) (F.is_bounded files.new) (F.meter files.old) (F.meter files.new) }
    ensures cause { IfErr result (λ e. IsCleaningFault (F.meter files.old) (F.meter files.new) e) }
{
    must_rewrite_rewrite_queue(alloc, files, pipes, log)
}

/// Writes the rewrite queue anew, and lets its old files go. Its counters begin again: as much was
/// written then as counted of it.
pub(crate) fn write_anew<F: FileSystem>(
    alloc: Global,
    files: &mut F,
    pipes: &mut DualPipes,
    log: &mut TracedTables,
) -> Result<(), Error>
    requires can { CanCleanSome (F.disk files.old) pipes.old log.old }
    requires together { log.old.is_parted ≡ false }
    ensures cleans { Cleans (F.disk files.old) pipes.old log.old (F.disk files.new) pipes.new log.new result }
    ensures both { OnOk result (KeepBoth (F.disk files.old) pipes.old (F.disk files.new) pipes.new) }
    ensures stands { OnErr result (IsLeftStanding (F.disk files.old) pipes.old log.old (F.disk files.new) pipes.new) }
    ensures anew { OnOk result (HasOnlyNew pipes.old pipes.new) }
    ensures append { pipes.new.append ≡ pipes.old.append }
    ensures begins_again { OnOk result (AreLive log.old log.new.written) }
    ensures barrier { (barrier : Option ℕ) → OnOk result (KeepsFromBarrier barrier pipes.old pipes.new) }
    ensures later { RefusesNoMore (F.is_bounded files.old) (F.is_bounded files.new) (F.meter files.old) (F.meter files.new) }
    ensures cause { IfErr result (λ e. IsCleaningFault (F.meter files.old) (F.meter files.new) e) }
{
    let live = live_of(log)?;
    write_queue(alloc, files, pipes, log)?;
    log.written = live;
    Ok(())
}

/// Writes the rewrite queue anew, and names the groups that are told to compact then.
fn write_and_tell<F: FileSystem>(
    alloc: Global,
    files: &mut F,
    pipes: &mut DualPipes,
    log: &mut TracedTables,
) -> Result<Named, Error>
    requires can { CanCleanSome (F.disk files.old) pipes.old log.old }
    requires together { log.old.is_parted ≡ false }
    ensures cleans { Cleans (F.disk files.old) pipes.old log.old (F.disk files.new) pipes.new log.new result }
    ensures both { OnOk result (KeepBoth (F.disk files.old) pipes.old (F.disk files.new) pipes.new) }
    ensures stands { OnErr result (IsLeftStanding (F.disk files.old) pipes.old log.old (F.disk files.new) pipes.new) }
    ensures anew { OnOk result (HasOnlyNew pipes.old pipes.new) }
    ensures append { pipes.new.append ≡ pipes.old.append }
    ensures begins_again { OnOk result (AreLive log.old log.new.written) }
    ensures told { IfOk result (λ many. AreMany log.old (is_named many)) }
    ensures later { RefusesNoMore (F.is_bounded files.old) (F.is_bounded files.new) (F.meter files.old) (F.meter files.new) }
    ensures cause { IfErr result (λ e. IsCleaningFault (F.meter files.old) (F.meter files.new) e) }
{
    let many = many_rewritten(alloc, log)?;
    write_anew(alloc, files, pipes, log)?;
    Ok(many)
}

/// Cleans the append queue where it is large. Answers the groups that are told then, with others that
/// were named before.
fn purge_appends<F: FileSystem>(
    alloc: Global,
    manager: &mut PurgeManager,
    files: &mut F,
    pipes: &mut DualPipes,
    log: &mut TracedTables,
    mut many: Named,
    barrier: Option<FileSeq>,
) -> Result<Vec<u64>, Error>
    requires { CanCleanSome (F.disk files.old) pipes.old log.old }
    ensures cleans { Cleans (F.disk files.old) pipes.old log.old (F.disk files.new) pipes.new log.new result }
    ensures held { OnOk result (KeepsRewrites pipes.old pipes.new) }
    ensures both { OnOk result (KeepBoth (F.disk files.old) pipes.old (F.disk files.new) pipes.new) }
    ensures stands { OnErr result (IsLeftStanding (F.disk files.old) pipes.old log.old (F.disk files.new) pipes.new) }
    ensures barrier { OnOk result (KeepsFromBarrier barrier pipes.old pipes.new) }
    ensures gone { IsLarge (queue_of pipes.old.append) manager.old.purge_threshold
        → OnOk result (GoesToNeeded (traces_in log.new.traces) barrier pipes.old.append pipes.new.append) }
    ensures rising { IfOk result (λ told. IsStrictlySortedBy nat_cmp told.items) }
    ensures there { ((group : ℕ) → is_named many group ≡ true → (content_in log.old.tables group).there ≡ true)
        → IfOk result (λ told. (group : ℕ) → is_among told.items group ≡ true → (content_in log.old.tables group).there ≡ true) }
    ensures told { IfOk result (λ told. IsToldBehind manager.old pipes.old log.old manager.new.reports (is_named many) told.items) }
    ensures threshold { manager.new.purge_threshold ≡ manager.old.purge_threshold }
    ensures later { RefusesNoMore (F.is_bounded files.old) (F.is_bounded files.new) (F.meter files.old) (F.meter files.new) }
    ensures cause { IfErr result (λ e. IsCleaningFault (F.meter files.old) (F.meter files.new) e) }
{
    let told = manager.purge_expired_files(files, pipes, log, barrier)?;
    name_all(&mut many, &told)?;
    let groups = groups_of(alloc, &many)?;
    Ok(groups)
}

/// Cleans both queues, the rewrite queue first.
fn purge_both<F: FileSystem>(
    alloc: Global,
    manager: &mut PurgeManager,
    files: &mut F,
    pipes: &mut DualPipes,
    log: &mut TracedTables,
    barrier: Option<FileSeq>,
) -> Result<Vec<u64>, Error>
    requires can { CanCleanSome (F.disk files.old) pipes.old log.old }
    requires together { log.old.is_parted ≡ false }
    ensures cleans { Cleans (F.disk files.old) pipes.old log.old (F.disk files.new) pipes.new log.new result }
    ensures both { OnOk result (KeepBoth (F.disk files.old) pipes.old (F.disk files.new) pipes.new) }
    ensures stands { OnErr result (IsLeftStanding (F.disk files.old) pipes.old log.old (F.disk files.new) pipes.new) }
    ensures barrier { OnOk result (KeepsFromBarrier barrier pipes.old pipes.new) }
    ensures gone { IsLarge (queue_of pipes.old.append) manager.old.purge_threshold
        → OnOk result (GoesToNeeded (traces_in log.new.traces) barrier pipes.old.append pipes.new.append) }
    ensures rising { IfOk result (λ told. IsStrictlySortedBy nat_cmp told.items) }
    ensures there { IfOk result (λ told. (group : ℕ) → is_among told.items group ≡ true → (content_in log.old.tables group).there ≡ true) }
    ensures anew { IfOk result (λ told. IsCleanedAnew (F.disk files.old) pipes.old log.old manager.old (F.disk files.new) pipes.new log.new manager.new.reports told.items) }
    ensures replaced { OnOk result (HasNewRewrites pipes.old pipes.new) }
    ensures threshold { manager.new.purge_threshold ≡ manager.old.purge_threshold }
    ensures later { RefusesNoMore (F.is_bounded files.old) (F.is_bounded files.new) (F.meter files.old) (F.meter files.new) }
    ensures cause { IfErr result (λ e. IsCleaningFault (F.meter files.old) (F.meter files.new) e) }
{
    let many = write_and_tell(alloc, files, pipes, log)?;
    purge_appends(alloc, manager, files, pipes, log, many, barrier)
}

/// Cleans what is due of both queues, and answers the groups that are told to compact, rising, each once.
pub(crate) fn purge_expired<F: FileSystem>(
    alloc: Global,
    manager: &mut PurgeManager,
    files: &mut F,
    pipes: &mut DualPipes,
    log: &mut TracedTables,
    due: Due,
    barrier: Option<FileSeq>,
) -> Result<Vec<u64>, Error>
    requires can { CanCleanSome (F.disk files.old) pipes.old log.old }
    requires together { due.rewrites ≡ true → log.old.is_parted ≡ false }
    ensures cleans { Cleans (F.disk files.old) pipes.old log.old (F.disk files.new) pipes.new log.new result }
    ensures both { OnOk result (KeepBoth (F.disk files.old) pipes.old (F.disk files.new) pipes.new) }
    ensures stands { OnErr result (IsLeftStanding (F.disk files.old) pipes.old log.old (F.disk files.new) pipes.new) }
    ensures barrier { OnOk result (KeepsFromBarrier barrier pipes.old pipes.new) }
    ensures gone { IsLarge (queue_of pipes.old.append) manager.old.purge_threshold
        → OnOk result (GoesToNeeded (traces_in log.new.traces) barrier pipes.old.append pipes.new.append) }
    ensures rising { IfOk result (λ told. IsStrictlySortedBy nat_cmp told.items) }
    ensures there { IfOk result (λ told. (group : ℕ) → is_among told.items group ≡ true → (content_in log.old.tables group).there ≡ true) }
    ensures held { due.rewrites ≡ false → OnOk result (KeepsRewrites pipes.old pipes.new) }
    ensures replaced { due.rewrites ≡ true → OnOk result (HasNewRewrites pipes.old pipes.new) }
    ensures anew { due.rewrites ≡ true → IfOk result (λ told. IsCleanedAnew (F.disk files.old) pipes.old log.old manager.old
        (F.disk files.new) pipes.new log.new manager.new.reports told.items) }
    ensures told { due.rewrites ≡ false → IsLarge (queue_of pipes.old.append) manager.old.purge_threshold
        → IfOk result (λ told. AreTold log.old (marks_of_pipe pipes.old.append) manager.old.reports manager.new.reports told.items) }
    ensures threshold { manager.new.purge_threshold ≡ manager.old.purge_threshold }
    ensures later { RefusesNoMore (F.is_bounded files.old) (F.is_bounded files.new) (F.meter files.old) (F.meter files.new) }
    ensures cause { IfErr result (λ e. IsCleaningFault (F.meter files.old) (F.meter files.new) e) }
{
    if due.rewrites {
        return purge_both(alloc, manager, files, pipes, log, barrier);
    }
    manager.purge_expired_files(files, pipes, log, barrier)
}
