//! When the log is cleaned, and how.

ghost use Rattle.std.specs.List.Sorted.{IsStrictlySortedBy};
ghost use Rattle.std.specs.Ordering.{nat_cmp};
ghost use Rattle.std.specs.Prelude.{◌≡◌, ◌+◌, ◌<◌, ◌^◌, ◌↔◌, ℕ, [], true, IfErr, IfNone, IfOk, IfSome, IsOkAnd, IsTrue, OnErr, OnOk};
ghost use Rattle.raft_log_cleaner.specs.Caused.{IsCleaningFault};
ghost use Rattle.raft_log_cleaner.specs.Cleaning.{CanCleanSome, Cleans, Finishes, GoesOn, IsCleaningSome, IsLeftStanding, KeepsFromBarrier};
ghost use Rattle.raft_log_cleaner.specs.Facts.{TellEntries};
ghost use Rattle.raft_log_cleaner.specs.Pipes.{KeepBoth, KeepsPipe, KeepsPipes, KeepsRewrites, LeavesPipes};
ghost use Rattle.raft_log_cleaner.specs.Told.{AreTold, is_among, marks_of_pipe, queue_of};
ghost use Rattle.raft_log_disk.specs.Cause.{RefusesNoMore};
ghost use Rattle.raft_log_memtables.specs.MemTables.{content_in};
ghost use Rattle.raft_log_pipe.specs.Pipe.{first_of};
ghost use Rattle.raft_log_pipes.specs.Kept.{KeepSettings};
ghost use Rattle.raft_log_pipes.specs.Pipes.{IsAsBefore};
ghost use Rattle.raft_log_purge.specs.Due.{IsLarge};
ghost use Rattle.raft_log_purge.specs.Going.{GoesToNeeded};
ghost use Rattle.raft_log_purge.specs.Reports.{count_in};
ghost use Rattle.raft_log_traces.specs.GroupTraces.{traces_in};

use crate::entries::{mark, rewrite_group};
use crate::plan::{Plan, plan_of};
use crate::writer::Writer;
use raft_log_files::{Error, FileSystem};
use raft_log_pipes::DualPipes;
use raft_log_purge::{Reports, Watermarks, files_of, is_large, let_go, watermarks_of};
use raft_log_records::{FileSeq, LogQueue};
use raft_log_traced::TracedTables;
use std::alloc::{AllocError, Global};

/// Rewrites groups before a file of the append queue, one after the other.
fn rewrite_each<F: FileSystem>(
    alloc: Global,
    files: &mut F,
    pipes: &mut DualPipes,
    log: &mut TracedTables,
    writer: &mut Writer,
    groups: &[u64],
    before: FileSeq,
) -> Result<(), Error>
    requires { IsCleaningSome (F.disk files.old) pipes.old log.old writer.old.batch.items }
    ensures goes_on { GoesOn (F.disk files.old) pipes.old log.old writer.old.batch.items (F.disk files.new) pipes.new log.new writer.new.batch.items result }
    ensures later { RefusesNoMore (F.is_bounded files.old) (F.is_bounded files.new) (F.meter files.old) (F.meter files.new) }
    ensures cause { IfErr result (λ e. IsCleaningFault (F.meter files.old) (F.meter files.new) e) }
{
    for group in groups {
        rewrite_group(alloc, files, pipes, log, writer, *group, before)?;
    }
    Ok(())
}

/// Marks groups before a file of the append queue, one after the other.
fn mark_each<F: FileSystem>(
    alloc: Global,
    files: &mut F,
    pipes: &mut DualPipes,
    log: &mut TracedTables,
    writer: &mut Writer,
    groups: &[u64],
    before: FileSeq,
) -> Result<(), Error>
    requires { IsCleaningSome (F.disk files.old) pipes.old log.old writer.old.batch.items }
    ensures goes_on { GoesOn (F.disk files.old) pipes.old log.old writer.old.batch.items (F.disk files.new) pipes.new log.new writer.new.batch.items result }
    ensures later { RefusesNoMore (F.is_bounded files.old) (F.is_bounded files.new) (F.meter files.old) (F.meter files.new) }
    ensures cause { IfErr result (λ e. IsCleaningFault (F.meter files.old) (F.meter files.new) e) }
{
    for group in groups {
        mark(alloc, files, pipes, log, writer, *group, before)?;
    }
    Ok(())
}

/// Writes what is left, and syncs the rewrite queue: the log can be cleaned again then.
fn finish<F: FileSystem>(
    files: &mut F,
    pipes: &mut DualPipes,
    log: &mut TracedTables,
    writer: &mut Writer,
) -> Result<(), Error>
    requires { IsCleaningSome (F.disk files.old) pipes.old log.old writer.old.batch.items }
    ensures finishes { Finishes (F.disk files.old) pipes.old log.old writer.old.batch.items (F.disk files.new) pipes.new log.new result }
    ensures later { RefusesNoMore (F.is_bounded files.old) (F.is_bounded files.new) (F.meter files.old) (F.meter files.new) }
    ensures cause { IfErr result (λ e. IsCleaningFault (F.meter files.old) (F.meter files.new) e) }
{
    writer.flush(files, pipes, log)?;
    writer.sync(files, pipes, log)
}

/// Marks groups before a file of the append queue, and then rewrites some of them.
fn write_each<F: FileSystem>(
    alloc: Global,
    files: &mut F,
    pipes: &mut DualPipes,
    log: &mut TracedTables,
    writer: &mut Writer,
    marked: &[u64],
    rewritten: &[u64],
    before: FileSeq,
) -> Result<(), Error>
    requires { IsCleaningSome (F.disk files.old) pipes.old log.old writer.old.batch.items }
    ensures goes_on { GoesOn (F.disk files.old) pipes.old log.old writer.old.batch.items (F.disk files.new) pipes.new log.new writer.new.batch.items result }
    ensures later { RefusesNoMore (F.is_bounded files.old) (F.is_bounded files.new) (F.meter files.old) (F.meter files.new) }
    ensures cause { IfErr result (λ e. IsCleaningFault (F.meter files.old) (F.meter files.new) e) }
{
    mark_each(alloc, files, pipes, log, writer, marked, before)?;
    rewrite_each(alloc, files, pipes, log, writer, rewritten, before)
}

/// Marks groups before a file of the append queue, rewrites some of them, and syncs the rewrite queue.
fn rewrite_groups<F: FileSystem>(
    alloc: Global,
    files: &mut F,
    pipes: &mut DualPipes,
    log: &mut TracedTables,
    marked: &[u64],
    rewritten: &[u64],
    before: FileSeq,
) -> Result<(), Error>
    requires { CanCleanSome (F.disk files.old) pipes.old log.old }
    ensures cleans { Cleans (F.disk files.old) pipes.old log.old (F.disk files.new) pipes.new log.new result }
    ensures append { IsAsBefore pipes.old.append (F.disk files.old) pipes.new.append (F.disk files.new) }
    ensures kept { OnOk result (KeepsPipes (F.disk files.old) pipes.old (F.disk files.new) pipes.new) }
    ensures left { OnErr result (LeavesPipes (F.disk files.old) pipes.old (F.disk files.new) pipes.new) }
    ensures later { RefusesNoMore (F.is_bounded files.old) (F.is_bounded files.new) (F.meter files.old) (F.meter files.new) }
    ensures cause { IfErr result (λ e. IsCleaningFault (F.meter files.old) (F.meter files.new) e) }
{
    let mut writer = Writer::new(alloc);
    write_each(
        alloc,
        files,
        pipes,
        log,
        &mut writer,
        marked,
        rewritten,
        before,
    )?;
    finish(files, pipes, log, &mut writer)
}

/// Marks groups before a file of the append queue, and syncs the rewrite queue.
fn mark_groups<F: FileSystem>(
    alloc: Global,
    files: &mut F,
    pipes: &mut DualPipes,
    log: &mut TracedTables,
    groups: &[u64],
    before: FileSeq,
) -> Result<(), Error>
    requires { CanCleanSome (F.disk files.old) pipes.old log.old }
    ensures cleans { Cleans (F.disk files.old) pipes.old log.old (F.disk files.new) pipes.new log.new result }
    ensures kept { OnOk result (KeepsPipes (F.disk files.old) pipes.old (F.disk files.new) pipes.new) }
    ensures left { OnErr result (LeavesPipes (F.disk files.old) pipes.old (F.disk files.new) pipes.new) }
    ensures later { RefusesNoMore (F.is_bounded files.old) (F.is_bounded files.new) (F.meter files.old) (F.meter files.new) }
    ensures cause { IfErr result (λ e. IsCleaningFault (F.meter files.old) (F.meter files.new) e) }
{
    let mut writer = Writer::new(alloc);
    mark_each(alloc, files, pipes, log, &mut writer, groups, before)?;
    finish(files, pipes, log, &mut writer)
}

/// The groups that are there, and those that were cleaned and have no mark yet before a file.
fn groups_of(log: &TracedTables, before: FileSeq) -> Result<Vec<u64>, AllocError> {
    let mut groups = log.tables.groups()?;
    for group in log.traces.groups_before(before)? {
        if !log.tables.has_group(group) {
            groups.push(group)?;
        }
    }
    Ok(groups)
}

/// The last append file that is cleaned: the one that is named, or the last one that is written,
/// behind which a new one is begun.
fn last_file<F: FileSystem>(
    files: &mut F,
    pipes: &mut DualPipes,
    log: &TracedTables,
    named: Option<FileSeq>,
) -> Result<FileSeq, Error>
    requires { CanCleanSome (F.disk files.old) pipes.old log.now }
    ensures cleans { Cleans (F.disk files.old) pipes.old log.now (F.disk files.new) pipes.new log.now result }
    ensures kept { OnOk result (KeepsPipes (F.disk files.old) pipes.old (F.disk files.new) pipes.new) }
    ensures left { OnErr result (LeavesPipes (F.disk files.old) pipes.old (F.disk files.new) pipes.new) }
    ensures later { RefusesNoMore (F.is_bounded files.old) (F.is_bounded files.new) (F.meter files.old) (F.meter files.new) }
    ensures cause { IfErr result (λ e. IsCleaningFault (F.meter files.old) (F.meter files.new) e) }
{
    let (_, active) = pipes.file_span(LogQueue::Append);
    if let Some(file) = named {
        if file < active {
            return Ok(file);
        }
    }
    pipes.rotate(files, LogQueue::Append)?;
    Ok(active)
}

/// Cleans groups before a file of the append queue, as far as is asked for.
fn clean_groups<F: FileSystem>(
    alloc: Global,
    files: &mut F,
    pipes: &mut DualPipes,
    log: &mut TracedTables,
    groups: &[u64],
    before: FileSeq,
    step: RewriteStep,
) -> Result<(), Error>
    requires { CanCleanSome (F.disk files.old) pipes.old log.old }
    ensures cleans { Cleans (F.disk files.old) pipes.old log.old (F.disk files.new) pipes.new log.new result }
    ensures kept { OnOk result (KeepsPipes (F.disk files.old) pipes.old (F.disk files.new) pipes.new) }
    ensures left { OnErr result (LeavesPipes (F.disk files.old) pipes.old (F.disk files.new) pipes.new) }
    ensures later { RefusesNoMore (F.is_bounded files.old) (F.is_bounded files.new) (F.meter files.old) (F.meter files.new) }
    ensures cause { IfErr result (λ e. IsCleaningFault (F.meter files.old) (F.meter files.new) e) }
{
    match step {
        RewriteStep::Marks => mark_groups(alloc, files, pipes, log, groups, before),
        RewriteStep::Rewrites => rewrite_groups(alloc, files, pipes, log, groups, groups, before),
    }
}

/// The marks of the append queue, if it is large.
fn due_marks(pipes: &DualPipes, threshold: u64) -> Option<Watermarks>
    ensures none { IfNone result (IsLarge (queue_of pipes.now.append) threshold → ⊥) }
    ensures some { IfSome result (λ marks. IsLarge (queue_of pipes.now.append) threshold × (marks ≡ marks_of_pipe pipes.now.append)) }
    ensures below { IfSome result (λ marks. marks.rewrite + 1 < 2 ^ 64) }
{
    let queue = files_of(pipes, LogQueue::Append);
    if !is_large(queue, threshold) {
        return None;
    }
    Some(watermarks_of(queue))
}

/// What is done with groups where the append queue is large: which are told, of which is rewritten
/// what lies up to the mark, this file included, and which get their marks.
fn plan_for(
    alloc: Global,
    log: &TracedTables,
    reports: &Reports,
    marks: Watermarks,
) -> Result<Plan, AllocError>
    requires entries { TellEntries (traces_in log.now.traces) (content_in log.now.tables) }
    requires mark { marks.rewrite + 1 < 2 ^ 64 }
    ensures { IfOk result (λ plan. AreTold log.now marks reports.now plan.reports plan.told.items) }
{
    let mut plan = plan_of(alloc, log, reports, marks)?;
    plan.marked = groups_of(log, marks.rewrite + 1)?;
    Ok(plan)
}

/// How far a cleaning that is asked for goes (raft-engine's `RewriteStep`).
#[derive(Clone, Copy, Debug, PartialEq, Eq)]
pub enum RewriteStep {
    /// Marks are written, and no more.
    Marks,
    /// Entries and keys are rewritten too.
    Rewrites,
}

/// Cleans a log (raft-engine's `PurgeManager`): what still counts in old append files is written anew
/// to the rewrite queue, and then they may go. Its calls are lent the parts of the log, of which all is
/// on the disk. After an `Err` the log is to be opened again.
#[derive(Drop)]
pub struct PurgeManager {
    alloc: Global,
    /// The append queue is cleaned once its files may hold more bytes.
    purge_threshold: u64,
    /// The rewrite queue isn't written anew unless its files may hold more bytes.
    rewrite_threshold: u64,
    /// Nor unless more per cent than these of what was written to it count no more.
    garbage_percent: u64,
    /// How many times in a row groups were told to compact and left alone.
    reports: Reports,
}

impl PurgeManager {
    /// A manager that has cleaned nothing yet. The thresholds are in bytes (raft-engine's
    /// `purge-threshold`, and its `purge-rewrite-threshold` with `purge-rewrite-garbage-ratio`, which is
    /// in per cent here).
    pub fn new(
        alloc: Global,
        purge_threshold: u64,
        rewrite_threshold: u64,
        garbage_percent: u64,
    ) -> PurgeManager
        ensures alloc { result.alloc ≡ alloc }
        ensures threshold { result.purge_threshold ≡ purge_threshold }
        ensures rewrites { (result.rewrite_threshold ≡ rewrite_threshold) × (result.garbage_percent ≡ garbage_percent) }
        ensures reports { (group : ℕ) → count_in result.reports group ≡ 0 }
    {
        PurgeManager {
            alloc,
            purge_threshold,
            rewrite_threshold,
            garbage_percent,
            reports: Reports::new(alloc),
        }
    }

    /// Writes anew what all groups have up to a file of the append queue, this one included, whatever
    /// it is (raft-engine's `must_rewrite_append_queue`, without its last step). No file, or one that
    /// isn't there: up to the last one, behind which a new file is begun first. It ends after the step
    /// that is given, with a sync, and no file goes. A list with a hole, as files that somebody else
    /// wrote may leave it, is refused as `EntryNotFound`.
    pub fn must_rewrite_append_queue<F: FileSystem>(
        &self,
        files: &mut F,
        pipes: &mut DualPipes,
        log: &mut TracedTables,
        file: Option<FileSeq>,
        step: RewriteStep,
    ) -> Result<(), Error>
        requires { CanCleanSome (F.disk files.old) pipes.old log.old }
        ensures cleans { Cleans (F.disk files.old) pipes.old log.old (F.disk files.new) pipes.new log.new result }
        ensures kept { OnOk result (KeepsPipes (F.disk files.old) pipes.old (F.disk files.new) pipes.new) }
        ensures left { OnErr result (LeavesPipes (F.disk files.old) pipes.old (F.disk files.new) pipes.new) }
        ensures later { RefusesNoMore (F.is_bounded files.old) (F.is_bounded files.new) (F.meter files.old) (F.meter files.new) }
        ensures cause { IfErr result (λ e. IsCleaningFault (F.meter files.old) (F.meter files.new) e) }
    {
        let last = last_file(files, pipes, log, file)?;
        let before = last.saturating_add(1);
        let groups = groups_of(log, before)?;
        clean_groups(self.alloc, files, pipes, log, &groups, before, step)
    }

    /// Lets all append files go that no group needs any more, up to before the barrier, the first ones
    /// first, and answers how many went: the last step of raft-engine's `purge_expired_files`. The
    /// barrier is the least file that somebody else keeps. None goes from it on, after an `Err` either.
    pub fn purge_append_files<F: FileSystem>(
        &self,
        files: &mut F,
        pipes: &mut DualPipes,
        log: &TracedTables,
        barrier: Option<FileSeq>,
    ) -> Result<u64, Error>
        requires { CanCleanSome (F.disk files.old) pipes.old log.now }
        ensures cleans { Cleans (F.disk files.old) pipes.old log.now (F.disk files.new) pipes.new log.now result }
        ensures barrier { KeepsFromBarrier barrier pipes.old pipes.new }
        ensures gone { OnOk result (GoesToNeeded (traces_in log.now.traces) barrier pipes.old.append pipes.new.append) }
        ensures count { IfOk result (λ n. first_of pipes.old.append + n ≡ first_of pipes.new.append) }
        ensures kept { KeepsPipe pipes.old.rewrite (F.disk files.old) pipes.new.rewrite (F.disk files.new) }
        ensures held { KeepsRewrites pipes.old pipes.new }
        ensures set { KeepSettings pipes.old pipes.new }
        ensures both { OnOk result (KeepBoth (F.disk files.old) pipes.old (F.disk files.new) pipes.new) }
        ensures stands { OnErr result (IsLeftStanding (F.disk files.old) pipes.old log.now (F.disk files.new) pipes.new) }
        ensures later { RefusesNoMore (F.is_bounded files.old) (F.is_bounded files.new) (F.meter files.old) (F.meter files.new) }
        ensures cause { IfErr result (λ e. IsCleaningFault (F.meter files.old) (F.meter files.new) e) }
    {
        let_go(files, pipes, &log.traces, barrier)
    }

    /// Whether the append queue is to be cleaned (raft-engine's `needs_rewrite_log_files`): it has more
    /// files than the one that is written, and may have more bytes than the threshold.
    pub fn needs_rewrite_log_files(&self, pipes: &DualPipes) -> bool
        ensures { IsTrue result ↔ IsLarge (queue_of pipes.now.append) self.now.purge_threshold }
    {
        is_large(files_of(pipes, LogQueue::Append), self.purge_threshold)
    }

    /// How many bytes the files of the rewrite queue may hold before it is judged by its garbage.
    pub fn rewrite_threshold(&self) -> u64
        ensures { result ≡ self.now.rewrite_threshold }
    {
        self.rewrite_threshold
    }

    /// How many per cent of what was written to the rewrite queue may be garbage.
    pub fn garbage_percent(&self) -> u64
        ensures { result ≡ self.now.garbage_percent }
    {
        self.garbage_percent
    }

    /// Marks and rewrites groups as is planned, before a file of the append queue, and lets the files
    /// go that no group needs then.
    fn clean_planned<F: FileSystem>(
        &self,
        files: &mut F,
        pipes: &mut DualPipes,
        log: &mut TracedTables,
        plan: &Plan,
        before: FileSeq,
        barrier: Option<FileSeq>,
    ) -> Result<u64, Error>
        requires { CanCleanSome (F.disk files.old) pipes.old log.old }
        ensures cleans { Cleans (F.disk files.old) pipes.old log.old (F.disk files.new) pipes.new log.new result }
        ensures barrier { KeepsFromBarrier barrier pipes.old pipes.new }
        ensures gone { OnOk result (GoesToNeeded (traces_in log.new.traces) barrier pipes.old.append pipes.new.append) }
        ensures held { OnOk result (KeepsRewrites pipes.old pipes.new) }
        ensures both { OnOk result (KeepBoth (F.disk files.old) pipes.old (F.disk files.new) pipes.new) }
        ensures stands { OnErr result (IsLeftStanding (F.disk files.old) pipes.old log.old (F.disk files.new) pipes.new) }
        ensures later { RefusesNoMore (F.is_bounded files.old) (F.is_bounded files.new) (F.meter files.old) (F.meter files.new) }
        ensures cause { IfErr result (λ e. IsCleaningFault (F.meter files.old) (F.meter files.new) e) }
    {
        let alloc = self.alloc;
        rewrite_groups(
            alloc,
            files,
            pipes,
            log,
            &plan.marked,
            &plan.rewritten,
            before,
        )?;
        self.purge_append_files(files, pipes, log, barrier)
    }

    /// Cleans the append queue where it is large, and answers the groups that whoever writes them is
    /// told to compact, rising, each once (raft-engine's `purge_expired_files`, of the append queue
    /// alone). First all groups get their marks. Then what lies up to the rewrite mark is rewritten of
    /// those that aren't left alone. Then all files go that no group needs any more, up to before the
    /// barrier, the least file that somebody else keeps. A queue that isn't large stays as it is, and no
    /// group is told.
    pub fn purge_expired_files<F: FileSystem>(
        &mut self,
        files: &mut F,
        pipes: &mut DualPipes,
        log: &mut TracedTables,
        barrier: Option<FileSeq>,
    ) -> Result<Vec<u64>, Error>
        requires { CanCleanSome (F.disk files.old) pipes.old log.old }
        ensures cleans { Cleans (F.disk files.old) pipes.old log.old (F.disk files.new) pipes.new log.new result }
        ensures barrier { KeepsFromBarrier barrier pipes.old pipes.new }
        ensures gone { IsLarge (queue_of pipes.old.append) self.old.purge_threshold
            → OnOk result (GoesToNeeded (traces_in log.new.traces) barrier pipes.old.append pipes.new.append) }
        ensures held { OnOk result (KeepsRewrites pipes.old pipes.new) }
        ensures both { OnOk result (KeepBoth (F.disk files.old) pipes.old (F.disk files.new) pipes.new) }
        ensures stands { OnErr result (IsLeftStanding (F.disk files.old) pipes.old log.old (F.disk files.new) pipes.new) }
        ensures later { RefusesNoMore (F.is_bounded files.old) (F.is_bounded files.new) (F.meter files.old) (F.meter files.new) }
        ensures told { IsLarge (queue_of pipes.old.append) self.old.purge_threshold
            → IfOk result (λ told. AreTold log.old (marks_of_pipe pipes.old.append) self.old.reports self.new.reports told.items) }
        ensures rising { IfOk result (λ told. IsStrictlySortedBy nat_cmp told.items) }
        ensures there { IfOk result (λ told. (group : ℕ) → is_among told.items group ≡ true → (content_in log.old.tables group).there ≡ true) }
        ensures due { (IsLarge (queue_of pipes.old.append) self.old.purge_threshold → ⊥)
            → IsOkAnd result (λ told. told.items ≡ []) × (files.new ≡ files.old) × (pipes.new ≡ pipes.old) × (log.new ≡ log.old) × (self.new ≡ self.old) }
        ensures set { (self.new.alloc ≡ self.old.alloc) × (self.new.purge_threshold ≡ self.old.purge_threshold) }
        ensures set_rewrites { (self.new.rewrite_threshold ≡ self.old.rewrite_threshold) × (self.new.garbage_percent ≡ self.old.garbage_percent) }
        ensures cause { IfErr result (λ e. IsCleaningFault (F.meter files.old) (F.meter files.new) e) }
    {
        let Some(marks) = due_marks(pipes, self.purge_threshold) else {
            return Ok(Vec::new(self.alloc));
        };
        let plan = plan_for(self.alloc, log, &self.reports, marks)?;
        self.clean_planned(files, pipes, log, &plan, marks.rewrite + 1, barrier)?;
        self.reports = plan.reports;
        Ok(plan.told)
    }
}
