//! The rewrite queue, written anew.

ghost use Rattle.std.specs.Prelude.{◌≡◌, ◌+◌, ◌++◌, ℕ, List, [], IfErr, IfOk, OnErr, OnOk};
ghost use Rattle.raft_log_cleaner.specs.Caused.{IsCleaningFault};
ghost use Rattle.raft_log_cleaner.specs.Pipes.{KeepsAppends};
ghost use Rattle.raft_log_disk.specs.Cause.{RefusesNoMore};
ghost use Rattle.raft_log_memtables.specs.Content.{Content};
ghost use Rattle.raft_log_pipe.specs.Pipe.{first_of};
ghost use Rattle.raft_log_rewriter.specs.Parts.Stage.{between};
ghost use Rattle.raft_log_rewriter.specs.Rewriting.{GoesOn, IsRewritingSome, at};
ghost use Rattle.raft_log_rewriter.specs.Standing.{BeginsFile, CanRewriteSome, HasRewritten, IsLeftStanding, LetsGo, Rewrites, Stands, WritesGroups};

use crate::group::rewrite_group;
use crate::writer::{Writer, sync_rewrites};
use raft_log_files::{Error, FileSystem};
use raft_log_pipes::DualPipes;
use raft_log_records::{FileSeq, LogQueue};
use raft_log_traced::TracedTables;
use std::alloc::Global;

/// Begins a new file of the rewrite queue, and answers its number. The old records stand in the files
/// before it.
fn begin_file<F: FileSystem>(
    files: &mut F,
    pipes: &mut DualPipes,
    log: &TracedTables,
) -> Result<FileSeq, Error>
    requires { CanRewriteSome (F.disk files.old) pipes.old log.now }
    ensures begins { BeginsFile (F.disk files.old) pipes.old log.now (F.disk files.new) pipes.new result }
    ensures next { IfOk result (λ next. next ≡ pipes.old.rewrite.active.seq + 1) }
    ensures later { RefusesNoMore (F.is_bounded files.old) (F.is_bounded files.new) (F.meter files.old) (F.meter files.new) }
    ensures cause { IfErr result (λ e. IsCleaningFault (F.meter files.old) (F.meter files.new) e) }
{
    pipes.rotate(files, LogQueue::Rewrite)?;
    let (_, active) = pipes.file_span(LogQueue::Rewrite);
    Ok(active)
}

/// Writes groups anew, one after the other.
fn rewrite_each<F: FileSystem>(
    alloc: Global,
    files: &mut F,
    pipes: &mut DualPipes,
    log: &mut TracedTables,
    writer: &mut Writer,
    groups: &[u64],
) -> Result<(), Error>
    requires rewriting { IsRewritingSome (F.disk files.old) pipes.old log.old writer.old between }
    requires group { writer.old.group ≡ None }
    ensures goes_on { GoesOn (F.disk files.old) pipes.old log.old writer.old (at between)
        (F.disk files.new) pipes.new log.new writer.new (λ done. at between (done ++ groups.now)) result }
    ensures group { OnOk result (writer.new.group ≡ None) }
    ensures later { RefusesNoMore (F.is_bounded files.old) (F.is_bounded files.new) (F.meter files.old) (F.meter files.new) }
    ensures cause { IfErr result (λ e. IsCleaningFault (F.meter files.old) (F.meter files.new) e) }
{
    for group in groups {
        rewrite_group(alloc, files, pipes, log, writer, *group)?;
    }
    Ok(())
}

/// Writes all groups that are there anew, and syncs the rewrite queue.
fn rewrite_groups<F: FileSystem>(
    alloc: Global,
    files: &mut F,
    pipes: &mut DualPipes,
    log: &mut TracedTables,
) -> Result<(), Error>
    requires { (next : ℕ) × (content : Content (List ℕ)) × Stands (F.disk files.old) pipes.old log.old next [] content }
    ensures writes { (next : ℕ) → WritesGroups (F.disk files.old) pipes.old log.old next (F.disk files.new) pipes.new log.new result }
    ensures later { RefusesNoMore (F.is_bounded files.old) (F.is_bounded files.new) (F.meter files.old) (F.meter files.new) }
    ensures cause { IfErr result (λ e. IsCleaningFault (F.meter files.old) (F.meter files.new) e) }
{
    let groups = log.tables.groups()?;
    let mut writer = Writer::new(alloc);
    rewrite_each(alloc, files, pipes, log, &mut writer, &groups)?;
    writer.write_whole(files, pipes, log)?;
    sync_rewrites(files, pipes, log)
}

/// Lets the files of the rewrite queue go that come before a number, once all groups were written anew
/// in those from it on.
fn let_old_go<F: FileSystem>(
    files: &mut F,
    pipes: &mut DualPipes,
    log: &TracedTables,
    next: FileSeq,
) -> Result<(), Error>
    requires { (content : Content (List ℕ)) × HasRewritten (F.disk files.old) pipes.old log.now next content }
    ensures lets_go { LetsGo (F.disk files.old) pipes.old log.now next (F.disk files.new) pipes.new result }
    ensures gone { OnOk result (first_of pipes.new.rewrite ≡ next) }
    ensures later { RefusesNoMore (F.is_bounded files.old) (F.is_bounded files.new) (F.meter files.old) (F.meter files.new) }
    ensures cause { IfErr result (λ e. IsCleaningFault (F.meter files.old) (F.meter files.new) e) }
{
    pipes.purge_to(files, LogQueue::Rewrite, next)?;
    Ok(())
}

/// Writes the rewrite queue anew, whatever it is (raft-engine's `must_rewrite_rewrite_queue`): behind
/// its old records, into a new file, goes all that each group has there, each group in one record or in
/// one atomic group of records. Then, after a sync, the old files go. The append queue stays. A list with
/// a hole or one that reaches the greatest index, as files that somebody else wrote may leave it, is
/// refused as `EntryNotFound`. After an `Err` the log is to be opened again.
pub fn must_rewrite_rewrite_queue<F: FileSystem>(
    alloc: Global,
    files: &mut F,
    pipes: &mut DualPipes,
    log: &mut TracedTables,
) -> Result<(), Error>
    requires { CanRewriteSome (F.disk files.old) pipes.old log.old }
    ensures rewrites { Rewrites (F.disk files.old) pipes.old log.old (F.disk files.new) pipes.new log.new result }
    ensures gone { OnOk result (first_of pipes.new.rewrite ≡ pipes.old.rewrite.active.seq + 1) }
    ensures append { pipes.new.append ≡ pipes.old.append }
    ensures kept { OnOk result (KeepsAppends (F.disk files.old) pipes.old (F.disk files.new) pipes.new) }
    ensures left { OnErr result (IsLeftStanding (F.disk files.old) pipes.old log.old (F.disk files.new) pipes.new) }
    ensures later { RefusesNoMore (F.is_bounded files.old) (F.is_bounded files.new) (F.meter files.old) (F.meter files.new) }
    ensures cause { IfErr result (λ e. IsCleaningFault (F.meter files.old) (F.meter files.new) e) }
{
    let next = begin_file(files, pipes, log)?;
    rewrite_groups(alloc, files, pipes, log)?;
    let_old_go(files, pipes, log, next)
}
