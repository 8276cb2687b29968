//! A group written anew: all that it has in the rewrite queue.

ghost use Rattle.std.specs.Prelude.{◌≡◌, ◌≤◌, ◌<◌, ◌++◌, ◌∷◌, [], ℕ, List, IfErr, OnOk, true};
ghost use Rattle.raft_log_cleaner.specs.Caused.{IsCleaningFault};
ghost use Rattle.raft_log_disk.specs.Cause.{Meter, RefusesNoMore};
ghost use Rattle.raft_log_disk.specs.Disk.{Disk};
ghost use Rattle.raft_log_covers.specs.Marks.{of_group};
ghost use Rattle.raft_log_marks.specs.Caused.{IsBatchFault};
ghost use Rattle.raft_log_pipes.specs.Pipes.{ArePipes};
ghost use Rattle.raft_log_pipes.specs.declared.pipes.DualPipes.{DualPipes};
ghost use Rattle.raft_log_records.specs.Batch.{payloads};
ghost use Rattle.raft_log_records.specs.Item.Change.{clean, compact};
ghost use Rattle.raft_log_rewriter.specs.Parts.{IsStoredRange};
ghost use Rattle.raft_log_rewriter.specs.Parts.Stage.{between, entries_to, keys_to};
ghost use Rattle.raft_log_rewriter.specs.Rewriting.{GoesOn, IsRewritingSome, at};
ghost use Rattle.raft_log_traces.specs.GroupTraces.{traces_in};

use crate::names::{stored_names, stored_range};
use crate::writer::Writer;
use raft_log_cleaner::{copies, of_record};
use raft_log_files::{Error, FileSystem};
use raft_log_pipes::DualPipes;
use raft_log_records::{Command, LogBatch, RecordError};
use raft_log_traced::TracedTables;
use std::alloc::Global;

/// Adds what a group begins with to the batch: a `Clean`, so that nothing of older records counts, and
/// a `Compact`, so that the group is there.
fn add_begin(batch: &mut LogBatch, group: u64) -> Result<(), RecordError>
    ensures added { OnOk result (batch.new.items ≡ batch.old.items ++ of_group group (clean ∷ (compact 0 ∷ []))) }
    ensures cause { IfErr result IsBatchFault }
{
    batch.add_command(group, Command::Clean)?;
    batch.add_command(group, Command::Compact { index: 0 })
}

/// Adds entries of a group to the batch, from an index on, up to before another one at most, and one
/// at least. The index goes on behind them.
fn add_chunk<F: FileSystem>(
    alloc: Global,
    files: &F,
    pipes: &DualPipes,
    log: &TracedTables,
    writer: &mut Writer,
    group: u64,
    begin: &mut u64,
    stop: u64,
) -> Result<(), Error>
    requires rewriting { (first : ℕ) × IsRewritingSome (F.disk files.now) pipes.now log.now writer.old (entries_to group first begin.old) }
    requires some { begin.old < stop }
    requires only { (i : ℕ) → begin.old ≤ i → i < stop → (traces_in log.now.traces group).entry_file i ≡ None }
    ensures goes_on { (first : ℕ) → GoesOn (F.disk files.now) pipes.now log.now writer.old (at (entries_to group first begin.old))
        (F.disk files.now) pipes.now log.now writer.new (at (entries_to group first begin.new)) result }
    ensures further { OnOk result ((begin.old < begin.new) × (begin.new ≤ stop)) }
    ensures cause { IfErr result (λ e. IsCleaningFault (F.meter files.now) (F.meter files.now) e) }
{
    let entries = copies(alloc, files, pipes, &log.tables, group, *begin, stop)?;
    match writer.batch.add_raw_entries(group, *begin, &entries) {
        Ok(()) => {}
        Err(error) => return Err(of_record(error)),
    }
    *begin += entries.len() as u64;
    Ok(())
}

/// Writes entries of a group, from an index on, up to before another one, in chunks.
fn rewrite_entries<F: FileSystem>(
    alloc: Global,
    files: &mut F,
    pipes: &mut DualPipes,
    log: &mut TracedTables,
    writer: &mut Writer,
    group: u64,
    range: (u64, u64),
) -> Result<(), Error>
    requires rewriting { IsRewritingSome (F.disk files.old) pipes.old log.old writer.old (entries_to group range.0 range.0) }
    requires range { IsStoredRange (traces_in log.old.traces group) range.0 range.1 }
    ensures goes_on { GoesOn (F.disk files.old) pipes.old log.old writer.old (at (entries_to group range.0 range.0))
        (F.disk files.new) pipes.new log.new writer.new (at (entries_to group range.0 range.1)) result }
    ensures traces { log.new.traces ≡ log.old.traces }
    ensures later { RefusesNoMore (F.is_bounded files.old) (F.is_bounded files.new) (F.meter files.old) (F.meter files.new) }
    ensures cause { IfErr result (λ e. IsCleaningFault (F.meter files.old) (F.meter files.new) e) }
{
    let (mut begin, stop) = range;
    while begin < stop {
        add_chunk(alloc, files, pipes, log, writer, group, &mut begin, stop)?;
        writer.write_part(files, pipes, log)?;
    }
    Ok(())
}

/// Adds a key of a group to the batch, with the value that it has, if it is there. A key without a
/// name, which no batch takes, is refused.
fn add_key(
    alloc: Global,
    log: &TracedTables,
    writer: &mut Writer,
    group: u64,
    name: &[u8],
) -> Result<(), Error>
    ensures goes_on { (d : Disk) (p : DualPipes) (first stop : ℕ) (before : List (List ℕ)) → GoesOn d p log.now writer.old (at (keys_to group first stop before))
        d p log.now writer.new (at (keys_to group first stop (before ++ name.now ∷ []))) result }
    ensures cause { (meter : Meter) → IfErr result (λ e. IsCleaningFault meter meter e) }
{
    let Some(value) = log.tables.get(group, name) else {
        return Ok(());
    };
    if name.is_empty() {
        return Err(Error::EntryNotFound);
    }
    let name = Vec::from_slice(alloc, name)?;
    let value = Vec::from_slice(alloc, value)?;
    match writer.batch.put(group, name, value) {
        Ok(()) => Ok(()),
        Err(error) => Err(of_record(error)),
    }
}

/// Writes keys of a group.
fn rewrite_keys<F: FileSystem>(
    alloc: Global,
    files: &mut F,
    pipes: &mut DualPipes,
    log: &mut TracedTables,
    writer: &mut Writer,
    group: u64,
    names: &[Vec<u8>],
) -> Result<(), Error>
    requires { (first : ℕ) × (stop : ℕ) × IsRewritingSome (F.disk files.old) pipes.old log.old writer.old (keys_to group first stop []) }
    ensures goes_on { (first stop : ℕ) → GoesOn (F.disk files.old) pipes.old log.old writer.old (at (keys_to group first stop []))
        (F.disk files.new) pipes.new log.new writer.new (at (keys_to group first stop (payloads names.now))) result }
    ensures traces { log.new.traces ≡ log.old.traces }
    ensures later { RefusesNoMore (F.is_bounded files.old) (F.is_bounded files.new) (F.meter files.old) (F.meter files.new) }
    ensures cause { IfErr result (λ e. IsCleaningFault (F.meter files.old) (F.meter files.new) e) }
{
    for name in names {
        add_key(alloc, log, writer, group, name)?;
        writer.write_part(files, pipes, log)?;
    }
    Ok(())
}

/// Writes a group anew, whole, if it is there.
pub(crate) fn rewrite_group<F: FileSystem>(
    alloc: Global,
    files: &mut F,
    pipes: &mut DualPipes,
    log: &mut TracedTables,
    writer: &mut Writer,
    group: u64,
) -> Result<(), Error>
    requires rewriting { IsRewritingSome (F.disk files.old) pipes.old log.old writer.old between }
    requires group { writer.old.group ≡ None }
    ensures goes_on { GoesOn (F.disk files.old) pipes.old log.old writer.old (at between)
        (F.disk files.new) pipes.new log.new writer.new (λ done. at between (done ++ group ∷ [])) result }
    ensures group { OnOk result (writer.new.group ≡ None) }
    ensures later { RefusesNoMore (F.is_bounded files.old) (F.is_bounded files.new) (F.meter files.old) (F.meter files.new) }
    ensures cause { IfErr result (λ e. IsCleaningFault (F.meter files.old) (F.meter files.new) e) }
{
    if !log.tables.has_group(group) {
        return Ok(());
    }
    let range = stored_range(&log.traces, group)?;
    let names = stored_names(alloc, log, group)?;
    match add_begin(&mut writer.batch, group) {
        Ok(()) => {}
        Err(error) => return Err(of_record(error)),
    }
    rewrite_entries(alloc, files, pipes, log, writer, group, range)?;
    rewrite_keys(alloc, files, pipes, log, writer, group, &names)?;
    writer.end_group(files, pipes, log)
}
