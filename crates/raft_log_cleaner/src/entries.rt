//! Entries and keys of a group that stand in append files, written to the rewrite queue.

ghost use Rattle.std.specs.Prelude.{◌≡◌, ◌-◌, ◌^◌, ◌<◌, ◌≤◌, ◌⊎◌, ℕ, map, Contains, None, true, false, IfErr, IfOk, IfSome, IsSome, IsTrue};
ghost use Rattle.raft_log_blocks.specs.Blocks.{HasBlock};
ghost use Rattle.raft_log_blocks.specs.Placed.{bytes_on};
ghost use Rattle.raft_log_cleaner.specs.Caused.{IsCleaningFault};
ghost use Rattle.raft_log_cleaner.specs.Cleaning.{GoesOn, IsCleaningSome};
ghost use Rattle.raft_log_cleaner.specs.Copies.{AreCopies};
ghost use Rattle.raft_log_disk.specs.Cause.{RefusesNoMore};
ghost use Rattle.raft_log_memtables.specs.MemTables.{content_in};
ghost use Rattle.raft_log_pipes.specs.Pipes.{ArePipes};
ghost use Rattle.raft_log_records.specs.Batch.{payloads};
ghost use Rattle.raft_log_records.specs.declared.item.EntryIndex.{EntryIndex};
ghost use Rattle.raft_log_traces.specs.GroupTraces.{traces_in};

use crate::fault::{of_fetch, of_mark, of_record};
use crate::writer::{MOST_BATCH_BYTES, Writer};
use raft_log_blocks::LastBlock;
use raft_log_files::{Error, FileSystem};
use raft_log_memtables::MemTables;
use raft_log_pipes::DualPipes;
use raft_log_purge::{mark_group, rewrite_entries, rewrite_key};
use raft_log_records::{EntryIndex, FileSeq};
use raft_log_traced::TracedTables;
use raft_log_traces::{GroupTrace, GroupTraces};
use std::alloc::{AllocError, Global};

/// The number, or the greatest one that an index may have.
pub(crate) fn as_index(index: u128) -> u64
    ensures least { result ≤ index }
    ensures same { result < 2 ^ 64 - 1 → result ≡ index }
{
    index.min(u64::MAX as u128) as u64
}

/// Copies of entries, from their blocks, each of which is read once where its entries follow one another.
fn copies_of<F: FileSystem>(
    alloc: Global,
    files: &F,
    pipes: &DualPipes,
    places: &[EntryIndex],
) -> Result<Vec<Vec<u8>>, Error>
    requires pipes { ArePipes pipes.now (F.disk files.now) }
    requires blocks { (place : EntryIndex) → Contains places.now place → HasBlock (F.disk files.now) pipes.now place }
    ensures copied { IfOk result (λ copies. payloads copies.items ≡ map (bytes_on (F.disk files.now) pipes.now) places.now) }
    ensures cause { IfErr result (λ e. IsCleaningFault (F.meter files.now) (F.meter files.now) e) }
{
    let mut last = LastBlock::new(alloc);
    let mut copies = Vec::new(alloc);
    for place in places {
        copies.push(last.read_entry(alloc, files, pipes, *place)?)?;
    }
    Ok(copies)
}

/// Copies of a group's entries, from an index on up to before another one, but no more than a batch
/// has, and one at least. Where one of the indexes has no entry they are refused.
pub fn copies<F: FileSystem>(
    alloc: Global,
    files: &F,
    pipes: &DualPipes,
    tables: &MemTables,
    group: u64,
    begin: u64,
    end: u64,
) -> Result<Vec<Vec<u8>>, Error>
    requires pipes { ArePipes pipes.now (F.disk files.now) }
    requires blocks { (index : ℕ) (e : EntryIndex) → (content_in tables.now group).entry index ≡ Some e → HasBlock (F.disk files.now) pipes.now e }
    requires there { (content_in tables.now group).there ≡ true }
    requires some { begin < end }
    ensures copied { IfOk result (λ copies. AreCopies (bytes_on (F.disk files.now) pipes.now) (content_in tables.now group).entry begin end (payloads copies.items)) }
    ensures cause { IfErr result (λ e. IsCleaningFault (F.meter files.now) (F.meter files.now) e) }
{
    let size = Some(MOST_BATCH_BYTES as u64);
    let places = match tables.fetch_entries_to(group, begin, end, size) {
        Ok(places) => places,
        Err(error) => return Err(of_fetch(error)),
    };
    if places.is_empty() {
        return Err(Error::EntryNotFound);
    }
    copies_of(alloc, files, pipes, &places)
}

/// Whether a group has no entry from an index on, or one at the index.
fn is_followed(tables: &MemTables, group: u64, stop: u64) -> bool
    ensures { IsTrue result → ((i : ℕ) → stop ≤ i → (content_in tables.now group).entry i ≡ None) ⊎ IsSome ((content_in tables.now group).entry stop) }
{
    match tables.last_index(group) {
        None => true,
        Some(last) => last < stop || tables.get_entry(group, stop).is_some(),
    }
}

/// Whether entries and keys of a group may be rewritten: it is there, and its marks say that it was
/// cleaned.
fn is_marked(log: &TracedTables, group: u64) -> bool
    ensures there { IsTrue result → (content_in log.now.tables group).there ≡ true }
    ensures not_cleaned { IsTrue result → (traces_in log.now.traces group).cleaned ≡ false }
{
    let Some(trace) = log.traces.get(group) else {
        return false;
    };
    !trace.is_cleaned() && log.tables.has_group(group)
}

/// The next entries of a group that have to be rewritten before the files before one may go.
fn next_entries(traces: &GroupTraces, group: u64, before: FileSeq) -> Option<(u64, u64)>
    ensures some { IfSome result (λ e. e.0 < e.1) }
    ensures below { IfSome result (λ e. (i : ℕ) → i < e.0 → (traces_in traces.now group).entry_file i ≡ None) }
    ensures above { IfSome result (λ e. (i : ℕ) → e.0 ≤ i → i < (traces_in traces.now group).next → IsSome ((traces_in traces.now group).entry_file i)) }
{
    let trace = traces.get(group)?;
    let (_, stop) = trace.entries_before(before)?;
    let begin = as_index(trace.rewritten_end());
    let stop = as_index(stop);
    if begin < stop {
        Some((begin, stop))
    } else {
        None
    }
}

/// Adds copies of a group's entries to the batch for the rewrite queue, from an index on, below which
/// none stands in an append file. Entries behind which an index has none, but a later one has, are
/// refused.
fn rewrite_chunk<F: FileSystem>(
    alloc: Global,
    files: &F,
    pipes: &DualPipes,
    log: &mut TracedTables,
    writer: &mut Writer,
    group: u64,
    range: (u64, u64),
) -> Result<(), Error>
    requires cleaning { IsCleaningSome (F.disk files.now) pipes.now log.old writer.old.batch.items }
    requires some { range.0 < range.1 }
    requires below { (i : ℕ) → i < range.0 → (traces_in log.old.traces group).entry_file i ≡ None }
    requires above { (i : ℕ) → range.0 ≤ i → i < (traces_in log.old.traces group).next → IsSome ((traces_in log.old.traces group).entry_file i) }
    ensures goes_on { GoesOn (F.disk files.now) pipes.now log.old writer.old.batch.items (F.disk files.now) pipes.now log.new writer.new.batch.items result }
    ensures cause { IfErr result (λ e. IsCleaningFault (F.meter files.now) (F.meter files.now) e) }
{
    if !is_marked(log, group) {
        return Err(Error::EntryNotFound);
    }
    let (begin, end) = range;
    let entries = copies(alloc, files, pipes, &log.tables, group, begin, end)?;
    if !is_followed(&log.tables, group, begin + entries.len() as u64) {
        return Err(Error::EntryNotFound);
    }
    match rewrite_entries(&mut writer.batch, &mut log.traces, group, begin, &entries) {
        Ok(()) => {}
        Err(error) => return Err(of_record(error)),
    }
    writer.count = writer.count.saturating_add(entries.len() as u64);
    Ok(())
}

/// Rewrites the entries of a group that stand in files before one, in chunks.
fn rewrite_all_entries<F: FileSystem>(
    alloc: Global,
    files: &mut F,
    pipes: &mut DualPipes,
    log: &mut TracedTables,
    writer: &mut Writer,
    group: u64,
    before: FileSeq,
) -> Result<(), Error>
    requires { IsCleaningSome (F.disk files.old) pipes.old log.old writer.old.batch.items }
    ensures goes_on { GoesOn (F.disk files.old) pipes.old log.old writer.old.batch.items (F.disk files.new) pipes.new log.new writer.new.batch.items result }
    ensures later { RefusesNoMore (F.is_bounded files.old) (F.is_bounded files.new) (F.meter files.old) (F.meter files.new) }
    ensures cause { IfErr result (λ e. IsCleaningFault (F.meter files.old) (F.meter files.new) e) }
{
    if !is_marked(log, group) {
        return Ok(());
    }
    let Some((begin, end)) = next_entries(&log.traces, group, before) else {
        return Ok(());
    };
    for _ in begin..end {
        let Some(range) = next_entries(&log.traces, group, before) else {
            return Ok(());
        };
        rewrite_chunk(alloc, files, pipes, log, writer, group, range)?;
        writer.flush_large(files, pipes, log)?;
    }
    Ok(())
}

/// Copies of the names of the keys that stand in files before one.
fn keys_of(alloc: Global, trace: &GroupTrace, before: FileSeq) -> Result<Vec<Vec<u8>>, AllocError> {
    let mut all = Vec::new(alloc);
    for name in trace.keys_before(alloc, before)? {
        all.push(Vec::from_slice(alloc, name)?)?;
    }
    Ok(all)
}

/// Adds a key of a group to the batch for the rewrite queue, if it is there.
fn add_key<F: FileSystem>(
    alloc: Global,
    files: &F,
    pipes: &DualPipes,
    log: &mut TracedTables,
    writer: &mut Writer,
    group: u64,
    name: Vec<u8>,
) -> Result<(), Error>
    requires { IsCleaningSome (F.disk files.now) pipes.now log.old writer.old.batch.items }
    ensures goes_on { GoesOn (F.disk files.now) pipes.now log.old writer.old.batch.items (F.disk files.now) pipes.now log.new writer.new.batch.items result }
    ensures cause { IfErr result (λ e. IsCleaningFault (F.meter files.now) (F.meter files.now) e) }
{
    if name.is_empty() || !is_marked(log, group) {
        return Ok(());
    }
    let Some(value) = log.tables.get(group, &name) else {
        return Ok(());
    };
    let value = Vec::from_slice(alloc, value)?;
    match rewrite_key(&mut writer.batch, &mut log.traces, group, name, value) {
        Ok(()) => {}
        Err(error) => return Err(of_record(error)),
    }
    writer.count = writer.count.saturating_add(1);
    Ok(())
}

/// Rewrites the keys of a group that stand in files before one.
fn rewrite_all_keys<F: FileSystem>(
    alloc: Global,
    files: &mut F,
    pipes: &mut DualPipes,
    log: &mut TracedTables,
    writer: &mut Writer,
    group: u64,
    before: FileSeq,
) -> Result<(), Error>
    requires { IsCleaningSome (F.disk files.old) pipes.old log.old writer.old.batch.items }
    ensures goes_on { GoesOn (F.disk files.old) pipes.old log.old writer.old.batch.items (F.disk files.new) pipes.new log.new writer.new.batch.items result }
    ensures later { RefusesNoMore (F.is_bounded files.old) (F.is_bounded files.new) (F.meter files.old) (F.meter files.new) }
    ensures cause { IfErr result (λ e. IsCleaningFault (F.meter files.old) (F.meter files.new) e) }
{
    let Some(trace) = log.traces.get(group) else {
        return Ok(());
    };
    for name in keys_of(alloc, trace, before)? {
        add_key(alloc, files, pipes, log, writer, group, name)?;
        writer.flush_large(files, pipes, log)?;
    }
    Ok(())
}

/// Adds the marks of a group to the batch for the rewrite queue, where the append files before one
/// are to go.
fn add_marks<F: FileSystem>(
    alloc: Global,
    files: &F,
    pipes: &DualPipes,
    log: &mut TracedTables,
    writer: &mut Writer,
    group: u64,
    before: FileSeq,
) -> Result<(), Error>
    requires { IsCleaningSome (F.disk files.now) pipes.now log.old writer.old.batch.items }
    ensures goes_on { GoesOn (F.disk files.now) pipes.now log.old writer.old.batch.items (F.disk files.now) pipes.now log.new writer.new.batch.items result }
    ensures cause { IfErr result (λ e. IsCleaningFault (F.meter files.now) (F.meter files.now) e) }
{
    match mark_group(
        alloc,
        &mut writer.batch,
        &log.tables,
        &mut log.traces,
        group,
        before,
    ) {
        Ok(()) => Ok(()),
        Err(error) => Err(of_mark(error)),
    }
}

/// Marks a group, where the append files before one are to go.
pub(crate) fn mark<F: FileSystem>(
    alloc: Global,
    files: &mut F,
    pipes: &mut DualPipes,
    log: &mut TracedTables,
    writer: &mut Writer,
    group: u64,
    before: FileSeq,
) -> Result<(), Error>
    requires { IsCleaningSome (F.disk files.old) pipes.old log.old writer.old.batch.items }
    ensures goes_on { GoesOn (F.disk files.old) pipes.old log.old writer.old.batch.items (F.disk files.new) pipes.new log.new writer.new.batch.items result }
    ensures later { RefusesNoMore (F.is_bounded files.old) (F.is_bounded files.new) (F.meter files.old) (F.meter files.new) }
    ensures cause { IfErr result (λ e. IsCleaningFault (F.meter files.old) (F.meter files.new) e) }
{
    add_marks(alloc, files, pipes, log, writer, group, before)?;
    writer.flush_large(files, pipes, log)
}

/// Rewrites what a group has in append files before one: its marks, its entries, its keys.
pub(crate) fn rewrite_group<F: FileSystem>(
    alloc: Global,
    files: &mut F,
    pipes: &mut DualPipes,
    log: &mut TracedTables,
    writer: &mut Writer,
    group: u64,
    before: FileSeq,
) -> Result<(), Error>
    requires { IsCleaningSome (F.disk files.old) pipes.old log.old writer.old.batch.items }
    ensures goes_on { GoesOn (F.disk files.old) pipes.old log.old writer.old.batch.items (F.disk files.new) pipes.new log.new writer.new.batch.items result }
    ensures later { RefusesNoMore (F.is_bounded files.old) (F.is_bounded files.new) (F.meter files.old) (F.meter files.new) }
    ensures cause { IfErr result (λ e. IsCleaningFault (F.meter files.old) (F.meter files.new) e) }
{
    mark(alloc, files, pipes, log, writer, group, before)?;
    rewrite_all_entries(alloc, files, pipes, log, writer, group, before)?;
    rewrite_all_keys(alloc, files, pipes, log, writer, group, before)
}
