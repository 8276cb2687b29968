//! What a cleaning writes to the rewrite queue.

ghost use Rattle.std.specs.Prelude.{◌≡◌, ◌+◌, ◌^◌, ◌<◌, [], IfErr, IfSome, OnOk};
ghost use Rattle.raft_log_blocks.specs.Held.{IsPlace};
ghost use Rattle.raft_log_cleaner.specs.Caused.{IsCleaningFault};
ghost use Rattle.raft_log_cleaner.specs.Cleaning.{GoesOn, IsCleaningSome, SyncsAll};
ghost use Rattle.raft_log_disk.specs.Cause.{RefusesNoMore};
ghost use Rattle.raft_log_records.specs.declared.block.EntriesBlock.{EntriesBlock};

use crate::fault::of_record;
use raft_log_files::{Error, FileSystem};
use raft_log_pipes::DualPipes;
use raft_log_records::{EntriesBlock, FileBlockHandle, LogBatch, LogQueue};
use raft_log_traced::TracedTables;
use std::alloc::Global;

/// A batch with so many bytes is written.
pub const MOST_BATCH_BYTES: usize = 131_072;

/// After so many bytes the rewrite queue is synced.
pub const MOST_UNSYNCED_BYTES: u64 = 524_288;

/// Where the entries of a record lie in its file.
pub fn place_of(block: Option<EntriesBlock>, written: FileBlockHandle) -> FileBlockHandle
    requires { IfSome block (λ b. written.offset + b.offset < 2 ^ 64) }
    ensures is { (b : EntriesBlock) → block ≡ Some b → IsPlace written b result }
    ensures id { result.id ≡ written.id }
{
    match block {
        Some(block) => block.in_file(written.id, written.offset),
        None => written,
    }
}

/// Writes a batch to the rewrite queue, and then its entries lie there. Answers how many bytes its
/// record has.
fn write_batch<F: FileSystem>(
    files: &mut F,
    pipes: &mut DualPipes,
    log: &mut TracedTables,
    batch: &mut LogBatch,
) -> Result<usize, Error>
    requires cleaning { IsCleaningSome (F.disk files.old) pipes.old log.old batch.old.items }
    requires some { batch.old.items ≡ [] → ⊥ }
    ensures goes_on { GoesOn (F.disk files.old) pipes.old log.old batch.old.items (F.disk files.new) pipes.new log.new batch.new.items result }
    ensures emptied { OnOk result (batch.new.items ≡ []) }
    ensures traces { log.new.traces ≡ log.old.traces }
    ensures later { RefusesNoMore (F.is_bounded files.old) (F.is_bounded files.new) (F.meter files.old) (F.meter files.new) }
    ensures cause { IfErr result (λ e. IsCleaningFault (F.meter files.old) (F.meter files.new) e) }
{
    let len = match batch.finish_populate() {
        Ok(len) => len,
        Err(error) => return Err(of_record(error)),
    };
    let block = batch.entries_block();
    let written = pipes.append(files, LogQueue::Rewrite, batch)?;
    let place = place_of(block, written);
    let items = batch.drain();
    log.set_places(&items.items, place);
    Ok(len)
}

/// Batches for the rewrite queue, one after the other.
#[derive(Drop)]
pub(crate) struct Writer {
    /// What is written next.
    pub(crate) batch: LogBatch,
    /// So many bytes were written since the last sync.
    unsynced: u64,
    /// So many entries and keys were written.
    pub(crate) count: u64,
}

impl Writer {
    /// Nothing was written yet.
    pub(crate) fn new(alloc: Global) -> Writer
        ensures { result.batch.items ≡ [] }
    {
        Writer {
            batch: LogBatch::new(alloc),
            unsynced: 0,
            count: 0,
        }
    }

    /// What was written is on the disk then.
    pub(crate) fn sync<F: FileSystem>(
        &mut self,
        files: &mut F,
        pipes: &mut DualPipes,
        log: &TracedTables,
    ) -> Result<(), Error>
        requires { IsCleaningSome (F.disk files.old) pipes.old log.now self.old.batch.items }
        ensures goes_on { GoesOn (F.disk files.old) pipes.old log.now self.old.batch.items (F.disk files.new) pipes.new log.now self.new.batch.items result }
        ensures batch { self.new.batch ≡ self.old.batch }
        ensures synced { SyncsAll (F.disk files.old) pipes.old log.now self.old.batch.items (F.disk files.new) pipes.new result }
        ensures later { RefusesNoMore (F.is_bounded files.old) (F.is_bounded files.new) (F.meter files.old) (F.meter files.new) }
        ensures cause { IfErr result (λ e. IsCleaningFault (F.meter files.old) (F.meter files.new) e) }
    {
        pipes.sync(files, LogQueue::Rewrite)?;
        self.unsynced = 0;
        Ok(())
    }

    /// Writes the batch, if it has anything, and then its entries lie there. After some batches the
    /// queue is synced.
    pub(crate) fn flush<F: FileSystem>(
        &mut self,
        files: &mut F,
        pipes: &mut DualPipes,
        log: &mut TracedTables,
    ) -> Result<(), Error>
        requires { IsCleaningSome (F.disk files.old) pipes.old log.old self.old.batch.items }
        ensures goes_on { GoesOn (F.disk files.old) pipes.old log.old self.old.batch.items (F.disk files.new) pipes.new log.new self.new.batch.items result }
        ensures emptied { OnOk result (self.new.batch.items ≡ []) }
        ensures traces { log.new.traces ≡ log.old.traces }
        ensures later { RefusesNoMore (F.is_bounded files.old) (F.is_bounded files.new) (F.meter files.old) (F.meter files.new) }
        ensures cause { IfErr result (λ e. IsCleaningFault (F.meter files.old) (F.meter files.new) e) }
    {
        if self.batch.is_empty() {
            return Ok(());
        }
        let len = write_batch(files, pipes, log, &mut self.batch)?;
        self.unsynced = self.unsynced.saturating_add(len as u64);
        if self.unsynced >= MOST_UNSYNCED_BYTES {
            return self.sync(files, pipes, log);
        }
        Ok(())
    }

    /// The same where the batch is large.
    pub(crate) fn flush_large<F: FileSystem>(
        &mut self,
        files: &mut F,
        pipes: &mut DualPipes,
        log: &mut TracedTables,
    ) -> Result<(), Error>
        requires { IsCleaningSome (F.disk files.old) pipes.old log.old self.old.batch.items }
        ensures goes_on { GoesOn (F.disk files.old) pipes.old log.old self.old.batch.items (F.disk files.new) pipes.new log.new self.new.batch.items result }
        ensures traces { log.new.traces ≡ log.old.traces }
        ensures later { RefusesNoMore (F.is_bounded files.old) (F.is_bounded files.new) (F.meter files.old) (F.meter files.new) }
        ensures cause { IfErr result (λ e. IsCleaningFault (F.meter files.old) (F.meter files.new) e) }
    {
        if self.batch.approximate_size() < MOST_BATCH_BYTES {
            return Ok(());
        }
        self.flush(files, pipes, log)
    }
}
