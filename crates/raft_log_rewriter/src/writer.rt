//! Records of the rewrite queue that is written anew.

ghost use Rattle.std.specs.Prelude.{◌≡◌, ◌∷◌, ◌++◌, [], IfErr, OnOk};
ghost use Rattle.raft_log_cleaner.specs.Caused.{IsCleaningFault};
ghost use Rattle.raft_log_disk.specs.Cause.{RefusesNoMore};
ghost use Rattle.raft_log_marks.specs.Caused.{IsBatchFault};
ghost use Rattle.raft_log_pipes.specs.Pipes.{ArePipes};
ghost use Rattle.raft_log_records.specs.Item.Change.{mark};
ghost use Rattle.raft_log_records.specs.declared.item.AtomicGroupStatus.TheVariants.{End};
ghost use Rattle.raft_log_rewriter.specs.Parts.{IsMarkedPart, Stage};
ghost use Rattle.raft_log_rewriter.specs.Parts.Stage.{between};
ghost use Rattle.raft_log_rewriter.specs.Rewriting.{GoesOn, at};
ghost use Rattle.raft_log_rewriter.specs.Standing.{SyncsRecords, WritesRecord};

use raft_log_cleaner::{MOST_BATCH_BYTES, MOST_UNSYNCED_BYTES, of_record, place_of};
use raft_log_files::{Error, FileSystem};
use raft_log_pipes::DualPipes;
use raft_log_records::{AtomicGroupBuilder, LogBatch, LogQueue, RecordError};
use raft_log_traced::TracedTables;
use std::alloc::Global;

/// Writes a batch to the rewrite queue, and then its entries lie there. Answers how many bytes its
/// record has.
fn write_batch<F: FileSystem>(
    files: &mut F,
    pipes: &mut DualPipes,
    log: &mut TracedTables,
    batch: &mut LogBatch,
) -> Result<usize, Error>
    requires pipes { ArePipes pipes.old (F.disk files.old) }
    requires some { batch.old.items ≡ [] → ⊥ }
    ensures writes { WritesRecord (F.disk files.old) pipes.old log.old batch.old.items (F.disk files.new) pipes.new log.new result }
    ensures both { OnOk result (ArePipes pipes.new (F.disk files.new)) }
    ensures emptied { OnOk result (batch.new.items ≡ []) }
    ensures traces { log.new.traces ≡ log.old.traces }
    ensures later { RefusesNoMore (F.is_bounded files.old) (F.is_bounded files.new) (F.meter files.old) (F.meter files.new) }
    ensures cause { IfErr result (λ e. IsCleaningFault (F.meter files.old) (F.meter files.new) e) }
{
    let len = match batch.finish_populate() {
        Ok(len) => len,
        Err(error) => return Err(of_record(error)),
    };
    let block = batch.entries_block();
    let written = pipes.append(files, LogQueue::Rewrite, batch)?;
    let place = place_of(block, written);
    let items = batch.drain();
    log.set_places(&items.items, place);
    Ok(len)
}

/// What was written anew is on the disk then.
pub(crate) fn sync_rewrites<F: FileSystem>(
    files: &mut F,
    pipes: &mut DualPipes,
    log: &TracedTables,
) -> Result<(), Error>
    requires { ArePipes pipes.old (F.disk files.old) }
    ensures syncs { SyncsRecords (F.disk files.old) pipes.old log.now (F.disk files.new) pipes.new result }
    ensures both { ArePipes pipes.new (F.disk files.new) }
    ensures later { RefusesNoMore (F.is_bounded files.old) (F.is_bounded files.new) (F.meter files.old) (F.meter files.new) }
    ensures cause { IfErr result (λ e. IsCleaningFault (F.meter files.old) (F.meter files.new) e) }
{
    pipes.sync(files, LogQueue::Rewrite)?;
    Ok(())
}

/// Groups that are written anew, in records one after the other.
#[derive(Drop)]
pub(crate) struct Writer {
    /// What is written next.
    pub(crate) batch: LogBatch,
    /// The atomic group that is being written: a group of which a part was written.
    pub(crate) group: Option<u64>,
    /// The id of the next atomic group.
    next_id: u64,
    /// So many bytes were written since the last sync.
    unsynced: u64,
}

impl Writer {
    /// Nothing was written yet.
    pub(crate) fn new(alloc: Global) -> Writer
        ensures batch { result.batch.items ≡ [] }
        ensures group { result.group ≡ None }
    {
        Writer {
            batch: LogBatch::new(alloc),
            group: None,
            next_id: 0,
            unsynced: 0,
        }
    }

    /// Writes the batch as a record. After some records the queue is synced.
    fn write<F: FileSystem>(
        &mut self,
        files: &mut F,
        pipes: &mut DualPipes,
        log: &mut TracedTables,
    ) -> Result<(), Error>
        requires pipes { ArePipes pipes.old (F.disk files.old) }
        requires some { self.old.batch.items ≡ [] → ⊥ }
        ensures writes { WritesRecord (F.disk files.old) pipes.old log.old self.old.batch.items (F.disk files.new) pipes.new log.new result }
        ensures emptied { OnOk result (self.new.batch.items ≡ []) }
        ensures traces { log.new.traces ≡ log.old.traces }
        ensures group { self.new.group ≡ self.old.group }
        ensures later { RefusesNoMore (F.is_bounded files.old) (F.is_bounded files.new) (F.meter files.old) (F.meter files.new) }
        ensures cause { IfErr result (λ e. IsCleaningFault (F.meter files.old) (F.meter files.new) e) }
    {
        let len = write_batch(files, pipes, log, &mut self.batch)?;
        self.unsynced = self.unsynced.saturating_add(len as u64);
        if self.unsynced < MOST_UNSYNCED_BYTES {
            return Ok(());
        }
        self.unsynced = 0;
        sync_rewrites(files, pipes, log)
    }

    /// Marks the batch as the first record of an atomic group, which is being written then.
    fn mark_begin(&mut self) -> Result<(), RecordError>
        ensures marked { OnOk result (IsMarkedPart None self.old.batch.items self.new.group self.new.batch.items) }
        ensures cause { IfErr result IsBatchFault }
    {
        let id = self.next_id;
        AtomicGroupBuilder::with_id(id).begin(&mut self.batch)?;
        self.group = Some(id);
        self.next_id = id.wrapping_add(1);
        Ok(())
    }

    /// Marks the batch as a record of an atomic group that goes on behind it.
    fn mark_part(&mut self) -> Result<(), RecordError>
        ensures marked { OnOk result (IsMarkedPart self.old.group self.old.batch.items self.new.group self.new.batch.items) }
        ensures cause { IfErr result IsBatchFault }
    {
        match self.group {
            Some(id) => AtomicGroupBuilder::with_id(id).add(&mut self.batch),
            None => self.mark_begin(),
        }
    }

    /// Writes what is in the batch, if it is large, where a group is being written: the record belongs
    /// to an atomic group then.
    pub(crate) fn write_part<F: FileSystem>(
        &mut self,
        files: &mut F,
        pipes: &mut DualPipes,
        log: &mut TracedTables,
    ) -> Result<(), Error>
        requires { ArePipes pipes.old (F.disk files.old) }
        ensures goes_on { (stage : Stage) → GoesOn (F.disk files.old) pipes.old log.old self.old (at stage) (F.disk files.new) pipes.new log.new self.new (at stage) result }
        ensures traces { log.new.traces ≡ log.old.traces }
        ensures later { RefusesNoMore (F.is_bounded files.old) (F.is_bounded files.new) (F.meter files.old) (F.meter files.new) }
        ensures cause { IfErr result (λ e. IsCleaningFault (F.meter files.old) (F.meter files.new) e) }
    {
        if self.batch.approximate_size() < MOST_BATCH_BYTES {
            return Ok(());
        }
        match self.mark_part() {
            Ok(()) => {}
            Err(error) => return Err(of_record(error)),
        }
        self.write(files, pipes, log)
    }

    /// Ends the atomic group with the record of the batch, and writes it.
    fn write_end<F: FileSystem>(
        &mut self,
        files: &mut F,
        pipes: &mut DualPipes,
        log: &mut TracedTables,
        id: u64,
    ) -> Result<(), Error>
        requires pipes { ArePipes pipes.old (F.disk files.old) }
        requires group { self.old.group ≡ Some id }
        ensures goes_on { GoesOn (F.disk files.old) pipes.old log.old self.old (at between) (F.disk files.new) pipes.new log.new self.new (at between) result }
        ensures group { OnOk result (self.new.group ≡ None) }
        ensures traces { log.new.traces ≡ log.old.traces }
        ensures later { RefusesNoMore (F.is_bounded files.old) (F.is_bounded files.new) (F.meter files.old) (F.meter files.new) }
        ensures cause { IfErr result (λ e. IsCleaningFault (F.meter files.old) (F.meter files.new) e) }
    {
        match AtomicGroupBuilder::with_id(id).end(&mut self.batch) {
            Ok(()) => {}
            Err(error) => return Err(of_record(error)),
        }
        self.write(files, pipes, log)?;
        self.group = None;
        Ok(())
    }

    /// Writes whole groups, where no atomic group is being written.
    pub(crate) fn write_whole<F: FileSystem>(
        &mut self,
        files: &mut F,
        pipes: &mut DualPipes,
        log: &mut TracedTables,
    ) -> Result<(), Error>
        requires pipes { ArePipes pipes.old (F.disk files.old) }
        requires group { self.old.group ≡ None }
        ensures goes_on { GoesOn (F.disk files.old) pipes.old log.old self.old (at between) (F.disk files.new) pipes.new log.new self.new (at between) result }
        ensures emptied { OnOk result (self.new.batch.items ≡ []) }
        ensures group { self.new.group ≡ None }
        ensures traces { log.new.traces ≡ log.old.traces }
        ensures later { RefusesNoMore (F.is_bounded files.old) (F.is_bounded files.new) (F.meter files.old) (F.meter files.new) }
        ensures cause { IfErr result (λ e. IsCleaningFault (F.meter files.old) (F.meter files.new) e) }
    {
        if self.batch.is_empty() {
            return Ok(());
        }
        self.write(files, pipes, log)
    }

    /// A group is in the batch to its end: the atomic group, if it is in one, is written and ended. A
    /// large batch is written.
    pub(crate) fn end_group<F: FileSystem>(
        &mut self,
        files: &mut F,
        pipes: &mut DualPipes,
        log: &mut TracedTables,
    ) -> Result<(), Error>
        requires { ArePipes pipes.old (F.disk files.old) }
        ensures goes_on { GoesOn (F.disk files.old) pipes.old log.old self.old (at between) (F.disk files.new) pipes.new log.new self.new (at between) result }
        ensures group { OnOk result (self.new.group ≡ None) }
        ensures traces { log.new.traces ≡ log.old.traces }
        ensures later { RefusesNoMore (F.is_bounded files.old) (F.is_bounded files.new) (F.meter files.old) (F.meter files.new) }
        ensures cause { IfErr result (λ e. IsCleaningFault (F.meter files.old) (F.meter files.new) e) }
    {
        if let Some(id) = self.group {
            return self.write_end(files, pipes, log, id);
        }
        if self.batch.approximate_size() < MOST_BATCH_BYTES {
            return Ok(());
        }
        self.write_whole(files, pipes, log)
    }
}
