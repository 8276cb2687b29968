//! Replaying the records of log files into memtables.

ghost use Rattle.std.specs.Prelude.{◌≡◌, Some, None, OnOk, IfOk};
ghost use Rattle.raft_log_records.specs.Item.{items_of};
ghost use Rattle.raft_log_memtables.specs.Content.{after_batch, reach_after_batch};
ghost use Rattle.raft_log_memtables.specs.MemTable.{batch_items};
ghost use Rattle.raft_log_memtables.specs.MemTables.{content_in, reach_in};
ghost use Rattle.raft_log_memtables.specs.Replay.{mark_of, begun_with, begun_more, after_end};
ghost use Rattle.raft_log_memtables.specs.Replay.{after_status, after_record, content_of};
ghost use Rattle.raft_log_memtables.specs.Records.{record_items, all_items, items_in_records};
ghost use Rattle.raft_log_memtables.specs.Recovery.{begun_by, replay_in, reach_replay_in};

use crate::memtables::MemTables;
use raft_log_records::{AtomicGroupStatus, FileBlockHandle, LogItem, LogItemBatch, LogItemContent};
use std::alloc::{AllocError, Global};

/// The items of a record, and the block in which their entries lie.
#[derive(Drop)]
pub struct PlacedBatch {
    pub batch: LogItemBatch,
    pub handle: FileBlockHandle,
}

/// The records so far of an atomic group whose last record has not come (raft-engine's
/// `PendingAtomicGroup`).
#[derive(Drop)]
struct PendingAtomicGroup {
    id: u64,
    records: Vec<PlacedBatch>,
}

/// Memtables into which the records of log files are replayed (raft-engine's
/// `MemTableRecoverContext`). Those of an atomic group count together once its last record comes. A
/// group whose last record doesn't come counts nothing.
#[derive(Drop)]
pub struct MemTableRecoverContext {
    memtables: MemTables,
    pending: Option<PendingAtomicGroup>,
    alloc: Global,
}

/// The atomic group that a record belongs to, and where in it the record stands.
fn mark_in(items: &[LogItem]) -> Option<(u64, AtomicGroupStatus)>
    ensures { result ≡ mark_of (items_of items.now) }
{
    for item in items {
        if let LogItemContent::AtomicGroup { id, status } = item.content {
            return Some((id, status));
        }
    }
    None
}

/// Applies records in their order.
fn apply_all(memtables: &mut MemTables, records: Vec<PlacedBatch>) -> Result<(), AllocError>
    ensures content { OnOk result (content_in memtables.new
        ≡ after_batch (all_items records.items) (content_in memtables.old)) }
    ensures reach { OnOk result (reach_in memtables.new
        ≡ reach_after_batch (all_items records.items) (reach_in memtables.old)) }
{
    for placed in records {
        memtables.apply(placed.batch, placed.handle)?;
    }
    Ok(())
}

impl MemTableRecoverContext {
    /// Replays over what the memtables have.
    #[tactic(auto, unfolding(crate::specs::Recovery::replay_in, crate::specs::Recovery::reach_replay_in))]
    pub fn new(alloc: Global, memtables: MemTables) -> MemTableRecoverContext
        ensures content { replay_in result ≡ record { state = content_in memtables; begun = None } }
        ensures reach { reach_replay_in result
            ≡ record { state = reach_in memtables; begun = None } }
    {
        MemTableRecoverContext {
            memtables,
            pending: None,
            alloc,
        }
    }

    /// Opens an atomic group. What another open group has counts nothing.
    fn begin(&mut self, id: u64, placed: PlacedBatch) -> Result<(), AllocError>
        ensures begun { OnOk result (begun_by self.new.pending ≡ Some (id, record_items placed)) }
        ensures same { OnOk result (self.new.memtables ≡ self.old.memtables) }
    {
        let mut records = Vec::new(self.alloc);
        records.push(placed)?;
        self.pending = Some(PendingAtomicGroup { id, records });
        Ok(())
    }

    /// Adds a record to its atomic group, if that is open.
    fn add(&mut self, id: u64, placed: PlacedBatch) -> Result<(), AllocError>
        ensures begun { OnOk result (begun_by self.new.pending
            ≡ begun_more id (record_items placed) (begun_by self.old.pending)) }
        ensures same { OnOk result (self.new.memtables ≡ self.old.memtables) }
    {
        if let Some(mut group) = self.pending.take() {
            if group.id == id {
                group.records.push(placed)?;
            }
            self.pending = Some(group);
        }
        Ok(())
    }

    /// Lets all records of an atomic group count, if it is open.
    #[tactic(auto, unfolding(crate::specs::Recovery::replay_in, crate::specs::Recovery::reach_replay_in))]
    fn end(&mut self, id: u64, placed: PlacedBatch) -> Result<(), AllocError>
        ensures content { OnOk result (replay_in self.new
            ≡ after_end after_batch (record_items placed) (replay_in self.old) (begun_with id (begun_by self.old.pending))) }
        ensures reach { OnOk result (reach_replay_in self.new
            ≡ after_end reach_after_batch (record_items placed) (reach_replay_in self.old) (begun_with id (begun_by self.old.pending))) }
    {
        match self.pending.take() {
            Some(mut group) if group.id == id => {
                group.records.push(placed)?;
                apply_all(&mut self.memtables, group.records)
            }
            other => {
                self.pending = other;
                Ok(())
            }
        }
    }

    /// Replays a record of an atomic group.
    #[tactic(auto, unfolding(crate::specs::Recovery::replay_in, crate::specs::Recovery::reach_replay_in))]
    fn replay_marked(
        &mut self,
        id: u64,
        status: AtomicGroupStatus,
        placed: PlacedBatch,
    ) -> Result<(), AllocError>
        ensures content { OnOk result (replay_in self.new
            ≡ after_status after_batch id status (record_items placed) (replay_in self.old)) }
        ensures reach { OnOk result (reach_replay_in self.new
            ≡ after_status reach_after_batch id status (record_items placed) (reach_replay_in self.old)) }
    {
        match status {
            AtomicGroupStatus::Begin => self.begin(id, placed),
            AtomicGroupStatus::Middle => self.add(id, placed),
            AtomicGroupStatus::End => self.end(id, placed),
        }
    }

    /// Replays the next record, whose entries lie in the block of this handle. After an `Err`, for
    /// want of memory, the memtables are given up.
    #[tactic(auto, unfolding(crate::specs::Recovery::replay_in, crate::specs::Recovery::reach_replay_in))]
    pub fn replay(&mut self, batch: LogItemBatch, handle: FileBlockHandle) -> Result<(), AllocError>
        ensures content { OnOk result (replay_in self.new
            ≡ after_record after_batch (batch_items handle batch) (replay_in self.old)) }
        ensures reach { OnOk result (reach_replay_in self.new
            ≡ after_record reach_after_batch (batch_items handle batch) (reach_replay_in self.old)) }
    {
        let mark = mark_in(&batch.items);
        let placed = PlacedBatch { batch, handle };
        match mark {
            None => self.memtables.apply(placed.batch, placed.handle),
            Some((id, status)) => self.replay_marked(id, status, placed),
        }
    }

    /// The memtables after the last record. An atomic group that is still open counts nothing.
    #[tactic(auto, unfolding(crate::specs::Recovery::replay_in, crate::specs::Recovery::reach_replay_in))]
    pub fn finish(self) -> MemTables
        ensures content { content_in result ≡ (replay_in self).state }
        ensures reach { reach_in result ≡ (reach_replay_in self).state }
    {
        self.memtables
    }
}

/// The memtables of a list of records (own): their content is that of the records, where those of an
/// atomic group count together or not at all.
pub fn replay_all(alloc: Global, records: Vec<PlacedBatch>) -> Result<MemTables, AllocError>
    ensures { IfOk result (λ tables. content_in tables
        ≡ content_of (items_in_records records.items)) }
{
    let mut context = MemTableRecoverContext::new(alloc, MemTables::new(alloc));
    for placed in records {
        context.replay(placed.batch, placed.handle)?;
    }
    Ok(context.finish())
}
