//! Memtables with the traces of their groups.

ghost use Rattle.std.specs.Prelude.{◌≡◌, ◌↔◌, ◌+◌, ◌++◌, ℕ, List, None, false, IfOk, OnOk};
ghost use Rattle.raft_log_covers.specs.Cells.{AreUnmarked};
ghost use Rattle.raft_log_covers.specs.Kept.{new_trace, traces_after};
ghost use Rattle.raft_log_covers.specs.Queues.{FilesRise, batches_of};
ghost use Rattle.raft_log_marks.specs.Opened.{KeepLastTails, TellPlaces};
ghost use Rattle.raft_log_marks.specs.Standing.{CanBeCleaned};
ghost use Rattle.raft_log_memtables.specs.Content.{after_batch, nothing, reach_after_batch};
ghost use Rattle.raft_log_memtables.specs.MemTable.{batch_items};
ghost use Rattle.raft_log_memtables.specs.MemTables.{content_in, reach_in};
ghost use Rattle.raft_log_records.specs.Item.{items_of};
ghost use Rattle.raft_log_purge.specs.Anew.{StandTogether};
ghost use Rattle.raft_log_recovery.specs.Replay.{Placed};
ghost use Rattle.raft_log_records.specs.declared.file_id.LogQueue.TheVariants.{Append, Rewrite};
ghost use Rattle.raft_log_replay.specs.Batches.{content_over, reach_over, records_in};
ghost use Rattle.raft_log_traced.specs.Places.{items_moved};
ghost use Rattle.raft_log_traced.specs.Traced.{AreOf, IsReplayedTraced, any_marked, filed_in, lies_in, rewrites_in};
ghost use Rattle.raft_log_traced.specs.Written.{counts_in, with_record};
ghost use Rattle.raft_log_traces.specs.Alike.{AreAlike};
ghost use Rattle.raft_log_traces.specs.GroupTraces.{traces_in};

use crate::marked::with_marks;
use crate::opened::{set_entries, set_removals};
use crate::places::set_places;
use crate::written::with_written;
use raft_log_files::Error;
use raft_log_memtables::MemTables;
use raft_log_purge::{RewriteCounts, Together};
use raft_log_records::{FileBlockHandle, FileSeq, LogItem, LogItemBatch, LogQueue};
use raft_log_recovery::{NewMachine, ReplayMachine};
use raft_log_replay::ReplayedTables;
use raft_log_traces::GroupTraces;
use std::alloc::{AllocError, Global};

/// The counts of a rewrite queue that has no record.
const NOTHING_WRITTEN: RewriteCounts = RewriteCounts { sets: 0, marks: 0 };

/// What the log engine has of each group, and keeps of it for cleaning.
#[derive(Drop)]
pub struct TracedTables {
    /// The memtables.
    pub tables: MemTables,
    /// What is kept of each group for cleaning.
    pub traces: GroupTraces,
    /// A batch of the append queue that an opening replayed belongs to an atomic group. So the traces
    /// may tell what never counted, and nothing is to be cleaned by them.
    pub has_marked: bool,
    /// Records of an atomic group stood apart in the rewrite queue that an opening replayed. So that
    /// queue isn't to be written anew: while its first records go, others could count again.
    pub is_parted: bool,
    /// How much the records had that were written to the rewrite queue, since it was last written anew.
    pub written: RewriteCounts,
}

impl TracedTables {
    /// No group is there, and nothing was ever written.
    pub fn new(alloc: Global) -> TracedTables
        ensures content { content_in result.tables ≡ nothing }
        ensures reach { (group : ℕ) → reach_in result.tables group ≡ None }
        ensures traces { (group : ℕ) → traces_in result.traces group ≡ new_trace }
        ensures marked { result.has_marked ≡ false }
        ensures parted { result.is_parted ≡ false }
        ensures written { result.written ≡ record { sets = 0; marks = 0 } }
    {
        TracedTables {
            tables: MemTables::new(alloc),
            traces: GroupTraces::new(alloc),
            has_marked: false,
            is_parted: false,
            written: NOTHING_WRITTEN,
        }
    }

    /// A batch was written to the append queue, whose entries lie in the block of this handle. After
    /// an `Err`, for want of memory, tables and traces are given up.
    pub fn apply(&mut self, batch: LogItemBatch, handle: FileBlockHandle) -> Result<(), AllocError>
        ensures content { OnOk result (content_in self.new.tables ≡ after_batch (batch_items handle batch) (content_in self.old.tables)) }
        ensures reach { OnOk result (reach_in self.new.tables ≡ reach_after_batch (batch_items handle batch) (reach_in self.old.tables)) }
        ensures traces { OnOk result (AreAlike (traces_after handle.id.seq (items_of batch.items.items) (traces_in self.old.traces)) (traces_in self.new.traces)) }
        ensures marked { self.new.has_marked ≡ self.old.has_marked }
        ensures parted { self.new.is_parted ≡ self.old.is_parted }
        ensures written { self.new.written ≡ self.old.written }
    {
        self.traces.apply(handle.id.seq, &batch.items)?;
        self.tables.apply(batch, handle)
    }

    /// A batch with these items was written to the rewrite queue: the entries of each item that are
    /// there lie in the block of this handle now, and its entries, keys and marks are counted. Nothing else
    /// changes.
    pub fn set_places(&mut self, items: &[LogItem], handle: FileBlockHandle)
        ensures content { content_in self.new.tables ≡ items_moved handle items.now (content_in self.old.tables) }
        ensures reach { reach_in self.new.tables ≡ reach_in self.old.tables }
        ensures traces { self.new.traces ≡ self.old.traces }
        ensures marked { self.new.has_marked ≡ self.old.has_marked }
        ensures parted { self.new.is_parted ≡ self.old.is_parted }
        ensures written { self.new.written ≡ with_record self.old.written (items_of items.now) }
    {
        set_places(&mut self.tables, items, handle);
        self.written = with_written(self.written, items);
    }
}

/// Memtables with the traces of their groups, of the batches that an opening finds.
#[derive(Drop)]
pub struct TracedReplay {
    pub(crate) replayed: ReplayedTables,
    pub(crate) traces: GroupTraces,
    /// A batch of the append queue belongs to an atomic group.
    pub(crate) has_marked: bool,
    /// Whether records of atomic groups stand together, of the rewrite queue.
    pub(crate) together: Together,
    /// How much the records of the rewrite queue have.
    pub(crate) written: RewriteCounts,
}

impl ReplayMachine for TracedReplay {
    ghost use Rattle.raft_log_traced.specs.Traced.{IsReplayedTraced};

    ghost has_replayed = { IsReplayedTraced };

    fn replay(&mut self, batch: LogItemBatch, handle: FileBlockHandle) -> Result<(), Error> {
        match handle.id.queue {
            LogQueue::Append => {
                self.has_marked = with_marks(self.has_marked, &batch.items);
                self.traces.apply(handle.id.seq, &batch.items)?
            }
            LogQueue::Rewrite => {
                self.together.add(&batch.items);
                self.written = with_written(self.written, &batch.items);
            }
        }
        self.replayed.replay(batch, handle)
    }
}

impl NewMachine for TracedReplay {
    fn new_machine(alloc: Global) -> TracedReplay {
        TracedReplay {
            replayed: ReplayedTables::new_machine(alloc),
            traces: GroupTraces::new(alloc),
            has_marked: false,
            together: Together::new(),
            written: NOTHING_WRITTEN,
        }
    }
}

impl TracedReplay {
    /// The tables and traces of the batches that were replayed, where this is the first append file.
    /// By them the queues can be cleaned, whatever files were left over, if no batch of the append
    /// queue is of an atomic group. No old file is kept for what lies past a group's entries. The only
    /// error is want of memory.
    pub fn finish(self, first: FileSeq) -> Result<TracedTables, AllocError>
        ensures content { (placed : List Placed) → IsReplayedTraced self placed → IfOk result (λ log. content_in log.tables ≡ content_over nothing placed) }
        ensures reach { (placed : List Placed) → IsReplayedTraced self placed → IfOk result (λ log. reach_in log.tables ≡ reach_over (λ group. None) placed) }
        ensures cleanable { (rewrites : List Placed) (appends : List Placed) → IsReplayedTraced self (rewrites ++ appends) → AreOf Rewrite rewrites → AreOf Append appends
            → FilesRise first (filed_in appends) → AreUnmarked (batches_of (filed_in appends))
            → IfOk result (λ log. CanBeCleaned first (traces_in log.traces) (records_in rewrites) (content_in log.tables) (filed_in appends)) }
        ensures placed { (rewrites : List Placed) (appends : List Placed) → IsReplayedTraced self (rewrites ++ appends) → AreOf Rewrite rewrites → AreOf Append appends
            → FilesRise first (filed_in appends) → AreUnmarked (batches_of (filed_in appends)) → IfOk result (λ log. TellPlaces lies_in (traces_in log.traces) (content_in log.tables)) }
        ensures tails { IfOk result (λ log. KeepLastTails lies_in (traces_in log.traces) (content_in log.tables)) }
        ensures marked { (placed : List Placed) → IsReplayedTraced self placed → IfOk result (λ log. log.has_marked ≡ any_marked placed) }
        ensures unmarked { (rewrites : List Placed) (appends : List Placed) → IsReplayedTraced self (rewrites ++ appends) → AreOf Append appends
            → IfOk result (λ log. log.has_marked ≡ false → AreUnmarked (batches_of (filed_in appends))) }
        ensures together { (rewrites : List Placed) (appends : List Placed) → IsReplayedTraced self (rewrites ++ appends) → AreOf Rewrite rewrites → AreOf Append appends
            → IfOk result (λ log. (log.is_parted ≡ false) ↔ StandTogether (records_in rewrites)) }
        ensures written { (placed : List Placed) → IsReplayedTraced self placed → IfOk result (λ log. log.written ≡ counts_in (rewrites_in placed)) }
    {
        let has_marked = self.has_marked;
        let is_parted = !self.together.stand();
        let written = self.written;
        let tables = self.replayed.finish();
        let mut traces = self.traces;
        set_removals(&mut traces, first)?;
        set_entries(&mut traces, &tables)?;
        Ok(TracedTables {
            tables,
            traces,
            has_marked,
            is_parted,
            written,
        })
    }
}
