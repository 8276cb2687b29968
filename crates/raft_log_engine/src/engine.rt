//! An engine over both queues of files.

use crate::block_cache::BlockCache;
use raft_log_cleaner::PurgeManager;
use raft_log_files::FileSystem;
use raft_log_pipes::DualPipes;
use raft_log_traced::TracedTables;
use std::alloc::Global;
use std::marker::Model;

/// A log engine over both queues of files (raft-engine's `Engine`): its batches are on the disk, and
/// where their entries lie is in memory. Writes go to the append queue; the rewrite queue has what
/// was there when it was opened. After a write that failed it answers nothing more.
#[derive(Drop)]
pub struct Engine<F: FileSystem> {
    pub(crate) alloc: Global,
    pub(crate) files: F,
    pub(crate) pipes: DualPipes,
    /// Where entries lie and which values keys have, and what is kept of each group for cleaning.
    pub(crate) traced: TracedTables,
    /// A write failed.
    pub(crate) is_stopped: bool,
    /// A write wasn't synced, since the engine was opened or cleaned.
    pub(crate) wrote_unsynced: bool,
    /// Blocks of entries that were read last.
    pub(crate) blocks: BlockCache,
    /// Cleans the log.
    pub(crate) manager: PurgeManager,
}

impl<F: FileSystem> Model for Engine<F> {
    ghost use Rattle.raft_log_engine.specs.Cached.{IsEngine};
    ghost use Rattle.raft_log_engine.specs.Parts.{Parts};
    ghost use Rattle.raft_log_memtables.specs.contracts.memtables.MemTables as tables;
    ghost use Rattle.raft_log_traces.specs.contracts.group_traces.GroupTraces as traces;
    ghost use Rattle.std.specs.Coded.{codes};

    ghost Value = { Parts F };

    ghost coded = { Prim.hlevel (codes, tables.the_row.coded, traces.the_row.coded) };

    ghost view = { λ e. record {
      files = e.files;
      pipes = e.pipes;
      tables = e.traced.tables;
      is_stopped = e.is_stopped;
      wrote_unsynced = e.wrote_unsynced;
      block_reads = e.blocks.reads;
      traces = e.traced.traces;
      has_marked = e.traced.has_marked;
      is_parted = e.traced.is_parted;
      purge_threshold = e.manager.purge_threshold;
    } };

    ghost invariant = { λ e. IsEngine (F.disk e.files) e.pipes e.traced e.is_stopped e.wrote_unsynced e.blocks };
}
