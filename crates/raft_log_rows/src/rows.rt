//! What rows are asked of, and which section answers a row.

use crate::batches::added;
use crate::disk::changed;
use crate::memtables::replayed;
use crate::queues::opened;
use crate::texts::set;
use crate::traces::traced;
use raft_log_files::{Config, MemoryFileSystem};
use raft_log_memtables::{MemTables, PlacedBatch};
use raft_log_records::LogBatch;
use raft_log_recovery::NewMachine;
use raft_log_traced::TracedReplay;
use raft_log_traces::GroupTraces;
use raft_rows::{Answer, Rows};
use std::alloc::Global;

/// What rows change and ask.
#[derive(Drop)]
pub struct Floor {
    pub files: MemoryFileSystem,
    pub config: Config,
    pub batch: LogBatch,
    pub tables: MemTables,
    /// Records that are to be replayed into the tables.
    pub records: Vec<PlacedBatch>,
    pub traces: GroupTraces,
    /// What an opening has found so far.
    pub machine: TracedReplay,
}

impl Floor {
    pub fn new(alloc: Global) -> Floor {
        Floor {
            files: MemoryFileSystem::new(alloc),
            config: Config::default(alloc),
            batch: LogBatch::new(alloc),
            tables: MemTables::new(alloc),
            records: Vec::new(alloc),
            traces: GroupTraces::new(alloc),
            machine: TracedReplay::new_machine(alloc),
        }
    }
}

impl Floor {
    /// The answer to a row about files, or the queues and items that they have.
    fn of_files(&mut self, alloc: Global, words: &[&str]) -> Option<Answer> {
        if let Some(answer) = changed(&mut self.files, alloc, words) {
            return Some(answer);
        }
        opened(&mut self.files, &self.config, alloc, words)
    }

    /// The answer to a row about batches, or what is made of them.
    fn of_batches(&mut self, alloc: Global, words: &[&str]) -> Option<Answer> {
        if let Some(answer) = added(&mut self.batch, alloc, words) {
            return Some(answer);
        }
        let (tables, records) = (&mut self.tables, &mut self.records);
        if let Some(answer) = replayed(tables, records, &mut self.batch, alloc, words) {
            return Some(answer);
        }
        let (traces, machine) = (&mut self.traces, &mut self.machine);
        traced(traces, machine, &mut self.batch, alloc, words)
    }
}

impl Rows for Floor {
    fn answer(&mut self, alloc: Global, words: &[&str]) -> Option<Answer> {
        if let ["new"] = *words {
            *self = Floor::new(alloc);
            return Some(Answer::Word("Ok(())"));
        }
        if let Some(answer) = self.of_files(alloc, words) {
            return Some(answer);
        }
        if let Some(answer) = self.of_batches(alloc, words) {
            return Some(answer);
        }
        set(&mut self.config, alloc, words)
    }
}
