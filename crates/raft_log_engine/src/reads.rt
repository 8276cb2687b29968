//! Reads of groups, and of what an engine is over.
ghost use Rattle.std.specs.Prelude.{◌≡◌, ◌≤◌, ◌+◌, ◌-◌, ◌^◌, ◌↔◌, ℕ, List, true, false, Err, IfErr, IfOk, IsTrue, OnOk, min, option_map};
ghost use Rattle.std.specs.Option.{option_map_or};
ghost use Rattle.std.specs.List.Sorted.{IsStrictlySortedBy};
ghost use Rattle.std.specs.Ordering.{nat_cmp, eq_by_cmp};
ghost use Rattle.std.specs.Set.{is_member};
ghost use Rattle.raft_log_engine.specs.Caused.{IsGetFault};
ghost use Rattle.raft_log_engine.specs.Left.{answers_on};
ghost use Rattle.raft_log_engine.specs.Log.{AreFused};
ghost use Rattle.raft_log_engine.specs.Reads.{IsMessageFault, IsRead, IsStopped, IsTableFault, used_by};
ghost use Rattle.raft_log_engine.specs.Reopened.{OpensInTail, StandsAlone, directories_of_engine};
ghost use Rattle.raft_log_engine.specs.Since.{HasWritten};
ghost use Rattle.raft_log_engine.specs.declared.fault.EngineFault.TheVariants.{Stopped};
ghost use Rattle.raft_log_file.specs.Laws.{Batch};
ghost use Rattle.raft_log_memtables.specs.Content.{Content, no_group};
ghost use Rattle.raft_log_memtables.specs.Entries.{IsFirst, IsLast};
ghost use Rattle.raft_log_memtables.specs.MemTables.{content_in};
ghost use Rattle.raft_log_pipe.specs.Pipe.{first_of};
ghost use Rattle.raft_log_pipes.specs.Pipes.{pipe_of};
ghost use Rattle.raft_log_records.specs.declared.file_id.LogQueue.TheVariants.{Append, Rewrite};

use crate::blocks::copy_of;
use crate::engine::Engine;
use crate::fault::EngineFault;
use raft_log_files::{CrashFiles, FileSystem};
use raft_log_records::{FileSeq, LogQueue, Message};

impl<F: FileSystem + Drop> Engine<F> {
    /// A copy of the bytes of a group's entry with this index, if it is there (raft-engine's
    /// `get_entry`).
    pub fn get_entry(&mut self, group: u64, index: u64) -> Result<Option<Vec<u8>>, EngineFault>
        ensures found { IfOk result (λ found. option_map (λ v. v.items) found ≡ (answers_on F.disk self.old group).entry index) }
        ensures stopped { self.old.is_stopped ≡ true → result ≡ Err Stopped }
        ensures same { self.new ≡ record self.old { block_reads = self.new.block_reads } }
        ensures reads { IfOk result (λ found. self.new.block_reads ≤ self.old.block_reads + option_map_or (λ _. 1) found 0) }
        ensures err { IfErr result (λ fault. IsGetFault F.disk F.meter self.old (content_in self.old.tables group) index fault) }
    {
        if self.is_stopped {
            return Err(EngineFault::Stopped);
        }
        match self.traced.tables.get_entry(group, index) {
            Some(place) => Ok(Some(copy_of(
                self.alloc,
                &self.files,
                &self.pipes,
                &mut self.blocks,
                place,
            )?)),
            None => Ok(None),
        }
    }

    /// The message that the value of a key is, if the key is there (raft-engine's `get_message`).
    /// `NotAMessage`: its value is none.
    pub fn get_message<S: Message>(&self, group: u64, key: &[u8]) -> Result<Option<S>, EngineFault>
        ensures found { IfOk result (λ found. IsRead S.fits S.bytes ((answers_on F.disk self.now group).value key.now) found) }
        ensures stopped { self.now.is_stopped ≡ true → result ≡ Err Stopped }
        ensures err { IfErr result (λ e. IsMessageFault S.fits S.bytes ((answers_on F.disk self.now group).value key.now) self.now.is_stopped e) }
    {
        if self.is_stopped {
            return Err(EngineFault::Stopped);
        }
        let Some(value) = self.traced.tables.get(group, key) else {
            return Ok(None);
        };
        match S::parse(self.alloc, value)? {
            Some(message) => Ok(Some(message)),
            None => Err(EngineFault::NotAMessage),
        }
    }

    /// The index of a group's first entry, if it has one (raft-engine's `first_index`).
    pub fn first_index(&self, group: u64) -> Result<Option<u64>, EngineFault>
        ensures found { IfOk result (λ first. IsFirst (answers_on F.disk self.now group).entry first) }
        ensures stopped { self.now.is_stopped ≡ true → result ≡ Err Stopped }
        ensures err { IfErr result (λ e. IsStopped self.now.is_stopped e) }
    {
        if self.is_stopped {
            return Err(EngineFault::Stopped);
        }
        Ok(self.traced.tables.first_index(group))
    }

    /// The index of a group's last entry, if it has one (raft-engine's `last_index`).
    pub fn last_index(&self, group: u64) -> Result<Option<u64>, EngineFault>
        ensures found { IfOk result (λ last. IsLast (answers_on F.disk self.now group).entry last) }
        ensures stopped { self.now.is_stopped ≡ true → result ≡ Err Stopped }
        ensures err { IfErr result (λ e. IsStopped self.now.is_stopped e) }
    {
        if self.is_stopped {
            return Err(EngineFault::Stopped);
        }
        Ok(self.traced.tables.last_index(group))
    }

    /// The ids of the groups that are there, rising, and of no others (raft-engine's `raft_groups`,
    /// in any order).
    #[tactic(auto, unfolding(raft_log_memtables::specs::MemTables::content_in))]
    pub fn raft_groups(&self) -> Result<Vec<u64>, EngineFault>
        ensures rising { IfOk result (λ ids. IsStrictlySortedBy nat_cmp ids.items) }
        ensures there { IfOk result (λ ids. (group : ℕ) → (answers_on F.disk self.now group).there ≡ is_member (eq_by_cmp nat_cmp) ids.items group) }
        ensures none { OnOk result ((group : ℕ) → (answers_on F.disk self.now group).there ≡ false → answers_on F.disk self.now group ≡ no_group) }
        ensures stopped { self.now.is_stopped ≡ true → result ≡ Err Stopped }
        ensures err { IfErr result (λ e. IsTableFault self.now.is_stopped e) }
    {
        if self.is_stopped {
            return Err(EngineFault::Stopped);
        }
        Ok(self.traced.tables.groups()?)
    }

    /// Whether no group is there (raft-engine's `is_empty`).
    pub fn is_empty(&self) -> Result<bool, EngineFault>
        ensures empty { IfOk result (λ empty. IsTrue empty ↔ ((group : _) → answers_on F.disk self.now group ≡ no_group)) }
        ensures stopped { self.now.is_stopped ≡ true → result ≡ Err Stopped }
        ensures err { IfErr result (λ e. IsStopped self.now.is_stopped e) }
    {
        if self.is_stopped {
            return Err(EngineFault::Stopped);
        }
        Ok(self.traced.tables.is_empty())
    }
}

impl<F: FileSystem + Drop> Engine<F> {
    /// The numbers of the first file and of the last of a queue (raft-engine's `file_span`).
    pub fn file_span(&self, queue: LogQueue) -> (FileSeq, FileSeq)
        ensures first { result.0 ≡ first_of (pipe_of self.now.pipes queue) }
        ensures last { result.1 ≡ (pipe_of self.now.pipes queue).active.seq }
    {
        self.pipes.file_span(queue)
    }

    /// The bytes of all files of both queues, each taken as long as the target size (raft-engine's
    /// `get_used_size`).
    pub fn get_used_size(&self) -> u64
        ensures { result ≡ min (used_by self.now.pipes Append + used_by self.now.pipes Rewrite) (2 ^ 64 - 1) }
    {
        let appends = self.pipes.total_size(LogQueue::Append);
        appends.saturating_add(self.pipes.total_size(LogQueue::Rewrite))
    }

    /// The bytes of all files of a queue, each taken as long as the target size (own: raft-engine's
    /// `get_used_size` for one queue).
    pub fn total_size(&self, queue: LogQueue) -> u64
        ensures { result ≡ used_by self.now.pipes queue }
    {
        self.pipes.total_size(queue)
    }

    /// How many blocks were read from files for entries, since the engine was opened (own). The count
    /// stays at 2^64 - 1.
    pub fn block_reads(&self) -> u64
        ensures { result ≡ self.now.block_reads }
    {
        self.blocks.reads()
    }

    /// The files, lent for reading (own).
    pub fn files(&self) -> &F
        ensures { result.now ≡ self.now.files }
    {
        &self.files
    }

    /// The files, handed back with no call on them (own), as where a machine stops.
    pub fn abandon(self) -> F
        ensures files { result ≡ self.files }
        ensures opens_in_tail { self.is_stopped ≡ false → StandsAlone F.disk self → OpensInTail (directories_of_engine self) (F.disk result) self.pipes }
        ensures tail_still { (before : Content (List ℕ)) (batches : List Batch) → StandsAlone F.disk self → HasWritten F.disk self before batches
            → OpensInTail (directories_of_engine self) (F.disk result) self.pipes }
    {
        self.files
    }
}

impl<F: CrashFiles + Drop> Engine<F> {
    /// Lets the files refuse from that changing call on, the first one counted as 1; with none they
    /// refuse no call (own). It changes nothing else.
    pub fn set_fuse(&mut self, first_refused: Option<u64>)
        ensures fused { AreFused F.FileSystem.disk F.FileSystem.meter self.old.files first_refused self.new.files }
        ensures same { self.new ≡ record self.old { files = self.new.files } }
    {
        self.files.fuse(first_refused);
    }
}
