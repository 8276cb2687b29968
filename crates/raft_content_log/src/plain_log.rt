//! A log that keeps its content in memory.
ghost use Rattle.std.specs.Prelude.{◌≡◌, ◌-◌, false, IfOk, OnOk, map, length, take};
ghost use Rattle.raft_content_log.specs.Plain.{LiesInBlocks, bytes_in, seen_in};
ghost use Rattle.std.proofs.Props.{props};
ghost use Rattle.raft_log_memtables.specs.Content.{nothing};
ghost use Rattle.raft_log_records.specs.Batch.{payloads};
ghost use Rattle.raft_log_records.specs.Block.{bytes_at};
ghost use Rattle.raft_log_records.specs.Spelling.{block_of};
ghost use Rattle.raft_content_log.specs.declared.plain_log.PlainFault.TheVariants.{Memory};

use crate::clean::CleanLog;
use crate::content_log::ContentLog;
use raft_log_memtables::{FetchError, MemTables};
use raft_log_records::{EntryIndex, FileBlockHandle, FileId, LogBatch, LogItemBatch, LogQueue};
use std::alloc::{AllocError, AllocFailed, Global};
use thiserror::Error;

/// Why a log in memory fails (own).
#[derive(Clone, Copy, Debug, PartialEq, Eq, Error)]
pub enum PlainFault {
    #[error("out of memory")]
    Memory,
    /// A batch's entries begin past the end of their group's list, or before it.
    #[error("the entries don't fit the group's list")]
    NotTaken,
    /// One of the entries of a range isn't there.
    #[error("there is no such entry")]
    NotThere,
    /// Memory ran out in a write before, which lost what the log had.
    #[error("the log was lost for want of memory")]
    Lost,
}

impl From<AllocError> for PlainFault {
    ghost from_gives = { λ _ e. e ≡ Memory };

    fn from(_e: AllocError) -> PlainFault {
        PlainFault::Memory
    }
}

impl<T: Drop> From<AllocFailed<T>> for PlainFault {
    ghost from_gives = { λ _ e. e ≡ Memory };

    fn from(_e: AllocFailed<T>) -> PlainFault {
        PlainFault::Memory
    }
}

/// A log in memory (own): where entries lie, and the block of each batch's entries. A crash keeps
/// what it has. Where memory runs out inside a write, the log is lost: it answers nothing more, and
/// leaves nothing. Blocks are never let go.
#[derive(Drop)]
pub struct PlainLog {
    alloc: Global,
    tables: MemTables,
    blocks: Vec<Vec<u8>>,
    is_lost: bool,
    ghost lies: { LiesInBlocks blocks.items tables is_lost } by { Prim.hlevel props },
}

// The bytes of a block that stands behind eight bytes, without its checksum.
fn bytes_of_block(encoded: &[u8], len: u64) -> &[u8]
    ensures { let sealed = bytes_at 8 len encoded.now in result.now ≡ take (length sealed - 4) sealed }
{
    if encoded.len() < 8 {
        return &encoded[..0];
    }
    let rest = &encoded[8..];
    let sealed = &rest[..rest.len().min(len as usize)];
    &sealed[..sealed.len().saturating_sub(4)]
}

// A copy of the bytes of the batch's entries, one after the other.
fn block_of(alloc: Global, batch: &mut LogBatch) -> Result<Vec<u8>, AllocError>
    ensures block { IfOk result (λ v. v.items ≡ block_of batch.old.items) }
    ensures kept { batch.new.items ≡ batch.old.items }
{
    let Ok(_) = batch.finish_populate() else {
        return Err(AllocError);
    };
    match batch.entries_block() {
        Some(block) => Vec::from_slice(alloc, bytes_of_block(batch.encoded_bytes(), block.len)),
        None => Ok(Vec::new(alloc)),
    }
}

// A copy of an entry's bytes.
fn copy_of(alloc: Global, blocks: &[Vec<u8>], place: EntryIndex) -> Result<Vec<u8>, PlainFault>
    ensures { IfOk result (λ v. v.items ≡ bytes_in blocks.now place) }
{
    let Some(handle) = place.entries else {
        return Err(PlainFault::NotThere);
    };
    let Some(block) = blocks.get(handle.id.seq as usize) else {
        return Err(PlainFault::NotThere);
    };
    let start = place.entry_offset as usize;
    if block.len() < start {
        return Err(PlainFault::NotThere);
    }
    let rest = &block[start..];
    Ok(Vec::from_slice(alloc, &rest[..rest.len().min(place.entry_len as usize)])?)
}

// Copies of entries' bytes.
fn copies_of(
    alloc: Global,
    blocks: &[Vec<u8>],
    places: &[EntryIndex],
) -> Result<Vec<Vec<u8>>, PlainFault>
    ensures { IfOk result (λ found. payloads found.items ≡ map (bytes_in blocks.now) places.now) }
{
    let mut copies = Vec::new(alloc);
    for place in places {
        copies.push(copy_of(alloc, blocks, *place)?)?;
    }
    Ok(copies)
}

fn fault_of(error: FetchError) -> PlainFault {
    match error {
        FetchError::Memory => PlainFault::Memory,
        FetchError::EntryCompacted | FetchError::EntryNotFound => PlainFault::NotThere,
    }
}

impl PlainLog {
    /// Nothing. Takes no memory (own).
    pub fn new(alloc: Global) -> PlainLog
        ensures kept { result.is_lost ≡ false }
        ensures content { seen_in result.blocks.items result.tables ≡ nothing }
    {
        PlainLog {
            alloc,
            tables: MemTables::new(alloc),
            blocks: Vec::new(alloc),
            is_lost: false,
        }
    }
}

impl ContentLog for PlainLog {
    type Fault = PlainFault;

    ghost use Rattle.std.specs.Prelude.{◌≡◌, false};
    ghost use Rattle.raft_content_log.specs.Plain.{seen_in};

    ghost is_sound = { λ p. p.is_lost ≡ false };

    ghost answers = { λ p. seen_in p.blocks.items p.tables };

    ghost leaves = { λ p left. (p.is_lost ≡ false) × (left ≡ seen_in p.blocks.items p.tables) };

    ghost meets = { λ old new met. Unit {0} };

    // It is for simulations: why it refuses isn't promised.
    ghost is_misuse = { λ fault. ⊥ };

    ghost meets_none = { λ x. tt };

    ghost meets_later = { λ x y z met before after. tt };

    fn write(&mut self, batch: &mut LogBatch) -> Result<(), PlainFault> {
        if self.is_lost {
            return Err(PlainFault::Lost);
        }
        let block = block_of(self.alloc, batch)?;
        let items = batch.drain();
        if !self.tables.takes(&items.items) {
            return Err(PlainFault::NotTaken);
        }
        let seq = self.blocks.len() as u64;
        let id = FileId::new(LogQueue::Append, seq);
        let len = block.len() as u64;
        self.blocks.push(block)?;
        let handle = FileBlockHandle { id, offset: 0, len };
        let Ok(()) = self.tables.apply(items, handle) else {
            self.is_lost = true;
            return Err(PlainFault::Memory);
        };
        Ok(())
    }

    fn get(&mut self, group: u64, key: &[u8]) -> Result<Option<Vec<u8>>, PlainFault> {
        if self.is_lost {
            return Err(PlainFault::Lost);
        }
        match self.tables.get(group, key) {
            Some(value) => Ok(Some(Vec::from_slice(self.alloc, value)?)),
            None => Ok(None),
        }
    }

    fn fetch_entries_to(
        &mut self,
        group: u64,
        begin: u64,
        end: u64,
    ) -> Result<Vec<Vec<u8>>, PlainFault> {
        if self.is_lost {
            return Err(PlainFault::Lost);
        }
        let places = match self.tables.fetch_entries_to(group, begin, end, None) {
            Ok(places) => places,
            Err(error) => return Err(fault_of(error)),
        };
        if places.len() as u64 != end.saturating_sub(begin) {
            return Err(PlainFault::NotThere);
        }
        copies_of(self.alloc, &self.blocks, &places)
    }

    #[tactic(auto, unfolding(raft_log_memtables::specs::MemTables::content_in))]
    fn groups(&mut self) -> Result<Vec<u64>, PlainFault> {
        if self.is_lost {
            return Err(PlainFault::Lost);
        }
        Ok(self.tables.groups()?)
    }

    fn is_there(&mut self, group: u64) -> Result<bool, PlainFault> {
        if self.is_lost {
            return Err(PlainFault::Lost);
        }
        Ok(self.tables.has_group(group))
    }
}

impl CleanLog for PlainLog {
    /// It has no files, and keeps all.
    fn clean(&mut self) -> Result<Vec<u64>, PlainFault> {
        if self.is_lost {
            return Err(PlainFault::Lost);
        }
        Ok(Vec::new(self.alloc))
    }
}
