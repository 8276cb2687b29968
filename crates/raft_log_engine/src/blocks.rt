//! Entries and their blocks.
ghost use Rattle.std.specs.Prelude.{◌≡◌, ◌⊎◌, ◌+◌, ◌≤◌, Contains, IfErr, IfOk, length, map};
ghost use Rattle.raft_log_blocks.specs.Blocks.{HasBlock, IsReadAs, StandsWhole};
ghost use Rattle.raft_log_engine.specs.Cached.{AreRead, KeepsMore};
ghost use Rattle.raft_log_engine.specs.Caused.{IsCopyFault, IsUnread, fetch_fault};
ghost use Rattle.raft_log_blocks.specs.Placed.{bytes_on};
ghost use Rattle.raft_log_engine.specs.declared.fault.EngineFault.TheVariants.{Log};
ghost use Rattle.raft_log_files.specs.declared.error.CorruptionFault.TheVariants.{Record};
ghost use Rattle.raft_log_files.specs.declared.error.Error.TheVariants.{Corruption, Memory};
ghost use Rattle.raft_log_pipes.specs.Pipes.{ArePipes};
ghost use Rattle.raft_log_records.specs.Batch.{payloads};
ghost use Rattle.raft_log_records.specs.Item.{entry_bytes};
ghost use Rattle.raft_log_records.specs.declared.error.RecordError.TheVariants as record_error;
ghost use Rattle.raft_log_records.specs.declared.item.EntryIndex.{EntryIndex};

use crate::block_cache::BlockCache;
use crate::fault::EngineFault;
use raft_log_files::{CorruptionFault, Error, FileSystem};
use raft_log_memtables::FetchError;
use raft_log_pipes::DualPipes;
use raft_log_records::{EntryIndex, FileBlockHandle, RecordError, RecordFault};
use std::alloc::Global;

/// A fault in the bytes of a block or a record.
fn corrupt(fault: RecordFault) -> EngineFault
    ensures { result ≡ Log (Corruption (Record fault)) }
{
    EngineFault::Log(Error::Corruption(CorruptionFault::Record(fault)))
}

/// A refusal of a batch or of its record.
pub(crate) fn of_record(error: RecordError) -> EngineFault
    ensures memory { error ≡ record_error.Memory → result ≡ Log Memory }
{
    match error {
        RecordError::Memory | RecordError::TooLong => EngineFault::Log(Error::Memory),
        RecordError::Corruption(fault) => corrupt(fault),
    }
}

/// Reads the entries of a block, without its checksum, which is checked. It is never refused as
/// `Corruption`: the block stands whole.
fn read_block<F: FileSystem>(
    files: &F,
    pipes: &DualPipes,
    handle: FileBlockHandle,
) -> Result<Vec<u8>, EngineFault>
    requires pipes { ArePipes pipes.now (F.disk files.now) }
    requires whole { StandsWhole (F.disk files.now) pipes.now handle }
    ensures read { IfOk result (λ entries. IsReadAs (F.disk files.now) pipes.now handle entries.items) }
    ensures err { IfErr result (λ fault. IsUnread (F.disk files.now) pipes.now (F.meter files.now) handle fault) }
{
    let entries = raft_log_blocks::read_block(files, pipes, handle)?;
    Ok(entries)
}

/// A copy of an entry's bytes in those of its block.
fn copy_in(alloc: Global, entries: &[u8], place: EntryIndex) -> Result<Vec<u8>, EngineFault>
    ensures copied { IfOk result (λ v. v.items ≡ entry_bytes entries.now place) }
    ensures err { IfErr result (λ fault. fault ≡ Log Memory) }
{
    let copy = raft_log_blocks::copy_in(alloc, entries, place)?;
    Ok(copy)
}

/// A copy of an entry's bytes, from its block: one that is kept, or one that is read from its file
/// and kept then.
#[tactic(auto, using(raft_log_blocks::proofs::EntryReads::entry_read))]
pub(crate) fn copy_of<F: FileSystem>(
    alloc: Global,
    files: &F,
    pipes: &DualPipes,
    cache: &mut BlockCache,
    place: EntryIndex,
) -> Result<Vec<u8>, EngineFault>
    requires pipes { ArePipes pipes.now (F.disk files.now) }
    requires read { AreRead (F.disk files.now) pipes.now cache.old }
    requires block { HasBlock (F.disk files.now) pipes.now place }
    ensures copied { IfOk result (λ v. v.items ≡ bytes_on (F.disk files.now) pipes.now place) }
    ensures err { IfErr result (λ fault. IsCopyFault (F.disk files.now) pipes.now (F.meter files.now) place fault) }
    ensures kept { KeepsMore (F.disk files.now) pipes.now (λ e. e ≡ place) cache.old cache.new }
    ensures reads { cache.new.reads ≤ cache.old.reads + 1 }
{
    let Some(handle) = place.entries else {
        return Err(EngineFault::Log(Error::EntryNotFound));
    };
    cache.promote(handle);
    if let Some(entries) = cache.find(handle) {
        return copy_in(alloc, entries, place);
    }
    cache.count();
    let entries = read_block(files, pipes, handle)?;
    let copy = copy_in(alloc, &entries, place);
    cache.keep(handle, entries);
    copy
}

/// Copies of entries' bytes.
pub(crate) fn copies_of<F: FileSystem>(
    alloc: Global,
    files: &F,
    pipes: &DualPipes,
    cache: &mut BlockCache,
    places: &[EntryIndex],
) -> Result<Vec<Vec<u8>>, EngineFault>
    requires pipes { ArePipes pipes.now (F.disk files.now) }
    requires read { AreRead (F.disk files.now) pipes.now cache.old }
    requires blocks { (place : EntryIndex) → Contains places.now place → HasBlock (F.disk files.now) pipes.now place }
    ensures copied { IfOk result (λ found. payloads found.items ≡ map (bytes_on (F.disk files.now) pipes.now) places.now) }
    ensures err { IfErr result (λ fault. (fault ≡ Log Memory) ⊎ ((place : EntryIndex) × Contains places.now place × IsCopyFault (F.disk files.now) pipes.now (F.meter files.now) place fault)) }
    ensures kept { KeepsMore (F.disk files.now) pipes.now (Contains places.now) cache.old cache.new }
    ensures reads { cache.new.reads ≤ cache.old.reads + length places.now }
{
    let mut copies = Vec::new(alloc);
    for place in places {
        copies.push(copy_of(alloc, files, pipes, cache, *place)?)?;
    }
    Ok(copies)
}

/// Why entries aren't fetched.
pub(crate) fn fault_of(error: FetchError) -> EngineFault
    ensures { result ≡ fetch_fault error }
{
    match error {
        FetchError::Memory => EngineFault::Log(Error::Memory),
        FetchError::EntryCompacted => EngineFault::Log(Error::EntryCompacted),
        FetchError::EntryNotFound => EngineFault::Log(Error::EntryNotFound),
    }
}
