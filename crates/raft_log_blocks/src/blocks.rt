//! Entries and their blocks.

ghost use Rattle.std.specs.Prelude.{◌≡◌, IfErr, IfOk};
ghost use Rattle.raft_log_blocks.specs.Blocks.{IsReadAs, StandsWhole};
ghost use Rattle.raft_log_blocks.specs.Unread.{IsUnread};
ghost use Rattle.raft_log_files.specs.declared.error.Error.TheVariants.{Memory};
ghost use Rattle.raft_log_pipes.specs.Pipes.{ArePipes};
ghost use Rattle.raft_log_records.specs.Item.{entry_bytes};

use raft_log_files::{CorruptionFault, Error, FileSystem};
use raft_log_pipes::DualPipes;
use raft_log_records::{EntryIndex, FileBlockHandle, read_entries_block};
use std::alloc::Global;

/// The bytes of an entry in those of its block.
fn bytes_of(entries: &[u8], place: EntryIndex) -> &[u8]
    ensures { result.now ≡ entry_bytes entries.now place }
{
    let rest = &entries[entries.len().min(place.entry_offset as usize)..];
    &rest[..rest.len().min(place.entry_len as usize)]
}

/// Reads the entries of a block, without its checksum, which is checked (own). It is refused for want
/// of memory, or where the file system refuses reads of the file, and never as `Corruption`: the block
/// stands whole.
pub fn read_block<F: FileSystem>(
    files: &F,
    pipes: &DualPipes,
    handle: FileBlockHandle,
) -> Result<Vec<u8>, Error>
    requires pipes { ArePipes pipes.now (F.disk files.now) }
    requires whole { StandsWhole (F.disk files.now) pipes.now handle }
    ensures read { IfOk result (λ entries. IsReadAs (F.disk files.now) pipes.now handle entries.items) }
    ensures err { IfErr result (λ error. IsUnread (F.disk files.now) pipes.now (F.meter files.now) handle error) }
{
    let mut bytes = pipes.read_bytes(files, handle)?;
    let len = match read_entries_block(&bytes) {
        Ok(entries) => entries.len(),
        Err(fault) => return Err(Error::Corruption(CorruptionFault::Record(fault))),
    };
    bytes.truncate(len);
    Ok(bytes)
}

/// A copy of an entry's bytes in those of its block (own). The only error is want of memory.
pub fn copy_in(alloc: Global, entries: &[u8], place: EntryIndex) -> Result<Vec<u8>, Error>
    ensures copied { IfOk result (λ v. v.items ≡ entry_bytes entries.now place) }
    ensures err { IfErr result (λ error. error ≡ Memory) }
{
    Ok(Vec::from_slice(alloc, bytes_of(entries, place))?)
}
