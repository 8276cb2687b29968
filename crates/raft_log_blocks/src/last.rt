//! Entries that are read one after the other.

ghost use Rattle.std.specs.Prelude.{◌≡◌, IfErr, IfOk, IsTrue, OnOk, Some};
ghost use Rattle.raft_log_blocks.specs.Blocks.{HasBlock, IsReadAs, StandsWhole};
ghost use Rattle.raft_log_blocks.specs.Last.{IsLastOf};
ghost use Rattle.raft_log_blocks.specs.Placed.{bytes_on};
ghost use Rattle.raft_log_blocks.specs.Unread.{IsEntryUnread, IsUnread};
ghost use Rattle.raft_log_disk.specs.Disk.{Disk};
ghost use Rattle.raft_log_pipes.specs.declared.pipes.DualPipes.{DualPipes};
ghost use Rattle.raft_log_pipes.specs.Pipes.{ArePipes};

use crate::blocks::{copy_in, read_block};
use raft_log_files::{Error, FileSystem};
use raft_log_pipes::DualPipes;
use raft_log_records::{EntryIndex, FileBlockHandle};
use std::alloc::Global;

/// The block that was read last (own): entries that follow one another mostly lie in one, which is
/// read and checked once.
#[derive(Drop)]
pub struct LastBlock {
    /// Where it stands, once one was read.
    pub handle: Option<FileBlockHandle>,
    /// Its entries, without their checksum.
    pub entries: Vec<u8>,
}

impl LastBlock {
    /// None was read yet.
    pub fn new(alloc: Global) -> LastBlock
        ensures { (d : Disk) (p : DualPipes) → IsLastOf d p result }
    {
        LastBlock {
            handle: None,
            entries: Vec::new(alloc),
        }
    }

    // Whether it is this block.
    fn is_at(&self, handle: FileBlockHandle) -> bool
        ensures { IsTrue result → self.now.handle ≡ Some handle }
    {
        match self.handle {
            Some(last) => last == handle,
            None => false,
        }
    }

    // The block is the last one then, and is read unless it was.
    fn come_to<F: FileSystem>(
        &mut self,
        files: &F,
        pipes: &DualPipes,
        handle: FileBlockHandle,
    ) -> Result<(), Error>
        requires pipes { ArePipes pipes.now (F.disk files.now) }
        requires whole { StandsWhole (F.disk files.now) pipes.now handle }
        requires last { IsLastOf (F.disk files.now) pipes.now self.old }
        ensures last { IsLastOf (F.disk files.now) pipes.now self.new }
        ensures read { OnOk result (IsReadAs (F.disk files.now) pipes.now handle self.new.entries.items) }
        ensures err { IfErr result (λ error. IsUnread (F.disk files.now) pipes.now (F.meter files.now) handle error) }
    {
        if self.is_at(handle) {
            return Ok(());
        }
        self.entries = read_block(files, pipes, handle)?;
        self.handle = Some(handle);
        Ok(())
    }

    /// A copy of an entry's bytes, from its block in its file (own): as a cleaning takes them. It is
    /// refused for want of memory, or where the file system refuses reads of the file.
    pub fn read_entry<F: FileSystem>(
        &mut self,
        alloc: Global,
        files: &F,
        pipes: &DualPipes,
        place: EntryIndex,
    ) -> Result<Vec<u8>, Error>
        requires pipes { ArePipes pipes.now (F.disk files.now) }
        requires block { HasBlock (F.disk files.now) pipes.now place }
        requires last { IsLastOf (F.disk files.now) pipes.now self.old }
        ensures last { IsLastOf (F.disk files.now) pipes.now self.new }
        ensures copied { IfOk result (λ v. v.items ≡ bytes_on (F.disk files.now) pipes.now place) }
        ensures err { IfErr result (λ error. IsEntryUnread (F.disk files.now) pipes.now (F.meter files.now) place error) }
    {
        let Some(handle) = place.entries else {
            return Err(Error::EntryNotFound);
        };
        self.come_to(files, pipes, handle)?;
        copy_in(alloc, &self.entries, place)
    }
}
