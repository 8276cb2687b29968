//! One file in memory, with all that its contract speaks of.

ghost use Rattle.std.specs.Prelude.{◌≡◌, ◌≤◌, ◌<◌, ◌^◌, ◌+◌, ◌-◌, ◌++◌, ◌∷◌, [], min, max, length, take, OnOk, OnErr, ℕ, IfOk, is_ok, if◌then◌else◌};
ghost use Rattle.std.specs.String.{string_bytes};
ghost use Rattle.std.proofs.Props.{props};
ghost use Rattle.raft_log_disk.specs.Disk.{no_bytes, put, resized, filled, after_write, after_truncate, after_allocate, after_sync, renamed};
ghost use Rattle.raft_log_disk.specs.Image.{IsRecoverable};
ghost use Rattle.raft_log_disk.specs.Changes.{noted_file};

use std::alloc::{AllocError, Global};
use std::mem;

/// The length of the longest header of a log file, in bytes.
pub const LONGEST_HEADER: usize = 69;

/// A change since the last sync, with what undoes it.
#[derive(Drop)]
pub struct Change {
    /// The range that was changed.
    pub from: usize,
    pub to: usize,
    /// The bytes that stood from its front on, where others stand now or none.
    pub replaced: Vec<u8>,
    /// The file's length before.
    pub len: usize,
}

/// The bytes of a write and their place.
#[derive(Drop)]
pub struct Written {
    pub at: usize,
    pub bytes: Vec<u8>,
}

/// A file. The bytes of its last sync are those of now with the changes undone, so neither a write
/// nor a sync copies the file.
#[derive(Drop)]
pub struct MemoryFile {
    pub path: String,
    pub number: u64,
    pub bytes: Vec<u8>,
    /// Since the last sync or crash.
    pub changes: Vec<Change>,
    /// The least and the greatest length since.
    pub least: usize,
    pub greatest: usize,
    /// The writes since the file got its name, up to the last sync or crash.
    pub earlier: Vec<Written>,
    /// And since.
    pub later: Vec<Written>,
    /// The file's front when a rename gave it its name.
    pub brought: Vec<u8>,
    /// Memory for the next note of replaced bytes; what it holds counts for nothing.
    pub spare: Vec<u8>,
    /// A crash may leave what reads see, and what was synced as far as the least length since.
    ghost recoverable: { IsRecoverable (noted_file bytes.items changes.items least greatest earlier.items later.items brought.items) } by { Prim.hlevel props },
}

/// Writes over what is there, and past the end. The growth comes first.
pub fn overwrite(bytes: &mut Vec<u8>, at: usize, new: &[u8]) -> Result<(), AllocError>
    requires { at ≤ length bytes.old.items }
    ensures { bytes.new.items ≡ (if is_ok result then put bytes.old.items at new.now else bytes.old.items) }
{
    let covered = new.len().min(bytes.len() - at);
    let Ok(()) = bytes.extend_from_slice(&new[covered..]) else {
        return Err(AllocError);
    };
    bytes[at..at + covered].copy_from_slice(&new[..covered]);
    Ok(())
}

// A copy of some bytes in the memory of others.
fn copy_into(mut memory: Vec<u8>, bytes: &[u8]) -> Result<Vec<u8>, AllocError>
    ensures { IfOk result (λ v. v.items ≡ bytes.now) }
{
    memory.clear();
    memory.extend_from_slice(bytes)?;
    Ok(memory)
}

// Notes a change and its write, both or neither.
fn note(
    changes: &mut Vec<Change>,
    writes: &mut Vec<Written>,
    change: Change,
    write: Written,
) -> Result<(), AllocError>
    ensures changes { changes.new.items ≡ (if is_ok result then changes.old.items ++ change ∷ [] else changes.old.items) }
    ensures writes { writes.new.items ≡ (if is_ok result then writes.old.items ++ write ∷ [] else writes.old.items) }
{
    changes.push(change)?;
    if writes.push(write).is_err() {
        let _ = changes.pop();
        return Err(AllocError);
    }
    Ok(())
}

// Takes back the last change and its write.
fn forget(changes: &mut Vec<Change>, writes: &mut Vec<Written>)
    ensures changes { changes.new.items ≡ take (length changes.old.items - 1) changes.old.items }
    ensures writes { writes.new.items ≡ take (length writes.old.items - 1) writes.old.items }
{
    let _ = changes.pop();
    let _ = writes.pop();
}

impl MemoryFile {
    ghost use Rattle.raft_log_disk.specs.Memory.{state_of};

    /// A file of no bytes.
    pub fn new(alloc: Global, path: String, number: u64) -> MemoryFile
        ensures path { result.path ≡ path }
        ensures number { result.number ≡ number }
        ensures state { state_of result ≡ no_bytes }
    {
        MemoryFile {
            path,
            number,
            bytes: Vec::new(alloc),
            changes: Vec::new(alloc),
            least: 0,
            greatest: 0,
            earlier: Vec::new(alloc),
            later: Vec::new(alloc),
            brought: Vec::new(alloc),
            spare: Vec::new(alloc),
        }
    }

    /// Writes over what is there, and past the end.
    pub fn write(&mut self, alloc: Global, at: usize, bytes: &[u8]) -> Result<(), AllocError>
        requires at { at ≤ length self.old.bytes.items }
        requires end { at + length bytes.now < 2 ^ 64 }
        ensures path { self.new.path ≡ self.old.path }
        ensures number { self.new.number ≡ self.old.number }
        ensures ok { OnOk result (state_of self.new ≡ after_write (state_of self.old) at bytes.now (put self.old.bytes.items at bytes.now)) }
        ensures err { OnErr result (state_of self.new ≡ state_of self.old) }
    {
        let len = self.bytes.len();
        let to = at + bytes.len();
        let spare = mem::replace(&mut self.spare, Vec::new(alloc));
        let replaced = copy_into(spare, &self.bytes[at..to.min(len)])?;
        let written = Vec::from_slice(alloc, bytes)?;
        let change = Change {
            from: at,
            to,
            replaced,
            len,
        };
        let write = Written { at, bytes: written };
        let Ok(()) = note(&mut self.changes, &mut self.later, change, write) else {
            return Err(AllocError);
        };
        let Ok(()) = overwrite(&mut self.bytes, at, bytes) else {
            forget(&mut self.changes, &mut self.later);
            return Err(AllocError);
        };
        self.greatest = self.greatest.max(to);
        Ok(())
    }

    /// Notes a refused write, of which a crash may leave any part. Reads see nothing of it.
    pub fn refuse_write(&mut self, alloc: Global, at: usize, bytes: &[u8]) -> Result<(), AllocError>
        requires at { at ≤ length self.old.bytes.items }
        requires end { at + length bytes.now < 2 ^ 64 }
        ensures path { self.new.path ≡ self.old.path }
        ensures number { self.new.number ≡ self.old.number }
        ensures ok { OnOk result (state_of self.new ≡ after_write (state_of self.old) at bytes.now self.old.bytes.items) }
        ensures err { OnErr result (state_of self.new ≡ state_of self.old) }
    {
        let len = self.bytes.len();
        let to = at + bytes.len();
        let replaced = Vec::new(alloc);
        let written = Vec::from_slice(alloc, bytes)?;
        let change = Change {
            from: at,
            to,
            replaced,
            len,
        };
        let write = Written { at, bytes: written };
        let Ok(()) = note(&mut self.changes, &mut self.later, change, write) else {
            return Err(AllocError);
        };
        self.greatest = self.greatest.max(to);
        Ok(())
    }

    /// Cuts the file to a length, or fills it up to it with zeros.
    pub fn truncate(&mut self, alloc: Global, len: usize) -> Result<(), AllocError>
        ensures path { self.new.path ≡ self.old.path }
        ensures number { self.new.number ≡ self.old.number }
        ensures ok { OnOk result (state_of self.new ≡ after_truncate (state_of self.old) len (resized self.old.bytes.items len)) }
        ensures err { OnErr result (state_of self.new ≡ state_of self.old) }
    {
        let old = self.bytes.len();
        let from = len.min(old);
        let replaced = Vec::from_slice(alloc, &self.bytes[from..])?;
        self.changes.push(Change {
            from,
            to: len.max(old),
            replaced,
            len: old,
        })?;
        let Ok(()) = self.bytes.resize(len, 0) else {
            let _ = self.changes.pop();
            return Err(AllocError);
        };
        self.least = self.least.min(len);
        self.greatest = self.greatest.max(len);
        Ok(())
    }

    /// Notes a refused `truncate`.
    pub fn refuse_truncate(&mut self, alloc: Global, len: usize) -> Result<(), AllocError>
        ensures path { self.new.path ≡ self.old.path }
        ensures number { self.new.number ≡ self.old.number }
        ensures ok { OnOk result (state_of self.new ≡ after_truncate (state_of self.old) len self.old.bytes.items) }
        ensures err { OnErr result (state_of self.new ≡ state_of self.old) }
    {
        let old = self.bytes.len();
        let replaced = Vec::new(alloc);
        self.changes.push(Change {
            from: len.min(old),
            to: len.max(old),
            replaced,
            len: old,
        })?;
        self.least = self.least.min(len);
        self.greatest = self.greatest.max(len);
        Ok(())
    }

    /// Makes room: where the file ends before, zeros stand there.
    pub fn allocate(&mut self, alloc: Global, at: usize, len: usize) -> Result<(), AllocError>
        requires at { at ≤ length self.old.bytes.items }
        requires end { at + len < 2 ^ 64 }
        ensures path { self.new.path ≡ self.old.path }
        ensures number { self.new.number ≡ self.old.number }
        ensures ok { OnOk result (state_of self.new ≡ after_allocate (state_of self.old) at len (filled self.old.bytes.items (at + len))) }
        ensures err { OnErr result (state_of self.new ≡ state_of self.old) }
    {
        let to = at + len;
        let old = self.bytes.len();
        let replaced = Vec::new(alloc);
        self.changes.push(Change {
            from: at,
            to,
            replaced,
            len: old,
        })?;
        let Ok(()) = self.bytes.resize(to.max(old), 0) else {
            let _ = self.changes.pop();
            return Err(AllocError);
        };
        self.greatest = self.greatest.max(to);
        Ok(())
    }

    /// Notes a refused `allocate`.
    pub fn refuse_allocate(
        &mut self,
        alloc: Global,
        at: usize,
        len: usize,
    ) -> Result<(), AllocError>
        requires { at + len < 2 ^ 64 }
        ensures path { self.new.path ≡ self.old.path }
        ensures number { self.new.number ≡ self.old.number }
        ensures ok { OnOk result (state_of self.new ≡ after_allocate (state_of self.old) at len self.old.bytes.items) }
        ensures err { OnErr result (state_of self.new ≡ state_of self.old) }
    {
        let to = at + len;
        let old = self.bytes.len();
        let replaced = Vec::new(alloc);
        self.changes.push(Change {
            from: at,
            to,
            replaced,
            len: old,
        })?;
        self.greatest = self.greatest.max(to);
        Ok(())
    }

    /// From now on a crash leaves what a read gives.
    pub fn sync(&mut self) -> Result<(), AllocError>
        ensures path { self.new.path ≡ self.old.path }
        ensures number { self.new.number ≡ self.old.number }
        ensures ok { OnOk result (state_of self.new ≡ after_sync (state_of self.old)) }
        ensures err { OnErr result (state_of self.new ≡ state_of self.old) }
    {
        self.earlier.append(&mut self.later)?;
        if let Some(change) = self.changes.pop() {
            self.spare = change.replaced;
        }
        self.changes.clear();
        self.least = self.bytes.len();
        self.greatest = self.bytes.len();
        Ok(())
    }

    /// The file's front, as long as the longest header.
    pub fn front(&self, alloc: Global) -> Result<Vec<u8>, AllocError>
        ensures { IfOk result (λ v. v.items ≡ take 69 self.now.bytes.items) }
    {
        let len = self.bytes.len().min(LONGEST_HEADER);
        let front = Vec::from_slice(alloc, &self.bytes[..len])?;
        Ok(front)
    }

    /// Gives the file another path: what was written under the old one counts no more, and what
    /// stands at its front was brought.
    pub fn rename(&mut self, path: String, front: Vec<u8>)
        requires { front.items ≡ take 69 self.old.bytes.items }
        ensures path { self.new.path ≡ path }
        ensures number { self.new.number ≡ self.old.number }
        ensures state { state_of self.new ≡ renamed (state_of self.old) }
    {
        self.brought = front;
        self.earlier.clear();
        self.later.clear();
        self.path = path;
    }
}
