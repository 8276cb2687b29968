//! The writer of one log file.

ghost use Rattle.std.specs.Prelude.{◌≡◌, ◌⊎◌, ◌+◌, ◌-◌, ◌<◌, ◌≤◌, ◌^◌, ◌++◌, min, max, ℕ, List, [], length, take, IfOk, OnOk, OnErr, IsErrOf, IsTrue};
ghost use Rattle.raft_log_disk.specs.declared.fault.IoFault.TheVariants.{NotFound, NoSpace, Refused};
ghost use Rattle.raft_log_disk.specs.Disk.{Disk, IsNoFile, with_file, after_sync};
ghost use Rattle.raft_log_disk.specs.Cause.{IsTaken, Lacks, NothingRefuses, RefusesNoMore, Spends, UnlessRefused, lacked};
ghost use Rattle.raft_log_disk.specs.Format.{IsSpellable, header_len, spelled_header};
ghost use Rattle.raft_log_file.specs.Writer.{IsWriter, IsReady, IsAppended, IsCut, IsOpened, IsClosed, IsCounted};

use raft_log_files::{Fd, FileSystem, IoFault, LogFileFormat};
use std::alloc::Global;

/// Room is made in pieces of so many bytes at most: 2 MiB.
pub const FILE_ALLOCATE_SIZE: u64 = 2_097_152;

/// Writes one log file from its end on (raft-engine's `LogFileWriter`). Its file is named by a
/// number, and the file system is passed to each call.
#[derive(Drop)]
pub struct LogFileWriter {
    pub(crate) fd: Fd,
    /// The bytes that were written.
    pub(crate) offset: u64,
    /// The file has so many bytes at least.
    pub(crate) reached: u64,
    /// Up to where room was made. A refused allocation counts as made.
    pub(crate) capacity: u64,
}

/// How much room is made behind `capacity` for a write up to `end`: what it lacks, or up to 2 MiB
/// but not past the target size.
fn room_for(capacity: u64, end: u64, target_size: u64) -> u64
    requires { capacity < end }
    ensures room { result ≡ max (end - capacity) (min 2097152 (target_size - capacity)) }
    ensures fits { capacity + result < 2 ^ 64 }
{
    let lacking = end - capacity;
    let ahead = FILE_ALLOCATE_SIZE.min(target_size.saturating_sub(capacity));
    lacking.max(ahead)
}

impl LogFileWriter {
    /// The bytes that were written: where the next write goes.
    pub fn offset(&self) -> u64
        ensures { result ≡ self.now.offset }
    {
        self.offset
    }

    /// Makes room for a write up to `end`, where there is none. A refused allocation is passed
    /// over.
    fn make_room<F: FileSystem>(&mut self, files: &mut F, end: u64, target_size: u64)
        requires { IsWriter self.old (F.disk files.old) }
        ensures ready { IsReady self.old (F.disk files.old) (F.disk files.new) end target_size }
        ensures writer { IsWriter self.new (F.disk files.new) }
        ensures same { (self.new.fd ≡ self.old.fd) × (self.new.offset ≡ self.old.offset) }
        ensures grown { end ≤ self.new.capacity }
        ensures later { RefusesNoMore (F.is_bounded files.old) (F.is_bounded files.new) (F.meter files.old) (F.meter files.new) }
        ensures counts { ((F.meter files.new).refusals ≡ (F.meter files.old).refusals) ⊎ ((F.meter files.new).refusals ≡ min ((F.meter files.old).refusals + 1) (2 ^ 64 - 1)) }
        ensures lacks { (F.meter files.new).lacks ≡ (F.meter files.old).lacks }
    {
        if end <= self.capacity {
            return;
        }
        let capacity = self.capacity + room_for(self.capacity, end, target_size);
        let made = files.allocate(self.fd, self.reached, capacity - self.reached);
        self.capacity = capacity;
        if made.is_ok() {
            self.reached = capacity;
        }
    }

    /// Appends bytes. `target_size` is a hint: room is made ahead up to it. After an `Err` the
    /// offset is where it was. The bytes may stand there in part, but only where the write was
    /// `Refused`: without space none of them was written.
    pub fn write<F: FileSystem>(
        &mut self,
        files: &mut F,
        bytes: &[u8],
        target_size: u64,
    ) -> Result<(), IoFault>
        requires { IsWriter self.old (F.disk files.old) }
        ensures writes { IsAppended self.old (F.disk files.old) (F.disk files.new) bytes.now target_size result }
        ensures writer { IsWriter self.new (F.disk files.new) }
        ensures file { self.new.fd ≡ self.old.fd }
        ensures ok { OnOk result (self.new.offset ≡ self.old.offset + length bytes.now) }
        ensures err { OnErr result (self.new.offset ≡ self.old.offset) }
        ensures unwritten { UnlessRefused result (IsReady self.old (F.disk files.old) (F.disk files.new) (min (self.old.offset + length bytes.now) (2 ^ 64 - 1)) target_size) }
        ensures counted { IsCounted (F.meter files.old) (F.meter files.new) result }
        ensures lacks { (F.meter files.new).lacks ≡ lacked result (F.meter files.old).lacks }
        ensures not_found { IsErrOf result NotFound → IsNoFile (F.disk files.old) self.old.fd.0 }
        ensures later { RefusesNoMore (F.is_bounded files.old) (F.is_bounded files.new) (F.meter files.old) (F.meter files.new) }
        ensures taken { NothingRefuses (F.is_bounded files.old) (F.meter files.old) → IsTaken (IsNoFile (F.disk files.old) self.old.fd.0) (2 ^ 64 ≤ self.old.offset + length bytes.now) result }
        ensures space { (F.is_bounded files.old → ⊥) → IsErrOf result NoSpace → 2 ^ 64 ≤ self.old.offset + length bytes.now }
    {
        let end = self.offset.saturating_add(bytes.len() as u64);
        self.make_room(files, end, target_size);
        files.write_at(self.fd, self.offset, bytes)?;
        self.offset = end;
        self.reached = self.reached.max(end);
        Ok(())
    }

    /// After it, a crash leaves of the file what a read gives.
    pub fn sync<F: FileSystem>(&self, files: &mut F) -> Result<(), IoFault>
        ensures ok { OnOk result (F.disk files.new ≡ with_file (F.disk files.old) self.now.fd.0 (after_sync ((F.disk files.old).file self.now.fd.0))) }
        ensures err { OnErr result (F.disk files.new ≡ F.disk files.old) }
        ensures counted { IsCounted (F.meter files.old) (F.meter files.new) result }
        ensures space { IsErrOf result NoSpace → ⊥ }
        ensures not_found { IsErrOf result NotFound → IsNoFile (F.disk files.old) self.now.fd.0 }
        ensures later { RefusesNoMore (F.is_bounded files.old) (F.is_bounded files.new) (F.meter files.old) (F.meter files.new) }
        ensures taken { NothingRefuses (F.is_bounded files.old) (F.meter files.old) → IsTaken (IsNoFile (F.disk files.old) self.now.fd.0) ⊥ result }
        ensures spends { OnOk result (Spends (F.meter files.old) (F.meter files.new)) }
    {
        files.sync(self.fd)
    }

    /// Cuts away what was made room for behind the last write. Where that room ends at the greatest
    /// number a refused write may have passed it, and the file is cut in any case.
    pub fn truncate<F: FileSystem>(&mut self, files: &mut F) -> Result<(), IoFault>
        requires { IsWriter self.old (F.disk files.old) }
        ensures cuts { IsCut self.old result (F.disk files.old) (F.disk files.new) }
        ensures writer { IsWriter self.new (F.disk files.new) }
        ensures same { (self.new.fd ≡ self.old.fd) × (self.new.offset ≡ self.old.offset) }
        ensures ok { OnOk result (self.new.capacity ≤ self.new.offset) }
        ensures no_refusal { OnOk result ((F.meter files.new).refusals ≡ (F.meter files.old).refusals) }
        ensures counted { IsCounted (F.meter files.old) (F.meter files.new) result }
        ensures not_found { IsErrOf result NotFound → IsNoFile (F.disk files.old) self.old.fd.0 }
        ensures later { RefusesNoMore (F.is_bounded files.old) (F.is_bounded files.new) (F.meter files.old) (F.meter files.new) }
        ensures taken { NothingRefuses (F.is_bounded files.old) (F.meter files.old) → IsTaken (IsNoFile (F.disk files.old) self.old.fd.0) ⊥ result }
    {
        if self.capacity <= self.offset && self.capacity < u64::MAX {
            return Ok(());
        }
        self.reached = self.offset;
        files.truncate(self.fd, self.offset)?;
        self.capacity = self.offset;
        Ok(())
    }

    /// Cuts away what was made room for, and syncs.
    pub fn close<F: FileSystem>(&mut self, files: &mut F) -> Result<(), IoFault>
        requires { IsWriter self.old (F.disk files.old) }
        ensures closes { IsClosed self.old (F.disk files.old) (F.disk files.new) result }
        ensures writer { IsWriter self.new (F.disk files.new) }
        ensures same { (self.new.fd ≡ self.old.fd) × (self.new.offset ≡ self.old.offset) }
        ensures counted { IsCounted (F.meter files.old) (F.meter files.new) result }
        ensures not_found { IsErrOf result NotFound → IsNoFile (F.disk files.old) self.old.fd.0 }
        ensures later { RefusesNoMore (F.is_bounded files.old) (F.is_bounded files.new) (F.meter files.old) (F.meter files.new) }
        ensures taken { NothingRefuses (F.is_bounded files.old) (F.meter files.old) → IsTaken (IsNoFile (F.disk files.old) self.old.fd.0) ⊥ result }
    {
        self.truncate(files)?;
        self.sync(files)
    }
}

/// A writer of an open file. A file that is shorter than the header of the format, and each file
/// where `force_reset` says so, gets the header at its front, and is written behind it. Any other
/// is written from its end on and isn't changed.
pub fn build_file_writer<F: FileSystem>(
    files: &mut F,
    alloc: Global,
    fd: Fd,
    format: LogFileFormat,
    force_reset: bool,
) -> Result<LogFileWriter, IoFault>
    requires { IsSpellable format }
    ensures opens { IsOpened (F.disk files.old) (F.disk files.new) fd.0 format force_reset result }
    ensures writer { IfOk result (λ w. IsWriter w (F.disk files.new)) }
    ensures file { IfOk result (λ w. w.fd ≡ fd) }
    ensures counted { IsCounted (F.meter files.old) (F.meter files.new) result }
    ensures lacks { IsErrOf result NoSpace → Lacks 1 (F.meter files.old) (F.meter files.new) }
    ensures not_found { IsErrOf result NotFound → IsNoFile (F.disk files.old) fd.0 }
    ensures later { RefusesNoMore (F.is_bounded files.old) (F.is_bounded files.new) (F.meter files.old) (F.meter files.new) }
    ensures taken { NothingRefuses (F.is_bounded files.old) (F.meter files.old) → IsTaken (IsNoFile (F.disk files.old) fd.0) ⊥ result }
    ensures space { (F.is_bounded files.old → ⊥) → IsErrOf result NoSpace → ⊥ }
{
    let size = files.file_size(fd)?;
    let mut writer = LogFileWriter {
        fd,
        offset: size,
        reached: size,
        capacity: size,
    };
    if size < LogFileFormat::encoded_len(format.version) as u64 || force_reset {
        writer.offset = 0;
        let header = format.encode(alloc)?;
        if let Err(fault) = writer.write(files, &header, 0) {
            return Err(fault);
        }
    }
    Ok(writer)
}
