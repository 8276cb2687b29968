//! Files that are made ahead, to be reused by rotations.

ghost use Rattle.std.specs.Prelude.{◌≡◌, ◌<◌, ◌≤◌, ◌+◌, ◌-◌, ◌⊎◌, [], length, max, replicate, IfErr, IfOk, IsTrue, OnOk};
ghost use Rattle.raft_log_disk.specs.Cause.{IsTaken, NothingRefuses, RefusesNoMore, Rises};
ghost use Rattle.raft_log_disk.specs.Disk.{IsNoFile};
ghost use Rattle.raft_log_pipe.specs.Alone.{IsAlone, directories_of_pipe};
ghost use Rattle.raft_log_pipe.specs.Begun.{Changes};
ghost use Rattle.raft_log_pipe.specs.Caused.{IsRefusalOrMemory};
ghost use Rattle.raft_log_pipe.specs.Kept.{with_reserved};
ghost use Rattle.raft_log_pipe.specs.Pipe.{IsPipe, Holds, Numbered};
ghost use Rattle.raft_log_pipe.specs.Prepared.{AreTrimmed, IsFree, IsFrontOf, IsObstructed, IsPreparedOf, LacksNumbers, number_behind};
ghost use Rattle.raft_log_pipe.specs.Taken.{IsTakenBy};
ghost use Rattle.raft_log_pipe.specs.Unreserved.{KeepsUnreserved};
ghost use Rattle.raft_log_records.specs.declared.file_id.LogQueue.TheVariants.{Append};

use crate::file::{ReservedFile, find_available_dir};
use crate::pipe::SinglePipe;
use crate::reserved::reserved_path;
use raft_log_files::{DEFAULT_FIRST_FILE_SEQ, Error, Fd, FileSystem, IoFault, is_file_seq};
use raft_log_records::{FileSeq, LogQueue};
use std::alloc::{AllocError, Global};

/// The most zeros that are written at once, in bytes (raft-engine's prefill buffer).
const PIECE_SIZE: u64 = 16_777_216;

/// The number behind those of these files, or the first one where there are none.
pub(crate) fn number_behind(files: &[ReservedFile], first: FileSeq) -> FileSeq
    ensures { result ≡ number_behind files.now first }
{
    match files {
        [] => first,
        [file, rest @ ..] => number_behind(rest, file.seq.saturating_add(1)),
    }
}

/// Fills a file that has no bytes with zeros up to a size.
fn fill_zeros<F: FileSystem>(
    files: &mut F,
    alloc: Global,
    handle: Fd,
    size: u64,
) -> Result<(), IoFault>
    requires bare { ((F.disk files.old).file handle.0).bytes ≡ [] }
    requires there { IsNoFile (F.disk files.old) handle.0 → ⊥ }
    ensures ok { OnOk result (((F.disk files.new).file handle.0).bytes ≡ replicate size 0) }
    ensures change { Changes (F.disk files.old) (F.disk files.new) handle.0 }
    ensures later { RefusesNoMore (F.is_bounded files.old) (F.is_bounded files.new) (F.meter files.old) (F.meter files.new) }
    ensures taken { NothingRefuses (F.is_bounded files.old) (F.meter files.old) → IsTaken ⊥ ⊥ result }
    ensures cause { IsTaken ⊥ (Rises 1 (F.meter files.old) (F.meter files.new)) result }
{
    let zeros = vec![in alloc; 0u8; PIECE_SIZE.min(size) as usize]?;
    let mut at = 0;
    'pieces: while at < size {
        let len = PIECE_SIZE.min(size - at);
        match files.write_at(handle, at, &zeros[..len as usize]) {
            Ok(()) => at += len,
            Err(fault) => return Err(fault),
        }
    }
    Ok(())
}

impl SinglePipe {
    /// Whether a reserved file can be made: its number is one, its directory is there, and nothing
    /// has its path.
    fn is_free<F: FileSystem>(&self, files: &F, file: ReservedFile) -> Result<bool, AllocError>
        requires { file.path_id < length self.now.paths.items }
        ensures yes { IfOk result (λ b. IsTrue b → IsFree (directories_of_pipe self.now) (F.disk files.now) file) }
        ensures no { IfOk result (λ b. IsFree (directories_of_pipe self.now) (F.disk files.now) file → IsTrue b) }
    {
        if !is_file_seq(file.seq) {
            return Ok(false);
        }
        let directory = self.paths[file.path_id].as_str();
        let path = reserved_path(self.alloc, directory, file.seq)?;
        if !files.is_dir(directory) {
            return Ok(false);
        }
        if files.is_dir(path.as_str()) {
            return Ok(false);
        }
        Ok(!files.is_file(path.as_str()))
    }

    /// Makes the reserved file behind the last one, of zeros up to the target size, in the first
    /// directory with room. `false`: something is in the way, and nothing changed. After an `Err`
    /// the file may be there, and the pipe may have it.
    fn prepare_next<F: FileSystem>(&mut self, files: &mut F) -> Result<bool, IoFault>
        requires pipe { IsPipe self.old (F.disk files.old) }
        requires own { self.old.queue ≡ Append }
        ensures pipe { IsPipe self.new (F.disk files.new) }
        ensures same { self.new ≡ with_reserved self.old self.new.reserved self.old.capacity }
        ensures more { IfOk result (λ made. IsTrue made → length self.new.reserved.items ≡ length self.old.reserved.items + 1) }
        ensures most { length self.new.reserved.items ≤ length self.old.reserved.items + 1 }
        ensures obstructed { IfOk result (λ made. IsTrue made ⊎ IsObstructed self.new (F.disk files.new)) }
        ensures front { IsFrontOf self.old.reserved.items self.new.reserved.items }
        ensures unreserved { KeepsUnreserved (F.disk files.old) (F.disk files.new) }
        ensures next { (F.disk files.new).next ≤ (F.disk files.old).next + 1 }
        ensures later { RefusesNoMore (F.is_bounded files.old) (F.is_bounded files.new) (F.meter files.old) (F.meter files.new) }
        ensures taken { NothingRefuses (F.is_bounded files.old) (F.meter files.old) → IsTaken ⊥ (LacksNumbers (F.disk files.old) 1) result }
        ensures cause { IsTaken ⊥ (Rises 1 (F.meter files.old) (F.meter files.new)) result }
    {
        let size = self.target_file_size;
        let path_id = find_available_dir(files, &self.paths, size);
        let seq = number_behind(&self.reserved, DEFAULT_FIRST_FILE_SEQ);
        let file = ReservedFile { seq, path_id };
        if !self.is_free(files, file)? {
            return Ok(false);
        }
        let path = reserved_path(self.alloc, self.paths[path_id].as_str(), seq)?;
        let handle = match files.create(path.as_str()) {
            Ok(handle) => handle,
            Err(fault) => return Err(fault),
        };
        self.reserved.push(file)?;
        match fill_zeros(files, self.alloc, handle, size) {
            Ok(()) => Ok(true),
            Err(fault) => Err(fault),
        }
    }

    /// Makes reserved files until there are so many, or something is in the way of the next one.
    fn make_up<F: FileSystem>(&mut self, files: &mut F, wanted: u64) -> Result<(), IoFault>
        requires pipe { IsPipe self.old (F.disk files.old) }
        requires own { self.old.queue ≡ Append }
        ensures pipe { IsPipe self.new (F.disk files.new) }
        ensures same { self.new ≡ with_reserved self.old self.new.reserved self.old.capacity }
        ensures most { length self.new.reserved.items ≤ max (length self.old.reserved.items) wanted }
        ensures ok { OnOk result ((wanted ≤ length self.new.reserved.items) ⊎ IsObstructed self.new (F.disk files.new)) }
        ensures front { IsFrontOf self.old.reserved.items self.new.reserved.items }
        ensures unreserved { KeepsUnreserved (F.disk files.old) (F.disk files.new) }
        ensures later { RefusesNoMore (F.is_bounded files.old) (F.is_bounded files.new) (F.meter files.old) (F.meter files.new) }
        ensures taken { NothingRefuses (F.is_bounded files.old) (F.meter files.old) → IsTaken ⊥ (LacksNumbers (F.disk files.old) (wanted - length self.old.reserved.items)) result }
        ensures cause { IsTaken ⊥ (Rises 1 (F.meter files.old) (F.meter files.new)) result }
    {
        let missing = wanted.saturating_sub(self.reserved.len() as u64);
        for _made in 0..missing {
            match self.prepare_next(files) {
                Ok(true) => {}
                Ok(false) => return Ok(()),
                Err(fault) => return Err(fault),
            }
        }
        Ok(())
    }

    /// Makes the append queue's reserved files up to a wanted number, each of zeros up to the target
    /// size, or deletes those past it, the last first (raft-engine does it in its builder). They are
    /// numbered after the last one or from 1. Want of space makes the wanted number 0. It ends
    /// before where something is in the way of the next file: no number, no directory, or what has
    /// its path. After an `Err` other numbers of them may be there, and on the disk one that the pipe
    /// doesn't have.
    pub fn prepare_reserved<F: FileSystem>(
        &mut self,
        files: &mut F,
        wanted: u64,
    ) -> Result<(), Error>
        requires { IsPipe self.old (F.disk files.old) }
        ensures pipe { IsPipe self.new (F.disk files.new) }
        ensures same { self.new ≡ with_reserved self.old self.new.reserved self.old.capacity }
        ensures ok { OnOk result (length self.new.reserved.items ≤ wanted) }
        ensures made { OnOk result (self.old.queue ≡ Append → IsPreparedOf self.new (F.disk files.new) wanted (F.meter files.old) (F.meter files.new)) }
        ensures gone { OnOk result (AreTrimmed self.old self.new (F.disk files.new)) }
        ensures unreserved { KeepsUnreserved (F.disk files.old) (F.disk files.new) }
        ensures holds { (synced : Numbered) (unsynced : Numbered) → Holds self.old (F.disk files.old) synced unsynced → Holds self.new (F.disk files.new) synced unsynced }
        ensures alone { IsAlone self.old (F.disk files.old) → IsAlone self.new (F.disk files.new) }
        ensures later { RefusesNoMore (F.is_bounded files.old) (F.is_bounded files.new) (F.meter files.old) (F.meter files.new) }
        ensures taken { NothingRefuses (F.is_bounded files.old) (F.meter files.old) → IsTakenBy ⊥ ⊥ (LacksNumbers (F.disk files.old) (wanted - length self.old.reserved.items)) result }
        ensures cause { IfErr result (λ e. IsRefusalOrMemory (F.meter files.old) (F.meter files.new) e) }
    {
        match self.queue {
            LogQueue::Append => {}
            LogQueue::Rewrite => return self.trim_reserved(files, wanted),
        }
        if self.reserved.len() as u64 >= wanted {
            return self.trim_reserved(files, wanted);
        }
        match self.make_up(files, wanted) {
            Ok(()) => Ok(()),
            Err(IoFault::NoSpace) => self.trim_reserved(files, 0),
            Err(fault) => Err(Error::from(fault)),
        }
    }
}
