//! Files whose batches are needed no more go, the first ones first. Some are kept for reuse.

ghost use Rattle.std.specs.Prelude.{◌≡◌, ◌⊎◌, ◌↔◌, ◌∷◌, ◌+◌, ◌-◌, ◌<◌, ◌≤◌, ℕ, List, length, max, IfErr, IfOk, IsTrue, OnOk, OnErr, IsErrOf};
ghost use Rattle.std.specs.List.{slice_index_or};
ghost use Rattle.raft_log_disk.specs.Disk.{IsIn};
ghost use Rattle.raft_log_files.specs.FileName.{IsFileSeq};
ghost use Rattle.raft_log_disk.specs.Cause.{NothingRefuses, RefusesNoMore, Rises};
ghost use Rattle.raft_log_files.specs.declared.error.Error.TheVariants.{Other};
ghost use Rattle.raft_log_files.specs.declared.error.OtherFault.TheVariants.{FileGone, NumberOutOfSpan};
ghost use Rattle.raft_log_pipe.specs.declared.file.File.{File};
ghost use Rattle.raft_log_pipe.specs.Alone.{IsAlone};
ghost use Rattle.raft_log_pipe.specs.Blocks.{IsOutOfSpan};
ghost use Rattle.raft_log_pipe.specs.Caused.{IsCaused, IsPurgeFault};
ghost use Rattle.raft_log_pipe.specs.Kept.{KeepsSettings};
ghost use Rattle.raft_log_pipe.specs.Pipe.{IsPipe, first_of};
ghost use Rattle.raft_log_pipe.specs.Prepared.{IsFrontOf};
ghost use Rattle.raft_log_pipe.specs.Purging.{AreGone, AreKeptIfCan, AreLastOf, CanBeKept, HoldsRest, IsKept, KeepsFrom, NamesNoOther, StandsFrom, room_from};
ghost use Rattle.raft_log_pipe.specs.Taken.{HasLost, IsOkOrMemory, IsPurgeTaken, IsTakenBy};

use crate::file::{File, ReservedFile};
use crate::pipe::SinglePipe;
use crate::prefilling::number_behind;
use crate::reserved::reserved_path;
use raft_log_files::{
    DEFAULT_FIRST_FILE_SEQ, Error, FileNameExt, FileSystem, OtherFault, is_file_seq,
};
use raft_log_records::{FileId, FileSeq, LogQueue, Version};
use std::alloc::AllocError;

impl SinglePipe {
    /// Whether a file can be kept for reuse behind the reserved ones, where there may be so many.
    fn can_be_kept<F: FileSystem>(
        &self,
        files: &F,
        file: File,
        room: u64,
    ) -> Result<bool, AllocError>
        requires pipe { IsPipe self.now (F.disk files.now) }
        requires placed { file.path_id < length self.now.paths.items }
        ensures yes { IfOk result (λ b. IsTrue b → CanBeKept self.now (F.disk files.now) room self.now.reserved.items file) }
        ensures no { IfOk result (λ b. CanBeKept self.now (F.disk files.now) room self.now.reserved.items file → IsTrue b) }
    {
        match self.queue {
            LogQueue::Append => {}
            LogQueue::Rewrite => return Ok(false),
        }
        match file.format.version {
            Version::V2 => {}
            Version::V1 => return Ok(false),
        }
        let number = number_behind(&self.reserved, DEFAULT_FIRST_FILE_SEQ);
        if self.reserved.len() as u64 >= room || !is_file_seq(number) {
            return Ok(false);
        }
        let directory = self.paths[file.path_id].as_str();
        let path = reserved_path(self.alloc, directory, number)?;
        if !files.is_dir(directory) || files.is_dir(path.as_str()) {
            return Ok(false);
        }
        Ok(!files.is_file(path.as_str()))
    }

    /// Keeps the first file for reuse: it gets the next reserved name at once, so that no opening
    /// takes it for a log file. After an `Err` the pipe has it no more, and on the disk it has
    /// either name.
    fn keep_first<F: FileSystem>(
        &mut self,
        files: &mut F,
        file: File,
        room: u64,
    ) -> Result<(), Error>
        requires pipe { IsPipe self.old (F.disk files.old) }
        requires some { 0 < length self.old.older.items }
        requires first { file ≡ slice_index_or self.old.older.items 0 file }
        requires can { CanBeKept self.old (F.disk files.old) room self.old.reserved.items file }
        ensures pipe { IsPipe self.new (F.disk files.new) }
        ensures same { (self.new.active ≡ self.old.active) × (self.new.queue ≡ self.old.queue) × (self.new.paths ≡ self.old.paths) }
        ensures front { IsFrontOf self.old.reserved.items self.new.reserved.items }
        ensures bound { length self.new.reserved.items ≤ max (length self.old.reserved.items) room }
        ensures kept { OnOk result (IsKept self.old (F.disk files.old) self.new (F.disk files.new) self.old.reserved.items file) }
        ensures fresh { OnOk result (NamesNoOther self.new (F.disk files.old) (F.disk files.new)) }
        ensures ok { OnOk result (length self.new.older.items + 1 ≡ length self.old.older.items) }
        ensures err { OnErr result ((length self.new.older.items + 1 ≡ length self.old.older.items) ⊎ (length self.new.older.items ≡ length self.old.older.items)) }
        ensures rest { AreLastOf self.old.older.items self.new.older.items }
        ensures gone { OnOk result (AreGone self.old self.new (F.disk files.new)) }
        ensures stays { OnErr result ((F.disk files.new ≡ F.disk files.old) ⊎ AreGone self.old self.new (F.disk files.new)) }
        ensures set { KeepsSettings self.old self.new }
        ensures told { IsErrOf result (Other NumberOutOfSpan) → ⊥ }
        ensures holds { HoldsRest self.old (F.disk files.old) self.new (F.disk files.new) }
        ensures keeps { KeepsFrom self.old.queue (first_of self.new) (F.disk files.old) (F.disk files.new) }
        ensures lost { OnOk result ((seq : ℕ) → HasLost self.new (F.disk files.new) seq → HasLost self.old (F.disk files.old) seq) }
        ensures later { RefusesNoMore (F.is_bounded files.old) (F.is_bounded files.new) (F.meter files.old) (F.meter files.new) }
        ensures taken { NothingRefuses (F.is_bounded files.old) (F.meter files.old) → IsTakenBy ⊥ (HasLost self.old (F.disk files.old) (first_of self.old + 1)) ⊥ result }
        ensures cause { IfErr result (λ e. IsCaused (Rises 1 (F.meter files.old) (F.meter files.new)) ⊥ ⊥ (HasLost self.old (F.disk files.old) (first_of self.old + 1)) e) }
    {
        let number = number_behind(&self.reserved, DEFAULT_FIRST_FILE_SEQ);
        let id = FileId::new(self.queue, file.seq);
        let directory = self.paths[file.path_id].as_str();
        let from = id.build_file_path(self.alloc, directory)?;
        let to = reserved_path(self.alloc, directory, number)?;
        let _first = self.older.remove(0);
        files.rename(from.as_str(), to.as_str())?;
        self.reserved.push(ReservedFile {
            seq: number,
            path_id: file.path_id,
        })?;
        Ok(())
    }

    /// Deletes the first file. After an `Err` the pipe has it or not, and on the disk it may be
    /// left.
    fn delete_first<F: FileSystem>(&mut self, files: &mut F) -> Result<(), Error>
        requires pipe { IsPipe self.old (F.disk files.old) }
        requires some { 0 < length self.old.older.items }
        ensures pipe { IsPipe self.new (F.disk files.new) }
        ensures same { (self.new.active ≡ self.old.active) × (self.new.queue ≡ self.old.queue) × (self.new.paths ≡ self.old.paths) }
        ensures reserved { self.new.reserved ≡ self.old.reserved }
        ensures fresh { OnOk result ((path : List ℕ) (fd : ℕ) → IsIn (path, fd) (F.disk files.new).names → IsIn (path, fd) (F.disk files.old).names) }
        ensures ok { OnOk result (length self.new.older.items + 1 ≡ length self.old.older.items) }
        ensures err { OnErr result ((length self.new.older.items + 1 ≡ length self.old.older.items) ⊎ (length self.new.older.items ≡ length self.old.older.items)) }
        ensures rest { AreLastOf self.old.older.items self.new.older.items }
        ensures gone { OnOk result (AreGone self.old self.new (F.disk files.new)) }
        ensures stays { OnErr result ((F.disk files.new ≡ F.disk files.old) ⊎ AreGone self.old self.new (F.disk files.new)) }
        ensures set { KeepsSettings self.old self.new }
        ensures told { IsErrOf result (Other NumberOutOfSpan) → ⊥ }
        ensures holds { HoldsRest self.old (F.disk files.old) self.new (F.disk files.new) }
        ensures keeps { KeepsFrom self.old.queue (first_of self.new) (F.disk files.old) (F.disk files.new) }
        ensures lost { OnOk result ((seq : ℕ) → HasLost self.new (F.disk files.new) seq → HasLost self.old (F.disk files.old) seq) }
        ensures later { RefusesNoMore (F.is_bounded files.old) (F.is_bounded files.new) (F.meter files.old) (F.meter files.new) }
        ensures taken { NothingRefuses (F.is_bounded files.old) (F.meter files.old) → IsTakenBy ⊥ (HasLost self.old (F.disk files.old) (first_of self.old + 1)) ⊥ result }
        ensures cause { IfErr result (λ e. IsCaused (Rises 1 (F.meter files.old) (F.meter files.new)) ⊥ ⊥ (HasLost self.old (F.disk files.old) (first_of self.old + 1)) e) }
    {
        let file = self.older[0];
        let id = FileId::new(self.queue, file.seq);
        let path = id.build_file_path(self.alloc, self.paths[file.path_id].as_str())?;
        let _ = self.older.remove(0);
        files.delete(path.as_str())?;
        Ok(())
    }

    /// Lets the first file go. It is kept for reuse where it can be and no more than so many are
    /// kept, else deleted. After an `Err` the pipe has it or not, and on the disk it may be left.
    fn purge_first<F: FileSystem>(&mut self, files: &mut F, room: u64) -> Result<(), Error>
        requires pipe { IsPipe self.old (F.disk files.old) }
        requires some { 0 < length self.old.older.items }
        ensures pipe { IsPipe self.new (F.disk files.new) }
        ensures same { (self.new.active ≡ self.old.active) × (self.new.queue ≡ self.old.queue) × (self.new.paths ≡ self.old.paths) }
        ensures front { IsFrontOf self.old.reserved.items self.new.reserved.items }
        ensures bound { length self.new.reserved.items ≤ max (length self.old.reserved.items) room }
        ensures kept { OnOk result (AreKeptIfCan self.old (F.disk files.old) self.new (F.disk files.new) room) }
        ensures fresh { OnOk result (NamesNoOther self.new (F.disk files.old) (F.disk files.new)) }
        ensures ok { OnOk result (length self.new.older.items + 1 ≡ length self.old.older.items) }
        ensures err { OnErr result ((length self.new.older.items + 1 ≡ length self.old.older.items) ⊎ (length self.new.older.items ≡ length self.old.older.items)) }
        ensures rest { AreLastOf self.old.older.items self.new.older.items }
        ensures gone { OnOk result (AreGone self.old self.new (F.disk files.new)) }
        ensures stays { OnErr result ((F.disk files.new ≡ F.disk files.old) ⊎ AreGone self.old self.new (F.disk files.new)) }
        ensures set { KeepsSettings self.old self.new }
        ensures told { IsErrOf result (Other NumberOutOfSpan) → ⊥ }
        ensures holds { HoldsRest self.old (F.disk files.old) self.new (F.disk files.new) }
        ensures keeps { KeepsFrom self.old.queue (first_of self.new) (F.disk files.old) (F.disk files.new) }
        ensures lost { OnOk result ((seq : ℕ) → HasLost self.new (F.disk files.new) seq → HasLost self.old (F.disk files.old) seq) }
        ensures later { RefusesNoMore (F.is_bounded files.old) (F.is_bounded files.new) (F.meter files.old) (F.meter files.new) }
        ensures taken { NothingRefuses (F.is_bounded files.old) (F.meter files.old) → IsTakenBy ⊥ (HasLost self.old (F.disk files.old) (first_of self.old + 1)) ⊥ result }
        ensures cause { IfErr result (λ e. IsCaused (Rises 1 (F.meter files.old) (F.meter files.new)) ⊥ ⊥ (HasLost self.old (F.disk files.old) (first_of self.old + 1)) e) }
    {
        let file = self.older[0];
        if self.can_be_kept(files, file, room)? {
            return self.keep_first(files, file, room);
        }
        self.delete_first(files)
    }

    /// Lets the files before a number go, and answers how many went (raft-engine's `purge_to`). Those
    /// of version 2 of the append queue are kept for reuse, while the pipe has no more files than
    /// its capacity with those that stay, and nothing is in the way of their reserved names; the
    /// others are deleted. A number that no file has is `Other`, and changes nothing. After another
    /// `Err` some of them have gone, the first ones, and none of the others.
    pub fn purge_to<F: FileSystem>(&mut self, files: &mut F, seq: FileSeq) -> Result<u64, Error>
        requires pipe { IsPipe self.old (F.disk files.old) }
        ensures pipe { IsPipe self.new (F.disk files.new) }
        ensures same { (self.new.active ≡ self.old.active) × (self.new.queue ≡ self.old.queue) }
        ensures paths { self.new.paths ≡ self.old.paths }
        ensures front { IsFrontOf self.old.reserved.items self.new.reserved.items }
        ensures room { length self.new.reserved.items ≤ max (length self.old.reserved.items) (room_from self.old seq) }
        ensures kept { OnOk result (AreKeptIfCan self.old (F.disk files.old) self.new (F.disk files.new) (room_from self.old seq)) }
        ensures fresh { OnOk result (NamesNoOther self.new (F.disk files.old) (F.disk files.new)) }
        ensures set { KeepsSettings self.old self.new }
        ensures alone { OnOk result (IsAlone self.old (F.disk files.old) → IsAlone self.new (F.disk files.new)) }
        ensures stands { OnErr result (StandsFrom self.old (F.disk files.old) self.new (F.disk files.new)) }
        ensures ok { IfOk result (λ n. (first_of self.new ≡ seq) × (first_of self.old + n ≡ seq)) }
        ensures out { IsOutOfSpan self.old seq → IsErrOf result (Other NumberOutOfSpan) × (self.new ≡ self.old) × (F.disk files.new ≡ F.disk files.old) }
        ensures within { IsErrOf result (Other NumberOutOfSpan) → IsOutOfSpan self.old seq }
        ensures bound { (first_of self.old ≤ first_of self.new) × (first_of self.old ≤ seq → first_of self.new ≤ seq) }
        ensures rest { AreLastOf self.old.older.items self.new.older.items }
        ensures gone { OnOk result (AreGone self.old self.new (F.disk files.new)) }
        ensures holds { HoldsRest self.old (F.disk files.old) self.new (F.disk files.new) }
        ensures keeps { KeepsFrom self.old.queue (first_of self.new) (F.disk files.old) (F.disk files.new) }
        ensures later { RefusesNoMore (F.is_bounded files.old) (F.is_bounded files.new) (F.meter files.old) (F.meter files.new) }
        ensures taken { NothingRefuses (F.is_bounded files.old) (F.meter files.old) → IsPurgeTaken self.old (F.disk files.old) seq result }
        ensures there { NothingRefuses (F.is_bounded files.old) (F.meter files.old) → IsAlone self.old (F.disk files.old) → IsOutOfSpan self.old seq ⊎ IsOkOrMemory result }
        ensures cause { IfErr result (λ e. IsPurgeFault self.old (F.disk files.old) seq (F.meter files.old) (F.meter files.new) e) }
        ensures found { IsAlone self.old (F.disk files.old) → IsErrOf result (Other FileGone) → ⊥ }
    {
        let Some(file) = self.file_of(seq) else {
            return Err(Error::Other(OtherFault::NumberOutOfSpan));
        };
        let (first, _) = self.file_span();
        let count = file.seq - first;
        let room = self.capacity.saturating_sub(self.count() - count);
        for _gone in 0..count {
            self.purge_first(files, room)?;
        }
        Ok(count)
    }
}
