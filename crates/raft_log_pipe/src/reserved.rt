//! Files that are kept for reuse.

ghost use Rattle.std.specs.Prelude.{◌≡◌, ◌-◌, min, length, ◌++◌, ◌∷◌, None, string_bytes, IfErr, IfOk, IsTrue, OnOk, OnErr};
ghost use Rattle.raft_log_disk.specs.Cause.{NothingRefuses, RefusesNoMore};
ghost use Rattle.raft_log_disk.specs.Disk.{fd_of};
ghost use Rattle.raft_log_disk.specs.Text.{Text};
ghost use Rattle.raft_log_files.specs.FileName.{IsFileSeq, reserved_name};
ghost use Rattle.raft_log_files.specs.declared.error.Error.TheVariants.{Memory};
ghost use Rattle.raft_log_pipe.specs.Alone.{IsAlone, directories_of_pipe};
ghost use Rattle.raft_log_pipe.specs.Caused.{IsRefusalOrMemory};
ghost use Rattle.raft_log_pipe.specs.Kept.{with_reserved};
ghost use Rattle.raft_log_pipe.specs.Pipe.{IsPipe, Holds, Numbered};
ghost use Rattle.raft_log_pipe.specs.Prepared.{AreTrimmed, IsFrontOf};
ghost use Rattle.raft_log_pipe.specs.Reserved.{AreReserved, IsReserved, is_before};
ghost use Rattle.raft_log_pipe.specs.Taken.{IsOkOrMemory};
ghost use Rattle.raft_log_pipe.specs.Unreserved.{KeepsUnreserved};

use crate::file::ReservedFile;
use crate::pipe::SinglePipe;
use raft_log_files::{Error, FileSystem, build_reserved_file_name, is_file_seq};
use raft_log_records::{FileSeq, LogQueue};
use std::alloc::{AllocError, Global};

/// The path of a reserved file in a directory.
pub(crate) fn reserved_path(
    alloc: Global,
    directory: &str,
    seq: FileSeq,
) -> Result<String, AllocError>
    requires { IsFileSeq seq }
    ensures { IfOk result (λ s. string_bytes s ≡ directory.now ++ 47 ∷ reserved_name seq) }
{
    let name = build_reserved_file_name(alloc, seq)?;
    let mut path = String::from_str(alloc, directory)?;
    path.push_str("/")?;
    path.push_str(name.as_str())?;
    Ok(path)
}

impl SinglePipe {
    /// Whether a reserved file of the pipe has this number and stands in this directory.
    fn is_reserved<F: FileSystem>(&self, files: &F, file: ReservedFile) -> Result<bool, AllocError>
        ensures yes { IfOk result (λ b. IsTrue b → IsReserved self.now.queue (directories_of_pipe self.now) (F.disk files.now) file) }
        ensures no { IfOk result (λ b. IsReserved self.now.queue (directories_of_pipe self.now) (F.disk files.now) file → IsTrue b) }
    {
        match self.queue {
            LogQueue::Append => {}
            LogQueue::Rewrite => return Ok(false),
        }
        if !is_file_seq(file.seq) || file.path_id >= self.paths.len() {
            return Ok(false);
        }
        let directory = self.paths[file.path_id].as_str();
        let path = reserved_path(self.alloc, directory, file.seq)?;
        if !files.is_dir(directory) {
            return Ok(false);
        }
        Ok(files.is_file(path.as_str()))
    }

    /// Whether all of these are, with rising numbers.
    fn are_reserved<F: FileSystem>(
        &self,
        files: &F,
        found: &[ReservedFile],
    ) -> Result<bool, AllocError>
        ensures yes { IfOk result (λ b. IsTrue b → AreReserved self.now.queue (directories_of_pipe self.now) (F.disk files.now) found.now) }
        ensures no { IfOk result (λ b. AreReserved self.now.queue (directories_of_pipe self.now) (F.disk files.now) found.now → IsTrue b) }
    {
        match found {
            [] => Ok(true),
            [first, rest @ ..] => {
                if !self.is_reserved(files, *first)? {
                    return Ok(false);
                }
                if !rises(*first, rest) {
                    return Ok(false);
                }
                self.are_reserved(files, rest)
            }
        }
    }

    /// Takes over the reserved files that were found, if each is there.
    fn take_over<F: FileSystem>(
        &mut self,
        files: &F,
        found: Vec<ReservedFile>,
    ) -> Result<(), AllocError>
        requires { IsPipe self.old (F.disk files.now) }
        ensures pipe { IsPipe self.new (F.disk files.now) }
        ensures same { self.new ≡ with_reserved self.old self.new.reserved self.old.capacity }
        ensures ok { OnOk result (AreReserved self.old.queue (directories_of_pipe self.old) (F.disk files.now) found.items → self.new.reserved.items ≡ found.items) }
        ensures err { OnErr result (self.new ≡ self.old) }
    {
        if self.are_reserved(files, &found)? {
            self.reserved = found;
        }
        Ok(())
    }

    /// Takes over the reserved files that an opening found: rotations take the first of them. The
    /// pipe keeps none of them unless each is there. From then on it has as many files as the
    /// capacity says, those that it keeps and all others. Files past it stay until
    /// `prepare_reserved` or `trim_reserved` deletes them.
    pub fn keep_reserved<F: FileSystem>(
        &mut self,
        files: &F,
        found: Vec<ReservedFile>,
        capacity: u64,
    ) -> Result<(), Error>
        requires { IsPipe self.old (F.disk files.now) }
        ensures pipe { IsPipe self.new (F.disk files.now) }
        ensures same { self.new ≡ with_reserved self.old self.new.reserved self.new.capacity }
        ensures capacity { OnOk result (self.new.capacity ≡ capacity) }
        ensures ok { OnOk result (AreReserved self.old.queue (directories_of_pipe self.old) (F.disk files.now) found.items → self.new.reserved.items ≡ found.items) }
        ensures err { OnErr result (self.new ≡ self.old) }
        ensures cause { IfErr result (λ e. e ≡ Memory) }
    {
        self.take_over(files, found)?;
        self.capacity = capacity;
        Ok(())
    }

    /// Deletes the last reserved file, if there is one. After an `Err` the pipe has it no more, and
    /// on the disk it may be left.
    fn delete_last<F: FileSystem>(&mut self, files: &mut F) -> Result<(), Error>
        requires { IsPipe self.old (F.disk files.old) }
        ensures pipe { IsPipe self.new (F.disk files.new) }
        ensures same { self.new ≡ with_reserved self.old self.new.reserved self.old.capacity }
        ensures fewer { length self.new.reserved.items ≡ length self.old.reserved.items - 1 }
        ensures front { IsFrontOf self.new.reserved.items self.old.reserved.items }
        ensures gone { OnOk result (AreTrimmed self.old self.new (F.disk files.new)) }
        ensures none { (path : Text) → fd_of (F.disk files.old).names path ≡ None → fd_of (F.disk files.new).names path ≡ None }
        ensures unreserved { KeepsUnreserved (F.disk files.old) (F.disk files.new) }
        ensures later { RefusesNoMore (F.is_bounded files.old) (F.is_bounded files.new) (F.meter files.old) (F.meter files.new) }
        ensures taken { NothingRefuses (F.is_bounded files.old) (F.meter files.old) → IsOkOrMemory result }
        ensures cause { IfErr result (λ e. IsRefusalOrMemory (F.meter files.old) (F.meter files.new) e) }
    {
        let Some(kept) = self.reserved.pop() else {
            return Ok(());
        };
        let path = reserved_path(self.alloc, self.paths[kept.path_id].as_str(), kept.seq)?;
        files.delete(path.as_str())?;
        Ok(())
    }

    /// Deletes reserved files, the last first, until no more than so many are kept (own;
    /// raft-engine does it in its builder). After an `Err` fewer may be kept, and on the disk one
    /// that isn't may be left.
    pub fn trim_reserved<F: FileSystem>(&mut self, files: &mut F, wanted: u64) -> Result<(), Error>
        requires { IsPipe self.old (F.disk files.old) }
        ensures pipe { IsPipe self.new (F.disk files.new) }
        ensures same { self.new ≡ with_reserved self.old self.new.reserved self.old.capacity }
        ensures ok { OnOk result (length self.new.reserved.items ≡ min (length self.old.reserved.items) wanted) }
        ensures front { IsFrontOf self.new.reserved.items self.old.reserved.items }
        ensures gone { OnOk result (AreTrimmed self.old self.new (F.disk files.new)) }
        ensures unreserved { KeepsUnreserved (F.disk files.old) (F.disk files.new) }
        ensures holds { (synced : Numbered) (unsynced : Numbered) → Holds self.old (F.disk files.old) synced unsynced → Holds self.new (F.disk files.new) synced unsynced }
        ensures alone { IsAlone self.old (F.disk files.old) → IsAlone self.new (F.disk files.new) }
        ensures later { RefusesNoMore (F.is_bounded files.old) (F.is_bounded files.new) (F.meter files.old) (F.meter files.new) }
        ensures taken { NothingRefuses (F.is_bounded files.old) (F.meter files.old) → IsOkOrMemory result }
        ensures cause { IfErr result (λ e. IsRefusalOrMemory (F.meter files.old) (F.meter files.new) e) }
    {
        let surplus = (self.reserved.len() as u64).saturating_sub(wanted);
        for _gone in 0..surplus {
            self.delete_last(files)?;
        }
        Ok(())
    }
}

/// Whether the first one's number is below those of the others, where these rise.
fn rises(first: ReservedFile, rest: &[ReservedFile]) -> bool
    ensures { result ≡ is_before first rest.now }
{
    match rest {
        [] => true,
        [next, ..] => first.seq < next.seq,
    }
}
