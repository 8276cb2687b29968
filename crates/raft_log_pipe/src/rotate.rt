//! Rotation: the last file is cut and synced, and a new one goes on.

ghost use Rattle.std.specs.Prelude.{◌≡◌, ◌+◌, ◌-◌, ◌<◌, ◌≤◌, ◌++◌, ◌∷◌, [], drop, length, IfErr, IfOk, IsErrOf, OnOk, OnErr};
ghost use Rattle.raft_log_disk.specs.declared.fault.IoFault.TheVariants.{NoSpace};
ghost use Rattle.raft_log_disk.specs.Cause.{IsTaken, Lacks, NothingRefuses, RefusesNoMore, Rises};
ghost use Rattle.raft_log_disk.specs.Disk.{IsNoFile, no_bytes};
ghost use Rattle.raft_log_file.specs.Writer.{IsWriter};
ghost use Rattle.raft_log_files.specs.FileName.{IsFileSeq};
ghost use Rattle.raft_log_pipe.specs.Kept.{KeepsSettings};
ghost use Rattle.raft_log_pipe.specs.Others.{KeepsOthers};
ghost use Rattle.raft_log_pipe.specs.Pipe.{IsPipe, IsPlain, Holds, Leaves, Numbered};
ghost use Rattle.raft_log_pipe.specs.Alone.{IsAlone, IsNearlyAlone, directories_of_pipe};
ghost use Rattle.raft_log_pipe.specs.Begun.{IsBegun};
ghost use Rattle.raft_log_pipe.specs.Caused.{IsCaused, IsRefusalOrMemory, IsRotationFault, LacksPlace};
ghost use Rattle.raft_log_pipe.specs.Next.{GoesOn, TakesFirst};
ghost use Rattle.raft_log_pipe.specs.Purging.{AreLastOf};
ghost use Rattle.raft_log_pipe.specs.Reserved.{AreReserved};
ghost use Rattle.raft_log_pipe.specs.Stored.{IsEnded};
ghost use Rattle.raft_log_records.specs.declared.file_id.FileId.{FileId};
ghost use Rattle.raft_log_pipe.specs.Torn.{IsTornAtEnd, IsUnaligned, TearsAtEnd};
ghost use Rattle.raft_log_pipe.specs.Taken.{IsBarred, IsOkOrMemory, IsRotationTaken, IsTakenBy, IsUnmade, IsUnnumbered};

use crate::file::{File, ReservedFile, new_file};
use crate::pipe::SinglePipe;
use crate::reserved::reserved_path;
use raft_log_file::{LogFileWriter, build_file_writer};
use raft_log_files::{
    Error, FileNameExt, FileSystem, IoFault, LogFileFormat, OtherFault, Permission, is_file_seq,
};
use raft_log_records::FileId;
use std::alloc::Global;

/// Writes and syncs the header of a file that is to begin.
pub(crate) fn begin_file<F: FileSystem>(
    files: &mut F,
    alloc: Global,
    file: File,
) -> Result<LogFileWriter, IoFault>
    requires { IsPlain file.format }
    ensures begun { IsBegun (F.disk files.old) (F.disk files.new) file result }
    ensures plain { OnErr result ((F.disk files.old).file file.handle.0 ≡ no_bytes → (id : FileId) → IsUnaligned id ((F.disk files.new).file file.handle.0)) }
    ensures later { RefusesNoMore (F.is_bounded files.old) (F.is_bounded files.new) (F.meter files.old) (F.meter files.new) }
    ensures taken { NothingRefuses (F.is_bounded files.old) (F.meter files.old) → IsTaken (IsNoFile (F.disk files.old) file.handle.0) ⊥ result }
    ensures cause { IsTaken (IsNoFile (F.disk files.old) file.handle.0) (Rises 1 (F.meter files.old) (F.meter files.new)) result }
    ensures lacks { IsErrOf result NoSpace → Lacks 1 (F.meter files.old) (F.meter files.new) }
{
    let writer = match build_file_writer(files, alloc, file.handle, file.format, true) {
        Ok(writer) => writer,
        Err(fault) => return Err(fault),
    };
    if let Err(fault) = writer.sync(files) {
        return Err(fault);
    }
    Ok(writer)
}

/// The list without its first file.
fn drop_first(files: &mut Vec<ReservedFile>)
    ensures { files.new.items ≡ drop 1 files.old.items }
{
    if !files.is_empty() {
        let _ = files.remove(0);
    }
}

impl SinglePipe {
    /// Cuts and syncs the last file, so that all that was appended is on the disk. After an `Err` each
    /// batch is as it was.
    pub fn close<F: FileSystem>(&mut self, files: &mut F) -> Result<(), Error>
        requires { IsPipe self.old (F.disk files.old) }
        ensures pipe { IsPipe self.new (F.disk files.new) }
        ensures same { (self.new.active ≡ self.old.active) × (self.new.older ≡ self.old.older) × (self.new.queue ≡ self.old.queue) }
        ensures paths { self.new.paths ≡ self.old.paths }
        ensures reserved { self.new.reserved ≡ self.old.reserved }
        ensures set { KeepsSettings self.old self.new }
        ensures others { KeepsOthers self.old.queue (F.disk files.old) (F.disk files.new) }
        ensures names { (F.disk files.new).names ≡ (F.disk files.old).names }
        ensures ok { OnOk result ((synced : Numbered) (unsynced : Numbered) → Holds self.old (F.disk files.old) synced unsynced → Holds self.new (F.disk files.new) (synced ++ unsynced) []) }
        ensures ended { OnOk result (IsEnded self.new.writer.offset ((F.disk files.new).file self.new.active.handle.0)) }
        ensures err { OnErr result ((synced : Numbered) (unsynced : Numbered) → Holds self.old (F.disk files.old) synced unsynced → Holds self.new (F.disk files.new) synced unsynced) }
        ensures next { (F.disk files.new).next ≡ (F.disk files.old).next }
        ensures later { RefusesNoMore (F.is_bounded files.old) (F.is_bounded files.new) (F.meter files.old) (F.meter files.new) }
        ensures taken { NothingRefuses (F.is_bounded files.old) (F.meter files.old) → IsOkOrMemory result }
        ensures cause { IfErr result (λ e. IsRefusalOrMemory (F.meter files.old) (F.meter files.new) e) }
    {
        self.writer.close(files)?;
        Ok(())
    }

    /// Cuts and syncs the last file, if there is a number for another one.
    pub(crate) fn finish<F: FileSystem>(&mut self, files: &mut F) -> Result<(), Error>
        requires { IsPipe self.old (F.disk files.old) }
        ensures pipe { IsPipe self.new (F.disk files.new) }
        ensures number { OnOk result (IsFileSeq (self.old.active.seq + 1)) }
        ensures same { (self.new.active ≡ self.old.active) × (self.new.older ≡ self.old.older) × (self.new.queue ≡ self.old.queue) }
        ensures paths { self.new.paths ≡ self.old.paths }
        ensures reserved { self.new.reserved ≡ self.old.reserved }
        ensures set { KeepsSettings self.old self.new }
        ensures others { KeepsOthers self.old.queue (F.disk files.old) (F.disk files.new) }
        ensures names { (F.disk files.new).names ≡ (F.disk files.old).names }
        ensures ok { OnOk result ((synced : Numbered) (unsynced : Numbered) → Holds self.old (F.disk files.old) synced unsynced → Holds self.new (F.disk files.new) (synced ++ unsynced) []) }
        ensures ended { OnOk result (IsEnded self.new.writer.offset ((F.disk files.new).file self.new.active.handle.0)) }
        ensures err { OnErr result ((synced : Numbered) (unsynced : Numbered) → Holds self.old (F.disk files.old) synced unsynced → Holds self.new (F.disk files.new) synced unsynced) }
        ensures next { (F.disk files.new).next ≡ (F.disk files.old).next }
        ensures later { RefusesNoMore (F.is_bounded files.old) (F.is_bounded files.new) (F.meter files.old) (F.meter files.new) }
        ensures taken { NothingRefuses (F.is_bounded files.old) (F.meter files.old) → IsTakenBy (IsUnnumbered self.old) ⊥ ⊥ result }
        ensures cause { IfErr result (λ e. IsCaused (Rises 1 (F.meter files.old) (F.meter files.new)) ⊥ (IsUnnumbered self.old) ⊥ e) }
    {
        if !is_file_seq(self.active.seq.saturating_add(1)) {
            return Err(Error::Other(OtherFault::NoFileNumber));
        }
        self.close(files)
    }

    /// Makes the file of the next number, with its header on the disk.
    fn begin_new<F: FileSystem>(&self, files: &mut F) -> Result<(File, LogFileWriter), IoFault>
        requires pipe { IsPipe self.now (F.disk files.old) }
        requires number { IsFileSeq (self.now.active.seq + 1) }
        requires none { length self.now.reserved.items ≡ 0 }
        ensures goes { GoesOn self.now (F.disk files.old) (F.disk files.new) result }
        ensures left { OnOk result (AreReserved self.now.queue (directories_of_pipe self.now) (F.disk files.new) (drop 1 self.now.reserved.items)) }
        ensures takes { IfOk result (λ x. TakesFirst self.now.reserved.items self.now (F.disk files.old) (drop 1 self.now.reserved.items) x.0 (F.disk files.new)) }
        ensures others { KeepsOthers self.now.queue (F.disk files.old) (F.disk files.new) }
        ensures later { RefusesNoMore (F.is_bounded files.old) (F.is_bounded files.new) (F.meter files.old) (F.meter files.new) }
        ensures taken { NothingRefuses (F.is_bounded files.old) (F.meter files.old) → IsTaken (IsUnmade self.now (F.disk files.old)) (IsBarred self.now (F.disk files.old)) result }
        ensures cause { IsTaken (LacksPlace self.now (F.disk files.old) 1) (Rises 1 (F.meter files.old) (F.meter files.new)) result }
        ensures lacks { IsErrOf result NoSpace → Lacks 1 (F.meter files.old) (F.meter files.new) }
    {
        let id = FileId::new(self.queue, self.active.seq + 1);
        let format = self.default_format;
        let target_size = self.target_file_size;
        let file = new_file(files, self.alloc, &self.paths, id, format, target_size)?;
        let writer = begin_file(files, self.alloc, file)?;
        Ok((file, writer))
    }

    /// Gives the first reserved file its header, on the disk, and then the next number and its
    /// name. So a crash never leaves a log file of the bytes that it had before.
    fn reuse_first<F: FileSystem>(&self, files: &mut F) -> Result<(File, LogFileWriter), IoFault>
        requires pipe { IsPipe self.now (F.disk files.old) }
        requires number { IsFileSeq (self.now.active.seq + 1) }
        requires some { 0 < length self.now.reserved.items }
        ensures goes { GoesOn self.now (F.disk files.old) (F.disk files.new) result }
        ensures left { OnOk result (AreReserved self.now.queue (directories_of_pipe self.now) (F.disk files.new) (drop 1 self.now.reserved.items)) }
        ensures takes { IfOk result (λ x. TakesFirst self.now.reserved.items self.now (F.disk files.old) (drop 1 self.now.reserved.items) x.0 (F.disk files.new)) }
        ensures others { KeepsOthers self.now.queue (F.disk files.old) (F.disk files.new) }
        ensures later { RefusesNoMore (F.is_bounded files.old) (F.is_bounded files.new) (F.meter files.old) (F.meter files.new) }
        ensures taken { NothingRefuses (F.is_bounded files.old) (F.meter files.old) → IsTaken (IsUnmade self.now (F.disk files.old)) (IsBarred self.now (F.disk files.old)) result }
        ensures cause { IsTaken (LacksPlace self.now (F.disk files.old) 1) (Rises 1 (F.meter files.old) (F.meter files.new)) result }
        ensures lacks { IsErrOf result NoSpace → Lacks 1 (F.meter files.old) (F.meter files.new) }
    {
        let kept = self.reserved[0];
        let id = FileId::new(self.queue, self.active.seq + 1);
        let directory = self.paths[kept.path_id].as_str();
        let from = reserved_path(self.alloc, directory, kept.seq)?;
        let to = id.build_file_path(self.alloc, directory)?;
        let handle = match files.open(from.as_str(), Permission::ReadWrite) {
            Ok(handle) => handle,
            Err(fault) => return Err(fault),
        };
        let file = File {
            seq: id.seq,
            handle,
            format: self.default_format,
            path_id: kept.path_id,
            reserved: false,
        };
        let writer = begin_file(files, self.alloc, file)?;
        match files.reuse(from.as_str(), to.as_str()) {
            Ok(()) => Ok((file, writer)),
            Err(fault) => Err(fault),
        }
    }

    /// The file of the next number, with its header on the disk: the first reserved file, or a new
    /// one where there is none.
    fn begin_next<F: FileSystem>(&self, files: &mut F) -> Result<(File, LogFileWriter), IoFault>
        requires pipe { IsPipe self.now (F.disk files.old) }
        requires number { IsFileSeq (self.now.active.seq + 1) }
        ensures goes { GoesOn self.now (F.disk files.old) (F.disk files.new) result }
        ensures left { OnOk result (AreReserved self.now.queue (directories_of_pipe self.now) (F.disk files.new) (drop 1 self.now.reserved.items)) }
        ensures takes { IfOk result (λ x. TakesFirst self.now.reserved.items self.now (F.disk files.old) (drop 1 self.now.reserved.items) x.0 (F.disk files.new)) }
        ensures others { KeepsOthers self.now.queue (F.disk files.old) (F.disk files.new) }
        ensures later { RefusesNoMore (F.is_bounded files.old) (F.is_bounded files.new) (F.meter files.old) (F.meter files.new) }
        ensures taken { NothingRefuses (F.is_bounded files.old) (F.meter files.old) → IsTaken (IsUnmade self.now (F.disk files.old)) (IsBarred self.now (F.disk files.old)) result }
        ensures cause { IsTaken (LacksPlace self.now (F.disk files.old) 1) (Rises 1 (F.meter files.old) (F.meter files.new)) result }
        ensures lacks { IsErrOf result NoSpace → Lacks 1 (F.meter files.old) (F.meter files.new) }
    {
        if self.reserved.is_empty() {
            return self.begin_new(files);
        }
        self.reuse_first(files)
    }

    /// Goes on with a file of the next number: the first reserved one, or a new one.
    pub(crate) fn go_on<F: FileSystem>(&mut self, files: &mut F) -> Result<(), IoFault>
        requires pipe { IsPipe self.old (F.disk files.old) }
        requires number { IsFileSeq (self.old.active.seq + 1) }
        requires ended { IsEnded self.old.writer.offset ((F.disk files.old).file self.old.active.handle.0) }
        ensures pipe { OnOk result (IsPipe self.new (F.disk files.new)) }
        ensures writer { IsWriter self.new.writer (F.disk files.new) }
        ensures next { OnOk result ((self.new.active.seq ≡ self.old.active.seq + 1) × (self.new.older.items ≡ self.old.older.items ++ self.old.active ∷ [])) }
        ensures takes { OnOk result (TakesFirst self.old.reserved.items self.old (F.disk files.old) self.new.reserved.items self.new.active (F.disk files.new)) }
        ensures queue { self.new.queue ≡ self.old.queue }
        ensures paths { self.new.paths ≡ self.old.paths }
        ensures reserved { AreLastOf self.old.reserved.items self.new.reserved.items }
        ensures set { KeepsSettings self.old self.new }
        ensures others { KeepsOthers self.old.queue (F.disk files.old) (F.disk files.new) }
        ensures alone { OnOk result (IsAlone self.old (F.disk files.old) → IsAlone self.new (F.disk files.new)) }
        ensures nearly { OnErr result (IsAlone self.old (F.disk files.old) → IsNearlyAlone self.new (F.disk files.new)) }
        ensures ok { OnOk result ((synced : Numbered) → Holds self.old (F.disk files.old) synced [] → Holds self.new (F.disk files.new) synced []) }
        ensures err { OnErr result ((synced : Numbered) → Holds self.old (F.disk files.old) synced [] → Leaves self.new (F.disk files.new) synced []) }
        ensures torn { OnErr result (IsAlone self.old (F.disk files.old) → (synced : Numbered) → Holds self.old (F.disk files.old) synced [] → IsTornAtEnd self.new (F.disk files.new)) }
        ensures begun { OnOk result (self.new.writer.offset ≤ 69) }
        ensures later { RefusesNoMore (F.is_bounded files.old) (F.is_bounded files.new) (F.meter files.old) (F.meter files.new) }
        ensures taken { NothingRefuses (F.is_bounded files.old) (F.meter files.old) → IsTaken (IsUnmade self.old (F.disk files.old)) (IsBarred self.old (F.disk files.old)) result }
        ensures cause { IsTaken (LacksPlace self.old (F.disk files.old) 1) (Rises 1 (F.meter files.old) (F.meter files.new)) result }
        ensures lacks { IsErrOf result NoSpace → Lacks 1 (F.meter files.old) (F.meter files.new) }
    {
        let (file, writer) = self.begin_next(files)?;
        self.older.push(self.active)?;
        self.active = file;
        self.writer = writer;
        drop_first(&mut self.reserved);
        Ok(())
    }

    /// Goes on with a new file. All that was appended is on the disk then. None is begun where closing
    /// the last one was refused: so a crash leaves at most the newest file torn, after an `Err` too.
    pub fn rotate<F: FileSystem>(&mut self, files: &mut F) -> Result<(), Error>
        requires pipe { IsPipe self.old (F.disk files.old) }
        ensures pipe { OnOk result (IsPipe self.new (F.disk files.new)) }
        ensures writer { IsWriter self.new.writer (F.disk files.new) }
        ensures next { OnOk result ((self.new.active.seq ≡ self.old.active.seq + 1) × (self.new.older.items ≡ self.old.older.items ++ self.old.active ∷ [])) }
        ensures takes { OnOk result (TakesFirst self.old.reserved.items self.old (F.disk files.old) self.new.reserved.items self.new.active (F.disk files.new)) }
        ensures queue { self.new.queue ≡ self.old.queue }
        ensures paths { self.new.paths ≡ self.old.paths }
        ensures reserved { AreLastOf self.old.reserved.items self.new.reserved.items }
        ensures set { KeepsSettings self.old self.new }
        ensures others { KeepsOthers self.old.queue (F.disk files.old) (F.disk files.new) }
        ensures alone { OnOk result (IsAlone self.old (F.disk files.old) → IsAlone self.new (F.disk files.new)) }
        ensures nearly { OnErr result (IsAlone self.old (F.disk files.old) → IsNearlyAlone self.new (F.disk files.new)) }
        ensures ok { OnOk result ((synced : Numbered) (unsynced : Numbered) → Holds self.old (F.disk files.old) synced unsynced → Holds self.new (F.disk files.new) (synced ++ unsynced) []) }
        ensures err { OnErr result ((synced : Numbered) (unsynced : Numbered) → Holds self.old (F.disk files.old) synced unsynced → Leaves self.new (F.disk files.new) synced unsynced) }
        ensures torn { OnErr result (TearsAtEnd self.old (F.disk files.old) self.new (F.disk files.new)) }
        ensures begun { OnOk result (self.new.writer.offset ≤ 69) }
        ensures later { RefusesNoMore (F.is_bounded files.old) (F.is_bounded files.new) (F.meter files.old) (F.meter files.new) }
        ensures taken { NothingRefuses (F.is_bounded files.old) (F.meter files.old) → IsRotationTaken self.old (F.disk files.old) result }
        ensures cause { IfErr result (λ e. IsRotationFault self.old (F.disk files.old) (F.meter files.old) (F.meter files.new) e) }
    {
        self.finish(files)?;
        self.go_on(files)?;
        Ok(())
    }
}
