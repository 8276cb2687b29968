//! Opening the files of a queue, and a queue that has none yet.

ghost use Rattle.std.specs.Prelude.{◌≡◌, ◌<◌, ◌++◌, ◌∷◌, [], length, map, string_bytes, Err, IfErr, IfOk, OnOk, OnErr};
ghost use Rattle.raft_log_disk.specs.Cause.{IsTaken, NothingRefuses, RefusesNoMore, Rises};
ghost use Rattle.raft_log_disk.specs.Disk.{IsNoFile};
ghost use Rattle.raft_log_files.specs.declared.error.CorruptionFault.{CorruptionFault};
ghost use Rattle.raft_log_files.specs.declared.error.Error.TheVariants.{Corruption};
ghost use Rattle.raft_log_pipe.specs.Alone.{AreDistinct, AreLast, IsAlone, IsVacant};
ghost use Rattle.raft_log_pipe.specs.Begun.{Changes};
ghost use Rattle.raft_log_pipe.specs.Caused.{IsCreationFault, IsRefusalOrMemory};
ghost use Rattle.raft_log_pipe.specs.Found.{IsFound, IsResumed, KeepsButHeader, MakesButHeader};
ghost use Rattle.raft_log_pipe.specs.Others.{KeepsOthers};
ghost use Rattle.raft_log_pipe.specs.Pipe.{IsPipe, IsPlain, IsLast, Holds, Numbered, id_of};
ghost use Rattle.raft_log_pipe.specs.Taken.{IsCreationTaken, IsOkOrMemory};

use crate::file::{File, Paths, new_file};
use crate::pipe::SinglePipe;
use crate::rotate::begin_file;
use raft_log_file::{LogFileWriter, build_file_writer};
use raft_log_files::{DEFAULT_FIRST_FILE_SEQ, Error, FileSystem, IoFault, LogFileFormat};
use raft_log_records::{FileId, LogQueue};
use std::alloc::Global;

/// A writer of the last file that was found. One that has no bytes gets its header, on the disk.
fn resume_file<F: FileSystem>(
    files: &mut F,
    alloc: Global,
    file: File,
) -> Result<LogFileWriter, IoFault>
    requires { IsPlain file.format }
    ensures resumed { IsResumed (F.disk files.old) (F.disk files.new) file result }
    ensures later { RefusesNoMore (F.is_bounded files.old) (F.is_bounded files.new) (F.meter files.old) (F.meter files.new) }
    ensures taken { NothingRefuses (F.is_bounded files.old) (F.meter files.old) → IsTaken (IsNoFile (F.disk files.old) file.handle.0) ⊥ result }
    ensures cause { IsTaken (IsNoFile (F.disk files.old) file.handle.0) (Rises 1 (F.meter files.old) (F.meter files.new)) result }
{
    if files.file_size(file.handle)? == 0 {
        return begin_file(files, alloc, file);
    }
    build_file_writer(files, alloc, file.handle, file.format, false)
}

impl SinglePipe {
    /// Opens a queue whose files were found (raft-engine's `SinglePipe::open`): one at least, in
    /// the order of their numbers. The last one is written on.
    pub fn open<F: FileSystem>(
        files: &mut F,
        alloc: Global,
        queue: LogQueue,
        paths: Paths,
        default_format: LogFileFormat,
        target_file_size: u64,
        mut found: Vec<File>,
    ) -> Result<SinglePipe, Error>
        requires paths { 0 < length paths.items }
        requires plain { IsPlain default_format }
        requires found { (bs : Numbered) × IsFound queue paths.items (F.disk files.old) found.items bs }
        ensures pipe { IfOk result (λ p. IsPipe p (F.disk files.new)) }
        ensures files { IfOk result (λ p. (p.queue ≡ queue) × (p.older.items ++ p.active ∷ [] ≡ found.items)) }
        ensures holds { IfOk result (λ p. (bs : Numbered) → IsFound queue paths.items (F.disk files.old) found.items bs → Holds p (F.disk files.new) bs []) }
        ensures paths { IfOk result (λ p. p.paths ≡ paths) }
        ensures settings { IfOk result (λ p. (p.target_file_size ≡ target_file_size) × (p.default_format ≡ default_format)) }
        ensures bare { IfOk result (λ p. (p.reserved.items ≡ []) × (p.capacity ≡ 0)) }
        ensures alone { IfOk result (λ p. AreLast (F.disk files.old).names (map string_bytes paths.items) queue found.items → IsAlone p (F.disk files.new)) }
        ensures changes { IfOk result (λ p. Changes (F.disk files.old) (F.disk files.new) p.active.handle.0) }
        ensures keeps { OnOk result (KeepsButHeader (F.disk files.old) (F.disk files.new) found.items) }
        ensures err { OnErr result (KeepsButHeader (F.disk files.old) (F.disk files.new) found.items) }
        ensures later { RefusesNoMore (F.is_bounded files.old) (F.is_bounded files.new) (F.meter files.old) (F.meter files.new) }
        ensures taken { NothingRefuses (F.is_bounded files.old) (F.meter files.old) → IsOkOrMemory result }
        ensures corrupt { (f : CorruptionFault) → result ≡ Err (Corruption f) → ⊥ }
        ensures cause { IfErr result (λ e. IsRefusalOrMemory (F.meter files.old) (F.meter files.new) e) }
    {
        let Some(active) = found.pop() else {
            unreachable!()
        };
        let writer = resume_file(files, alloc, active)?;
        Ok(SinglePipe {
            alloc,
            queue,
            paths,
            default_format,
            target_file_size,
            older: found,
            active,
            writer,
            reserved: Vec::new(alloc),
            capacity: 0,
        })
    }

    /// Makes the first file of a queue that has none, with its header on the disk. After an `Err` the
    /// file may be there, with no more than a header.
    pub fn create<F: FileSystem>(
        files: &mut F,
        alloc: Global,
        queue: LogQueue,
        paths: Paths,
        default_format: LogFileFormat,
        target_file_size: u64,
    ) -> Result<SinglePipe, Error>
        requires paths { 0 < length paths.items }
        requires plain { IsPlain default_format }
        requires none { IsLast (F.disk files.old) paths.items queue 0 }
        ensures pipe { IfOk result (λ p. IsPipe p (F.disk files.new)) }
        ensures paths { IfOk result (λ p. p.paths ≡ paths) }
        ensures settings { IfOk result (λ p. (p.target_file_size ≡ target_file_size) × (p.default_format ≡ default_format)) }
        ensures bare { IfOk result (λ p. (p.reserved.items ≡ []) × (p.capacity ≡ 0)) }
        ensures alone { IfOk result (λ p. AreDistinct (map string_bytes paths.items) → IsVacant (F.disk files.old).names (map string_bytes paths.items) queue → IsAlone p (F.disk files.new)) }
        ensures holds { IfOk result (λ p. Holds p (F.disk files.new) [] []) }
        ensures first { IfOk result (λ p. (p.queue ≡ queue) × (p.active.seq ≡ 1) × (p.older.items ≡ [])) }
        ensures makes { MakesButHeader (F.disk files.old) (F.disk files.new) (map string_bytes paths.items) (id_of queue 1) }
        ensures others { KeepsOthers queue (F.disk files.old) (F.disk files.new) }
        ensures later { RefusesNoMore (F.is_bounded files.old) (F.is_bounded files.new) (F.meter files.old) (F.meter files.new) }
        ensures taken { NothingRefuses (F.is_bounded files.old) (F.meter files.old) → IsCreationTaken paths.items queue (F.disk files.old) result }
        ensures corrupt { (f : CorruptionFault) → result ≡ Err (Corruption f) → ⊥ }
        ensures cause { IfErr result (λ e. IsCreationFault (map string_bytes paths.items) queue (F.disk files.old) (F.meter files.old) (F.meter files.new) e) }
    {
        let id = FileId::new(queue, DEFAULT_FIRST_FILE_SEQ);
        let file = new_file(files, alloc, &paths, id, default_format, target_file_size)?;
        let writer = begin_file(files, alloc, file)?;
        Ok(SinglePipe {
            alloc,
            queue,
            paths,
            default_format,
            target_file_size,
            older: Vec::new(alloc),
            active: file,
            writer,
            reserved: Vec::new(alloc),
            capacity: 0,
        })
    }
}
