//! What a file system keeps beside files that are gone (raft-engine's stale metadata).

ghost use Rattle.std.specs.Prelude.{◌≡◌, length, IfErr, OnOk};
ghost use Rattle.raft_log_disk.specs.Cause.{NothingRefuses, RefusesNoMore};
ghost use Rattle.raft_log_files.specs.FileName.{IsFileSeq};
ghost use Rattle.raft_log_files.specs.declared.error.Error.TheVariants.{Memory};
ghost use Rattle.raft_log_recovery.specs.Queue.{AreNumbered};
ghost use Rattle.raft_log_recovery.specs.Scan.{IsDropFault};

use crate::scan::FileName;
use raft_log_files::{Error, FileNameExt, FileSystem};
use raft_log_records::{FileId, FileSeq, LogQueue};
use std::alloc::{AllocError, Global};

/// How many numbers below a queue's first file are tried.
const SAMPLES: u64 = 100;

/// Whether something is kept beside the file of this number, in one of the directories.
fn is_kept_beside<F: FileSystem>(
    files: &F,
    alloc: Global,
    directories: &[String],
    id: FileId,
) -> Result<bool, AllocError>
    requires { IsFileSeq id.seq }
{
    for directory in directories {
        let path = id.build_file_path(alloc, directory.as_str())?;
        if files.exists_metadata(path.as_str()) {
            return Ok(true);
        }
    }
    Ok(false)
}

/// From which number on something may be kept beside files before the first one: the least of the
/// numbers tried that has some tells, and the one tried before it had none.
fn stale_start<F: FileSystem>(
    files: &F,
    alloc: Global,
    directories: &[String],
    first: FileId,
) -> Result<FileSeq, AllocError>
    requires { IsFileSeq first.seq }
{
    for sample in 0..SAMPLES {
        let id = FileId::new(first.queue, sample * first.seq / SAMPLES);
        if is_kept_beside(files, alloc, directories, id)? {
            return Ok(sample.saturating_sub(1) * first.seq / SAMPLES + 1);
        }
    }
    Ok(first.seq)
}

/// Deletes what is kept beside the file of this number, in each of the directories.
fn drop_beside<F: FileSystem>(
    files: &mut F,
    alloc: Global,
    directories: &[String],
    id: FileId,
) -> Result<(), Error>
    requires { IsFileSeq id.seq }
    ensures kept { F.disk files.new ≡ F.disk files.old }
    ensures counted { OnOk result ((F.meter files.new).refusals ≡ (F.meter files.old).refusals) }
    ensures err { IfErr result (λ e. IsDropFault (F.meter files.old) (F.meter files.new) e) }
    ensures later { RefusesNoMore (F.is_bounded files.old) (F.is_bounded files.new) (F.meter files.old) (F.meter files.new) }
    ensures taken { NothingRefuses (F.is_bounded files.old) (F.meter files.old) → IfErr result (λ e. e ≡ Memory) }
{
    for directory in directories {
        let path = id.build_file_path(alloc, directory.as_str())?;
        if files.exists_metadata(path.as_str()) {
            files.delete_metadata(path.as_str())?;
        }
    }
    Ok(())
}

/// Deletes what is kept beside files of the queue that are gone, below the first one that was found,
/// the last first. Not each number below it is tried: a hundred that are spread evenly tell where to
/// begin. The disk stays.
pub(crate) fn drop_stale<F: FileSystem>(
    files: &mut F,
    alloc: Global,
    directories: &[String],
    queue: LogQueue,
    found: &[FileName],
) -> Result<(), Error>
    requires { AreNumbered (length directories.now) found.now }
    ensures kept { F.disk files.new ≡ F.disk files.old }
    ensures counted { OnOk result ((F.meter files.new).refusals ≡ (F.meter files.old).refusals) }
    ensures err { IfErr result (λ e. IsDropFault (F.meter files.old) (F.meter files.new) e) }
    ensures later { RefusesNoMore (F.is_bounded files.old) (F.is_bounded files.new) (F.meter files.old) (F.meter files.new) }
    ensures taken { NothingRefuses (F.is_bounded files.old) (F.meter files.old) → IfErr result (λ e. e ≡ Memory) }
{
    let [first, ..] = found else {
        return Ok(());
    };
    let start = stale_start(files, alloc, directories, FileId::new(queue, first.seq))?;
    for seq in (start..first.seq).rev() {
        drop_beside(files, alloc, directories, FileId::new(queue, seq))?;
    }
    Ok(())
}
