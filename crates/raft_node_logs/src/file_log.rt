//! A log on files in memory, as a node's.
ghost use Rattle.std.specs.Prelude.{◌≡◌, IfErr, IfOk, false, map, min};
ghost use Rattle.raft_content_log.specs.Leaving.{LeavesOnly};
ghost use Rattle.raft_log_disk.specs.MemorySystem.{disk_in};
ghost use Rattle.raft_log_engine.specs.Left.{answers_on};
ghost use Rattle.raft_log_engine.specs.Log.{leaves_of_log};
ghost use Rattle.raft_node_logs.specs.Stopping.{quiet_stop};
ghost use Rattle.raft_node_logs.specs.Files.{AreNotOpened, ChoosesSo, IsFoundAs, IsOpenedLog, cause_of_log, cause_of_refusal, refusal_in, said_bytes, told_image};

use crate::node_log::{NodeLog, Unopened};
use crate::stopping::quiet_stop;
use raft_cluster_events::{CrashChoice, CrashRefusal, FileImage, StopCause};
use raft_log_disk::{CrashChoice as FileChoice, CrashRefusal as FileRefusal, FileBytes};
use raft_log_engine::{EngineFault, LogFiles, MemoryLog, NotOpened};
use raft_log_files::{Config, Error};
use std::alloc::{AllocError, Global};
use std::thread::Threads;

/// The most threads that an opening starts, however many workers are asked for.
const MOST_WORKERS: u64 = 64;

/// Why a node on files stops at a fault of its log.
pub fn cause_of_log(fault: EngineFault) -> StopCause
    ensures { result ≡ cause_of_log fault }
{
    match fault {
        EngineFault::Log(Error::Io(_)) => StopCause::Io,
        EngineFault::Log(Error::TryAgain) => StopCause::TryAgain,
        EngineFault::Log(Error::Memory) => StopCause::Memory,
        _ => StopCause::Other,
    }
}

// Why files that show by chance what nobody wrote aren't opened.
fn cause_of_refusal(why: FileRefusal) -> StopCause
    ensures { result ≡ cause_of_refusal why }
{
    match why {
        FileRefusal::Memory => StopCause::Memory,
        FileRefusal::ByChance | FileRefusal::NotAnImage => StopCause::Other,
    }
}

// How many threads open files for so many workers.
fn threads_for(workers: u64) -> usize
    ensures { result ≡ min workers MOST_WORKERS }
{
    workers.min(MOST_WORKERS) as usize
}

// The files of a log that wasn't opened, and why.
fn unopened(alloc: Global, refused: NotOpened<LogFiles>) -> Unopened<LogFiles>
    ensures stop { result.stop ≡ quiet_stop (cause_of_log refused.fault) }
    ensures files { result.files ≡ refused.files }
{
    let NotOpened { fault, files } = refused;
    Unopened {
        stop: quiet_stop(alloc, cause_of_log(fault)),
        files,
    }
}

// The log over the files, opened by so many workers. They aren't opened where something in them passes
// by chance as a record. One worker replays each batch as it reads it; more keep theirs until all have read.
fn open_log<R: Threads + Sync>(
    rt: &R,
    alloc: Global,
    mut files: LogFiles,
    workers: u64,
) -> Result<MemoryLog, Unopened<LogFiles>>
    ensures sound { IfOk result (λ l. l.has_failed ≡ false) }
    ensures found { IfOk result (λ l. IsFoundAs files (answers_on disk_in l.engine)) }
    ensures leaves { IfOk result (λ l. LeavesOnly (leaves_of_log disk_in l) (answers_on disk_in l.engine)) }
    ensures opens { IfOk result (IsOpenedLog files) }
    ensures err { IfErr result (λ u. AreNotOpened files u.stop u.files) }
{
    if let Err(why) = files.check_genuine() {
        return Err(Unopened {
            stop: quiet_stop(alloc, cause_of_refusal(why)),
            files,
        });
    }
    if workers < 2 {
        return match MemoryLog::open(alloc, files) {
            Ok(log) => Ok(log),
            Err(refused) => Err(unopened(alloc, refused)),
        };
    }
    files.settings.recovery_threads = threads_for(workers);
    match MemoryLog::open_by_workers(rt, alloc, files) {
        Ok(log) => Ok(log),
        Err(refused) => Err(unopened(alloc, refused)),
    }
}

// What a crash leaves of a file, in the words of files.
fn file_bytes(alloc: Global, image: &FileImage) -> Result<FileBytes, AllocError>
    ensures { IfOk result (λ bytes. said_bytes bytes ≡ told_image image.now) }
{
    let path = String::from_str(alloc, image.path.as_str())?;
    let bytes = Vec::from_slice(alloc, &image.bytes)?;
    Ok(FileBytes { path, bytes })
}

// What a crash leaves of each file, in the words of files.
fn all_bytes(alloc: Global, images: &[FileImage]) -> Result<Vec<FileBytes>, AllocError>
    ensures { IfOk result (λ all. map said_bytes all.items ≡ map told_image images.now) }
{
    let mut all = Vec::new(alloc);
    for image in images {
        let bytes = file_bytes(alloc, image)?;
        all.push(bytes)?;
    }
    Ok(all)
}

/// What a crash leaves, in the words of files.
pub fn file_choice(alloc: Global, choice: &CrashChoice) -> Result<FileChoice, AllocError>
    ensures { IfOk result (ChoosesSo choice.now) }
{
    match choice {
        CrashChoice::Least => Ok(FileChoice::Least),
        CrashChoice::Most => Ok(FileChoice::Most),
        CrashChoice::Bytes(images) => {
            let all = all_bytes(alloc, images.as_slice())?;
            Ok(FileChoice::Bytes(all))
        }
    }
}

/// Why files don't crash so, in a cluster's words.
pub fn crash_refusal(why: FileRefusal) -> CrashRefusal
    ensures { result ≡ refusal_in why }
{
    match why {
        FileRefusal::NotAnImage => CrashRefusal::NotAnImage,
        FileRefusal::ByChance => CrashRefusal::ByChance,
        FileRefusal::Memory => CrashRefusal::Memory,
    }
}

impl NodeLog for MemoryLog {
    type Files = LogFiles;

    type Settings = Config;

    ghost use Rattle.std.specs.Prelude.{◌≡◌};
    ghost use Rattle.raft_node_logs.specs.Files.{AreFusedFiles, IsFoundAs, IsNotOpened, IsOpenedLog, ChoosesSo, RefuseNothing, cause_of_log, files_in, refusal_in};

    ghost found = { λ files content. IsFoundAs files content };

    ghost finds = { λ log content. IsFoundAs (files_in log) content };

    ghost unopened = { λ old cause new. IsNotOpened old cause new };

    ghost opens = { λ files log. IsOpenedLog files log };

    ghost fresh = { λ files. RefuseNothing files };

    ghost hands_back = { λ log files. files ≡ files_in log };

    ghost fused_files = { λ old first new. AreFusedFiles old first new };

    ghost cause = { cause_of_log };

    ghost chooses = { λ asked chosen. ChoosesSo asked chosen };

    ghost refusal = { refusal_in };

    ghost crashed_left = { λ old new choice content crashed f. crashed.found content f.found };

    fn new_files(alloc: Global, settings: &Config) -> Result<LogFiles, AllocError> {
        Ok(LogFiles::new(alloc, settings.clone()?))
    }

    fn no_files(alloc: Global) -> LogFiles {
        LogFiles::new(alloc, Config::default(alloc))
    }

    fn open<R: Threads + Sync>(
        rt: &R,
        alloc: Global,
        files: LogFiles,
        workers: u64,
    ) -> Result<MemoryLog, Unopened<LogFiles>> {
        open_log(rt, alloc, files, workers)
    }

    fn into_files(self) -> LogFiles {
        MemoryLog::into_files(self)
    }

    fn fuse_files(files: &mut LogFiles, first_refused: Option<u64>) {
        files.fuse(first_refused);
    }

    fn cause_of(fault: EngineFault) -> StopCause {
        cause_of_log(fault)
    }

    fn choice_of(alloc: Global, asked: &CrashChoice) -> Result<FileChoice, AllocError> {
        file_choice(alloc, asked)
    }

    fn refusal_of(why: FileRefusal) -> CrashRefusal {
        crash_refusal(why)
    }
}
