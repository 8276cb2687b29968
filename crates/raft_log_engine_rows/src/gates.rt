//! Two files, of which one is read only behind the other.

use crate::told::of_files;
use raft_gate_files::{Gate, GateFiles, LateRead};
use raft_log_engine::{Engine, EngineFault};
use raft_log_files::{Config, Fd, FileSystem, IoFault, LogFileFormat};
use raft_log_records::Version;
use std::alloc::{AllocError, Global};
use std::thread::Threads;

/// Makes a log file without batches.
fn made(files: &mut GateFiles, alloc: Global, path: &str) -> Result<Fd, IoFault> {
    let header = LogFileFormat::new(Version::V2, 0).encode(alloc)?;
    if files.is_file(path) {
        return Err(IoFault::Refused);
    }
    let fd = files.create(path)?;
    files.write_at(fd, 0, &header)?;
    Ok(fd)
}

/// Reads of a first file wait so often for one of a second.
fn shut(files: &mut GateFiles, alloc: Global, turns: u64) -> Result<(), IoFault> {
    files.make_dir("main")?;
    let first = made(files, alloc, "main/0000000000000001.raftlog")?;
    let second = made(files, alloc, "main/0000000000000002.raftlog")?;
    files.read_late(LateRead::new(first, second, turns));
    Ok(())
}

/// The settings of an engine that is opened by so many workers.
fn config_of(alloc: Global, workers: u64) -> Result<Config, AllocError> {
    let mut config = Config::default(alloc);
    config.dir = String::from_str(alloc, "main")?;
    config.recovery_threads = workers as usize;
    Ok(config)
}

/// Whether so many workers open an engine of which one file waits so often for the read of the file
/// behind it, and that read doesn't give up.
pub fn reads_at_once<R: Threads + Sync>(
    rt: &R,
    alloc: Global,
    workers: u64,
    turns: u64,
) -> Result<bool, EngineFault> {
    let config = config_of(alloc, workers)?;
    let gate = Gate::new(alloc, turns)?;
    let mut files = GateFiles::new(alloc, gate);
    if let Err(fault) = shut(&mut files, alloc, turns) {
        return of_files(Err(fault));
    }
    match Engine::open_with_file_system(rt, files, alloc, config) {
        Ok(engine) => Ok(!engine.files().gave_up()),
        Err(refused) => Err(refused.fault),
    }
}
