//! Openings, closes and crashes.

use crate::gates::reads_at_once;
use crate::session::{Place, Session};
use crate::told::of_files;
use raft_log_engine::{Engine, EngineFault};
use raft_log_files::{Config, CrashChoice, CrashFiles, IoFault, MemoryFileSystem};
use raft_rows::number;
use std::thread::Threads;

/// Opens files that were taken out.
fn open_files<R: Threads + Sync>(
    rt: &R,
    at: &mut Session,
    files: MemoryFileSystem,
    mut config: Config,
) -> bool {
    let alloc = at.desk.alloc;
    let opened = match at.workers {
        Some(workers) => {
            config.recovery_threads = workers;
            Engine::open_with_file_system(rt, files, alloc, config)
        }
        None => Engine::open_alone(files, alloc, config),
    };
    match opened {
        Ok(engine) => {
            at.place = Place::Open(engine);
            true
        }
        Err(refused) => {
            at.place = Place::Closed(refused.files);
            at.desk.told.refuse(refused.fault)
        }
    }
}

/// Opens the files with the settings. A refusal leaves them to be opened again.
fn open<R: Threads + Sync>(rt: &R, at: &mut Session) -> bool {
    let Ok(config) = at.config.clone() else {
        return at.desk.told.lack_memory();
    };
    match at.take_place() {
        Place::Closed(files) => open_files(rt, at, files, config),
        open => {
            at.place = open;
            true
        }
    }
}

/// Closes the engine.
fn close(at: &mut Session) -> Result<(), EngineFault> {
    match at.take_place() {
        Place::Open(engine) => match engine.close() {
            Ok(files) => {
                at.place = Place::Closed(files);
                Ok(())
            }
            Err(refused) => {
                at.place = Place::Closed(refused.files);
                Err(refused.fault)
            }
        },
        closed => {
            at.place = closed;
            Ok(())
        }
    }
}

/// The files, without a call on them.
fn abandoned(at: &mut Session) -> MemoryFileSystem {
    match at.take_place() {
        Place::Open(engine) => engine.abandon(),
        Place::Closed(files) => files,
    }
}

/// Leaves the files as they are, or what a crash leaves at least or at most.
fn leave(at: &mut Session, how: &str) -> Result<(), EngineFault> {
    let mut files = abandoned(at);
    let crashed = match how {
        "least" => files.crash(&CrashChoice::Least),
        "most" => files.crash(&CrashChoice::Most),
        _ => Ok(()),
    };
    at.place = Place::Closed(files);
    match crashed {
        Ok(()) => Ok(()),
        Err(_) => of_files(Err(IoFault::Refused)),
    }
}

/// Stops, and opens the files again. A refused close counts as one.
fn stop<R: Threads + Sync>(rt: &R, at: &mut Session, how: &str) -> bool {
    if how == "closed" {
        let _ = close(at);
    } else if let Err(fault) = leave(at, how) {
        return at.desk.told.refuse(fault);
    }
    open(rt, at)
}

/// Takes a step: `open`, `close`, `leave:least`, `leave:most`, or `leave:abandoned`, which makes no
/// call; or `stop:closed` and so on, which opens the files again. `gate:WORKERS:TURNS` opens others,
/// of which one waits to be read.
pub fn live<R: Threads + Sync>(rt: &R, at: &mut Session, parts: &[&str]) -> bool {
    match parts {
        ["open"] => open(rt, at),
        ["close"] => {
            let closed = close(at);
            at.desk.told.done("Closed", closed)
        }
        ["leave", how] => {
            let left = leave(at, how);
            at.desk.told.done("", left)
        }
        ["stop", how] => stop(rt, at, how),
        ["gate", workers, turns] => {
            let met = reads_at_once(rt, at.desk.alloc, number(workers), number(turns));
            at.desk.told.value("Met", met)
        }
        _ => false,
    }
}
