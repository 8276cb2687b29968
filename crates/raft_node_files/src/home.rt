//! A node at home in a directory of a disk.

use raft_host_log::{HostFiles, HostLog};
use raft_log_engine::{EngineFault, NotOpened};
use raft_log_files::{Config, Error};
use raft_log_host::{HostFileSystem, OpenError};
use raft_node_script::{HomeRefusal, NodeHome};
use raft_node_status::{LogStatus, log_status};
use raft_script_machines::ScriptMachine;
use raft_store::Store;
use std::marker::PhantomData;
use std::thread::Threads;

/// The directory of a node whose groups have such machines (own).
#[derive(Drop)]
pub struct DiskHome<M: ScriptMachine> {
    /// Reaches the system.
    pub rt: HostRuntime,
    /// The node's id: the directory belongs to it alone.
    pub id: u64,
    /// The settings of its log. Its files lie in the main directory.
    pub settings: Config,
    /// Its machines.
    pub of: PhantomData<M>,
}

impl<M: ScriptMachine> DiskHome<M> {
    // Says on standard error why the system refused a call of these files, if it did.
    fn complain_of(&self, files: &HostFileSystem) {
        let directory = self.settings.dir.as_str();
        if let Some(why) = files.cause() {
            let _ = eprintln!(&self.rt; "raft: {directory}: {why}");
        }
    }

    // The files of the directory.
    fn files(&self) -> Result<HostFileSystem, HomeRefusal> {
        let directory = self.settings.dir.as_str();
        match HostFileSystem::open(self.rt, directory, self.id) {
            Ok(files) => Ok(files),
            Err(why) => {
                let _ = eprintln!(&self.rt; "raft: {directory}: {why}");
                Err(refusal_of(why))
            }
        }
    }
}

// Why a directory isn't opened.
fn refusal_of(why: OpenError) -> HomeRefusal {
    match why {
        OpenError::Io(_) => HomeRefusal::System,
        OpenError::InUse => HomeRefusal::InUse,
        OpenError::OtherOwner => HomeRefusal::OtherNode,
        OpenError::Memory => HomeRefusal::Memory,
    }
}

// Why its log isn't opened.
fn refusal_of_log(fault: &EngineFault, files: &HostFileSystem) -> HomeRefusal {
    if files.cause().is_some() {
        return HomeRefusal::System;
    }
    match fault {
        EngineFault::Log(Error::Memory) => HomeRefusal::Memory,
        _ => HomeRefusal::Damaged,
    }
}

// The files of a log.
fn status_of(log: &HostLog) -> LogStatus {
    log_status(log.engine())
}

impl<M: ScriptMachine> NodeHome for DiskHome<M> {
    type Machine = M;

    type Storage = Store<M, HostLog>;

    fn open<R: Threads + Sync>(&mut self, rt: &R) -> Result<Self::Storage, HomeRefusal> {
        let alloc = self.rt.alloc();
        let Ok(settings) = self.settings.clone() else {
            return Err(HomeRefusal::Memory);
        };
        let files = self.files()?;
        match HostLog::open_by_workers(rt, alloc, HostFiles { settings, files }) {
            Ok(log) => Ok(Store::new(alloc, log)),
            Err(NotOpened { fault, files }) => {
                let directory = self.settings.dir.as_str();
                let _ = eprintln!(&self.rt; "raft: {directory}: {fault}");
                self.complain_of(&files.files);
                Err(refusal_of_log(&fault, &files.files))
            }
        }
    }

    fn complain(&self, storage: &Self::Storage) {
        self.complain_of(storage.log().files());
    }

    fn log_status(&self, storage: &Self::Storage) -> LogStatus {
        status_of(storage.log())
    }
}
