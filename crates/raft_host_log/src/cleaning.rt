//! Cleaning of a log over files of the operating system.

use crate::log::HostLog;
use raft_content_log::CleanLog;
use raft_log_engine::EngineFault;

impl CleanLog for HostLog {
    /// Cleans the engine's files, as `Engine::purge_expired_files` says. A log that has failed is
    /// `Stopped`, with no call.
    fn clean(&mut self) -> Result<Vec<u64>, EngineFault> {
        if self.has_failed {
            return Err(EngineFault::Stopped);
        }
        match self.engine.purge_expired_files(None) {
            Ok(groups) => Ok(groups),
            Err(fault) => {
                self.has_failed = true;
                Err(fault)
            }
        }
    }
}
