//! A store is cleaned as its log is.

use crate::fault::StoreFault;
use crate::store::Store;
use raft_content_log::CleanLog;
use raft_machines::StateMachine;
use raft_storage_cleaning::CleanStorage;

impl<M: StateMachine, L: CleanLog> CleanStorage for Store<M, L> {
    fn clean_files(&mut self) -> Result<Vec<u64>, StoreFault<L::Fault>> {
        match self.log.clean() {
            Ok(groups) => Ok(groups),
            Err(fault) => {
                self.failed_cleaning = true;
                Err(StoreFault::Log(fault))
            }
        }
    }
}
