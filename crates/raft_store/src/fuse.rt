//! A store's files refuse calls as its log's do.

use crate::store::Store;
use raft_content_log::CrashLog;
use raft_machines::StateMachine;
use raft_storage_fuse::FuseStorage;

impl<M: StateMachine, L: CrashLog> FuseStorage for Store<M, L> {
    ghost fused = { λ old first new. L.fused old.log first new.log };

    fn fuse(&mut self, first_refused: Option<u64>) {
        self.log.fuse(first_refused);
    }
}
