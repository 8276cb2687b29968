//! A store crashes as its log does.

use crate::store::Store;
use raft_content_log::CrashLog;
use raft_group_storage::CrashStorage;
use raft_machines::StateMachine;

impl<M: StateMachine, L: CrashLog> CrashStorage for Store<M, L> {
    type Choice = L::Choice;

    type Refusal = L::Refusal;

    ghost crashed = { λ old choice new. L.crashed old.log choice new.log };

    ghost refuses = { λ store choice why. L.refuses store.log choice why };

    fn crash(&mut self, choice: &L::Choice) -> Result<(), L::Refusal> {
        self.log.crash(choice)
    }
}
